//! The error counters after a bit.

ghost use Rattle.std.specs.Prelude.{◌≡◌};
ghost use Rattle.text_svg.specs.Lanes.{tec_in, rec_in};

use sja_replay::BitEvent;

/// The transmit error counter after a bit; 0 where there is none.
pub(crate) fn tec_in(bit: &Option<BitEvent>) -> u64
    ensures { result ≡ tec_in bit.now }
{
    match bit {
        Some(bit) => u64::from(bit.after.counters.tec),
        None => 0,
    }
}

/// The receive error counter after a bit; 0 where there is none.
pub(crate) fn rec_in(bit: &Option<BitEvent>) -> u64
    ensures { result ≡ rec_in bit.now }
{
    match bit {
        Some(bit) => u64::from(bit.after.counters.rec),
        None => 0,
    }
}
