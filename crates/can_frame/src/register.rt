//! [`Register`]: an acceptance code register with its mask register.

ghost use Rattle.std.specs.Prelude.{◌≡◌, ◌+◌, ◌≤◌, ◌↔◌, IsTrue};
ghost use Rattle.can_frame.specs.Filter.{Matches, MatchesByte, MatchesHalves};

/// One acceptance code register and its acceptance mask register (SJA1000 data sheet, 6.4.15).
///
/// A mask bit of 1 means "don't care": its code bit isn't compared.
#[derive(Clone, Copy)]
pub(crate) struct Register {
    /// The acceptance code.
    pub(crate) code: u8,
    /// The acceptance mask.
    pub(crate) mask: u8,
}

impl Register {
    /// Whether the lowest `count` bits of the number are the code bits from bit `low` on, where these are compared.
    pub(crate) fn matches(self, low: u32, count: u32, number: u32) -> bool
        requires { low + count ≤ 8 }
        ensures { IsTrue result ↔ Matches self.code self.mask low count number }
    {
        let differing = (u32::from(self.code) >> low) ^ number;
        let compared = u32::from(!self.mask) >> low;
        differing & compared & ((1 << count) - 1) == 0
    }

    /// Whether the code is this byte of the data, where it is compared; an absent byte isn't.
    pub(crate) fn matches_byte(self, byte: Option<u8>) -> bool
        ensures { IsTrue result ↔ MatchesByte self.code self.mask byte }
    {
        match byte {
            Some(byte) => self.matches(0, 8, u32::from(byte)),
            None => true,
        }
    }
}

/// Whether bits 3 to 0 of two codes are the halves of this byte of the data, the high half first, where these are
/// compared; an absent byte isn't.
pub(crate) fn halves_match(high: Register, low: Register, byte: Option<u8>) -> bool
    ensures { IsTrue result ↔ MatchesHalves high.code high.mask low.code low.mask byte }
{
    let Some(byte) = byte else { return true };
    let above = high.matches(0, 4, u32::from(byte >> 4));
    let below = low.matches(0, 4, u32::from(byte));
    above && below
}
