//! Where the fields of a body stand, by the format. A place counts levels from SOF on, without stuff bits (Bosch
//! CAN 2.0 part B section 3.2):
//!
//! | Standard | | Extended | |
//! |---|---|---|---|
//! | 0 | SOF | 0 | SOF |
//! | 1 to 11 | ID.28 to ID.18 | 1 to 11 | ID.28 to ID.18 |
//! | 12 | RTR | 12 | SRR |
//! | 13 | IDE, dominant | 13 | IDE, recessive |
//! | | | 14 to 31 | ID.17 to ID.0 |
//! | | | 32 | RTR |
//! | | | 33 | r1 |
//! | 14 | r0 | 34 | r0 |
//! | 15 to 18 | DLC | 35 to 38 | DLC |
//! | from 19 | data | from 39 | data |

ghost use Rattle.std.specs.Prelude.{◌≡◌, ◌≤◌, ◌+◌};
ghost use Rattle.can_levels.specs.Fields.{rtr_place, dlc_place};

use can_frame::DATA_BYTES;

/// The place of IDE, in both formats.
pub(crate) const IDE_PLACE: u8 = 13;

/// How many levels the CRC sequence has.
pub(crate) const CRC_LEVELS: u8 = 15;

/// How many data bytes a frame has at most.
pub(crate) const MOST_BYTES: u8 = DATA_BYTES as u8;

/// The place of RTR, the last bit of the arbitration field.
#[inline(always)]
pub(crate) fn rtr_place(ext: bool) -> u8
    ensures value { result ≡ rtr_place ext }
    ensures most { result ≤ 32 }
{
    if ext { 32 } else { 12 }
}

/// The place of the DLC's first bit.
#[inline(always)]
pub(crate) fn dlc_place(ext: bool) -> u8
    ensures value { result ≡ dlc_place ext }
    ensures least { 15 ≤ result }
    ensures most { result ≤ 35 }
{
    if ext { 35 } else { 15 }
}

/// The place of the first data bit, after the four bits of the DLC.
#[inline(always)]
pub(crate) fn data_place(ext: bool) -> u8
    ensures value { result ≡ dlc_place ext + 4 }
    ensures least { 19 ≤ result }
    ensures most { result ≤ 39 }
{
    dlc_place(ext) + 4
}
