//! What a list of bytes says of itself when it is read as a message.

ghost use Rattle.std.specs.Prelude.{◌≡◌, ◌==◌, ◌/◌, ◌%◌, ◌↔◌, [], ◌∷◌, IsTrue, OnOk};
ghost use Rattle.can_frame.specs.Layout.{said_count, IsShort, IsLong, IsSized, UnusedAreZero, RtrAgrees};

use super::frame::data_count;
use super::layout_fault::LayoutFault;

/// How many bytes stand before the data of a standard frame: frame information and 11 bits of identifier.
pub(crate) const STANDARD_HEAD: usize = 3;

/// The same of an extended frame: frame information and 29 bits of identifier.
pub(crate) const EXTENDED_HEAD: usize = 5;

/// Bit 7 of the first byte: the frame is extended.
pub(crate) fn said_ext(first: u8) -> bool
    ensures { result ≡ (first / 128 % 2 == 1) }
{
    (first >> 7) & 1 == 1
}

/// Bit 6 of the first byte: the frame is a remote frame.
pub(crate) fn said_rtr(first: u8) -> bool
    ensures { result ≡ (first / 64 % 2 == 1) }
{
    (first >> 6) & 1 == 1
}

/// Bits 3 to 0 of the first byte: the DLC.
pub(crate) fn said_dlc(first: u8) -> u8
    ensures { result ≡ first % 16 }
{
    first & 0x0f
}

/// How many bytes the first byte says there are.
fn said_count(first: u8) -> usize
    ensures { result ≡ said_count (first ∷ []) }
{
    let head = if said_ext(first) {
        EXTENDED_HEAD
    } else {
        STANDARD_HEAD
    };
    head + data_count(said_rtr(first), said_dlc(first))
}

/// Whether no unused bit of the head is 1.
fn unused_are_zero(bytes: &[u8]) -> bool
    requires { IsSized bytes.now }
    ensures { IsTrue result ↔ UnusedAreZero bytes.now }
{
    let spare = if said_ext(bytes[0]) {
        bytes[4] & 0x03
    } else {
        bytes[2] & 0x0f
    };
    (bytes[0] >> 4) & 0x03 == 0 && spare == 0
}

/// Whether the RTR bit at the end of the head is the one of the first byte.
fn rtr_agrees(bytes: &[u8]) -> bool
    requires { IsSized bytes.now }
    ensures { IsTrue result ↔ RtrAgrees bytes.now }
{
    let second = if said_ext(bytes[0]) {
        (bytes[4] >> 2) & 1
    } else {
        (bytes[2] >> 4) & 1
    };
    (second == 1) == said_rtr(bytes[0])
}

/// Judges these bytes as a message: the first fault that holds, or none.
pub(crate) fn judged(bytes: &[u8]) -> Result<(), LayoutFault>
    ensures ok { OnOk result (IsSized bytes.now × UnusedAreZero bytes.now × RtrAgrees bytes.now) }
    ensures short { (result ≡ Err LayoutFault.Short) ↔ IsShort bytes.now }
    ensures long { (result ≡ Err LayoutFault.Long) ↔ IsLong bytes.now }
    ensures unused { (result ≡ Err LayoutFault.UnusedBit) ↔ (IsSized bytes.now × ¬ UnusedAreZero bytes.now) }
    ensures rtr { (result ≡ Err LayoutFault.RtrDisagrees)
        ↔ (IsSized bytes.now × UnusedAreZero bytes.now × ¬ RtrAgrees bytes.now) }
{
    let first = if bytes.is_empty() { 0 } else { bytes[0] };
    let count = said_count(first);
    if bytes.len() < count {
        return Err(LayoutFault::Short);
    }
    if bytes.len() > count {
        return Err(LayoutFault::Long);
    }
    if !unused_are_zero(bytes) {
        return Err(LayoutFault::UnusedBit);
    }
    if !rtr_agrees(bytes) {
        return Err(LayoutFault::RtrDisagrees);
    }
    Ok(())
}
