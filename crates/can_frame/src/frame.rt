//! [`Frame`]: a data frame or a remote frame, what it says, and how many data bytes there are.

ghost use Rattle.std.specs.Prelude.{◌≡◌, ◌≢◌, ◌<◌, ◌≤◌, ◌↔◌, IfOk, length};
ghost use Rattle.can_frame.specs.Frame.{IsFrame, id_limit, data_count};

use super::byte_list::ByteList;
use super::frame_fault::FrameFault;
use std::marker::Model;

/// How many data bytes a frame has at most (Bosch CAN 2.0 part A section 3.1.1).
pub const DATA_BYTES: usize = 8;

/// A data frame or a remote frame of CAN 2.0, standard or extended (Bosch CAN 2.0 part A section 3.1, part B sections
/// 3.1 and 3.2).
///
/// Contracts see it as the plain record of what it says: `ext`, `id`, `rtr`, `dlc` and `bytes`.
#[derive(Debug, PartialEq, Eq, Drop)]
pub struct Frame {
    id: u32,
    ext: bool,
    rtr: bool,
    dlc: u8,
    bytes: ByteList<DATA_BYTES>,
}

impl Model for Frame {
    ghost use Rattle.can_frame.specs.Frame.{FrameValue, IsFrame};

    ghost Value = { FrameValue };

    ghost view = { λ f. record { ext = f.ext; id = f.id; rtr = f.rtr; dlc = f.dlc; bytes = f.bytes } };

    ghost invariant = { λ f.
        IsFrame (record { ext = f.ext; id = f.id; rtr = f.rtr; dlc = f.dlc; bytes = f.bytes }) };

    ghost inverse = { λ v.
        record { ext = v.ext; id = v.id; rtr = v.rtr; dlc = v.dlc; bytes = v.bytes } };
}

impl Frame {
    /// The frame of these values: format (`ext`: extended), identifier, kind (`rtr`: remote frame), data
    /// length code (DLC) and data bytes. Codes 9 to 15 mean 8 bytes and are kept as given (ISO 11898-1); a remote
    /// frame has no data whatever its code.
    ///
    /// Errors, the first that holds: [`FrameFault::IdRange`] for an identifier above 0x7FF, or 0x1FFF_FFFF where
    /// extended; [`FrameFault::DlcRange`] for a code above 15; [`FrameFault::DataLength`] for another number of
    /// bytes than the code says. Their order is this project's own rule.
    pub fn new(ext: bool, id: u32, rtr: bool, dlc: u8, bytes: &[u8]) -> Result<Frame, FrameFault>
        ensures ok { IfOk result (λ f. f ≡ record { ext = ext; id = id; rtr = rtr; dlc = dlc; bytes = bytes.now }) }
        ensures id_range { (result ≡ Err FrameFault.IdRange) ↔ (id_limit ext ≤ id) }
        ensures dlc_range { (result ≡ Err FrameFault.DlcRange) ↔ ((id < id_limit ext) × (15 < dlc)) }
        ensures data_length { (result ≡ Err FrameFault.DataLength)
            ↔ ((id < id_limit ext) × (dlc < 16) × (length bytes.now ≢ data_count rtr dlc)) }
    {
        if id >= id_limit(ext) {
            return Err(FrameFault::IdRange);
        }
        if dlc > 15 {
            return Err(FrameFault::DlcRange);
        }
        if bytes.len() != data_count(rtr, dlc) {
            return Err(FrameFault::DataLength);
        }
        Ok(Frame {
            ext,
            id,
            rtr,
            dlc,
            bytes: ByteList::of(bytes),
        })
    }

    /// Whether the frame is extended: a 29 bit identifier (Bosch CAN 2.0 part B section 3.1).
    pub fn ext(&self) -> bool
        ensures { result ≡ self.now.ext }
    {
        self.ext
    }

    /// The identifier, below 2^11 in a standard frame and below 2^29 in an extended one (Bosch CAN 2.0 part B
    /// section 3.2). ID.28 is its most significant bit.
    pub fn id(&self) -> u32
        ensures value { result ≡ self.now.id }
        ensures valid { IsFrame self.now }
    {
        self.id
    }

    /// Whether the frame is a remote frame, which asks for data and has none (Bosch CAN 2.0 part A
    /// section 3.1.2).
    pub fn rtr(&self) -> bool
        ensures { result ≡ self.now.rtr }
    {
        self.rtr
    }

    /// The data length code (DLC), 0 to 15, as it was given (ISO 11898-1).
    pub fn dlc(&self) -> u8
        ensures value { result ≡ self.now.dlc }
        ensures valid { IsFrame self.now }
    {
        self.dlc
    }

    /// The data bytes, at most 8, the one sent first in front (Bosch CAN 2.0 part A section 3.1.1).
    pub fn bytes(&self) -> &[u8]
        ensures value { result.now ≡ self.now.bytes }
        ensures valid { IsFrame self.now }
    {
        self.bytes.as_slice()
    }

    /// An equal frame.
    pub fn copy(&self) -> Frame
        ensures { result ≡ self.now }
    {
        Frame {
            ext: self.ext,
            id: self.id,
            rtr: self.rtr,
            dlc: self.dlc,
            bytes: self.bytes.copy(),
        }
    }
}

/// The first number that is no identifier.
fn id_limit(ext: bool) -> u32
    ensures { result ≡ id_limit ext }
{
    if ext { 1 << 29 } else { 1 << 11 }
}

/// How many data bytes a frame of this kind and DLC has.
pub(crate) fn data_count(rtr: bool, dlc: u8) -> usize
    ensures { result ≡ data_count rtr dlc }
{
    if rtr {
        0
    } else {
        usize::from(dlc).min(DATA_BYTES)
    }
}
