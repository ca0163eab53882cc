//! What a bit of a frame is to its transmitter.

/// The kinds of bits in which a transmitter may see another level than it drives, or may not see its own.
#[derive(Clone, Copy, Debug)]
pub enum OwnBit {
    /// The ACK slot: it drives recessive, and waits for dominant.
    AckSlot,
    /// In this bit of the arbitration field it loses arbitration.
    LostArbitration,
    /// A stuff bit before RTR.
    StuffBeforeRtr,
    /// Any other bit.
    Other,
}
