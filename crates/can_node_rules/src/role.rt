//! Transmitter or receiver of the frame on the bus.

/// Whose frame it is: a node is transmitter from its own start of frame until it is idle, loses arbitration or takes
/// another node's start of frame (Bosch CAN 2.0 part A section 3).
#[derive(Clone, Copy, Debug)]
pub enum Role {
    /// It sends the frame.
    Transmitter,
    /// Another node sends it, or nobody sends.
    Receiver,
}
