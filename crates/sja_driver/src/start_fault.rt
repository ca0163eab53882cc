//! Why no activation was started.

/// Why no activation was started.
#[derive(Clone, Copy, Debug, PartialEq, Eq)]
pub enum StartFault {
    /// All activations were used: eight in versions 1 and 2, 64 in version 3, 2^56 in a session without an end.
    NoActivationLeft,
    /// The end gave the start back. In one thread it does where the bus hasn't taken all of the activation 64 before,
    /// or the links were made for fewer starts.
    Busy,
}
