//! Why a register call is refused.

/// Why a register call is refused. A refusal changes nothing.
#[derive(Clone, Copy, Debug, PartialEq, Eq)]
pub enum RegFault {
    /// No register stands at the address in this mode, or it can't be read.
    NoRegister,
    /// The register can't be written.
    ReadOnly,
    /// It can be written in reset mode alone.
    ResetOnly,
    /// The transmit buffer isn't released.
    Locked,
    /// A call of its own does this.
    UseTyped,
    /// This version of the model doesn't have it.
    NotInVersion,
    /// It can't be done in reset mode.
    ActiveOnly,
    /// It can't be done in listen only mode.
    ListenOnly,
}
