//! [`Refusal`]: why a step is refused, and its name.

use std::fmt;

/// Why a step of a driver is refused (this project's own rule). It shows as its name.
///
/// A step that meets a busy link isn't refused: it is tried again.
#[derive(Clone, Copy, Debug, PartialEq, Eq)]
pub enum Refusal {
    /// All activations were used: eight in versions 1 and 2, 64 in version 3.
    NoActivationLeft,
    /// Bus-off is known, and the window is gone.
    Stopped,
    /// There is no message to release.
    Empty,
    /// The step needs the other state: a start in reset, and all else but reads and writes out of it.
    WrongState,
    /// What the step waits for can't come any more: the bits are spent.
    Closed,
    /// No register stands at the address in this mode, or it can't be read.
    NoRegister,
    /// The register can't be written.
    ReadOnly,
    /// It can be written in reset mode alone.
    ResetOnly,
    /// The transmit buffer isn't released.
    Locked,
    /// A step of its own does this.
    UseTyped,
    /// This version of the model doesn't have it.
    NotInVersion,
    /// It can't be done in reset mode.
    ActiveOnly,
    /// It can't be done in listen only mode.
    ListenOnly,
}

impl fmt::Display for Refusal {
    ghost use Rattle.std.specs.Prelude.{Some};
    ghost use Rattle.sja_steps.specs.Refusals.{refusal_name};

    ghost output = { λ refusal. Some (refusal_name refusal) };

    fn fmt<W: fmt::Write>(&self, f: &mut fmt::Formatter<W>) -> fmt::Result {
        f.write_str(match self {
            Refusal::NoActivationLeft => "NoActivationLeft",
            Refusal::Stopped => "Stopped",
            Refusal::Empty => "Empty",
            Refusal::WrongState => "WrongState",
            Refusal::Closed => "Closed",
            Refusal::NoRegister => "NoRegister",
            Refusal::ReadOnly => "ReadOnly",
            Refusal::ResetOnly => "ResetOnly",
            Refusal::Locked => "Locked",
            Refusal::UseTyped => "UseTyped",
            Refusal::NotInVersion => "NotInVersion",
            Refusal::ActiveOnly => "ActiveOnly",
            Refusal::ListenOnly => "ListenOnly",
        })
    }
}
