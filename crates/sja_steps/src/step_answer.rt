//! What the steps of a driver answer.

ghost use Rattle.std.specs.Prelude.{◌≡◌};
ghost use Rattle.sja_steps.specs.Ignoring.{ignored_read};

use super::ignored::Ignored;
use super::refusal::Refusal;
use super::step::Step;
use can_frame::Message;

/// The address of CMR, which can only be written (SJA1000 data sheet, 6.4.4).
const CMR: u8 = 1;

/// What a step answers once it is done (this project's own rule). A refused step is done too.
#[derive(Debug, PartialEq, Eq, Drop)]
pub enum StepAnswer {
    /// It did what it says: a start, a stop, a write, a load, a command, or a wait that passed.
    Done,
    /// The window is empty: no message was received that isn't released.
    NoMessage,
    /// The message in the window.
    Shown(Message),
    /// A message of this many bytes, 3 to 13, was released.
    Released(u8),
    /// The register reads as this.
    Value(u8),
    /// It was refused.
    Refused(Refusal),
    /// A write of a driver of addresses and bytes was done, and its controller ignored it, all of it or a part.
    Ignored(Ignored),
}

impl StepAnswer {
    ghost use Rattle.sja_steps.specs.Ignoring.{ignored_in};

    /// An equal answer.
    #[inline(always)]
    pub fn copy(&self) -> StepAnswer
        ensures { result ≡ self.now }
    {
        match self {
            StepAnswer::Done => StepAnswer::Done,
            StepAnswer::NoMessage => StepAnswer::NoMessage,
            StepAnswer::Shown(message) => StepAnswer::Shown(message.copy()),
            StepAnswer::Released(bytes) => StepAnswer::Released(*bytes),
            StepAnswer::Value(value) => StepAnswer::Value(*value),
            StepAnswer::Refused(refusal) => StepAnswer::Refused(*refusal),
            StepAnswer::Ignored(cause) => StepAnswer::Ignored(*cause),
        }
    }

    /// Why the controller ignored this step, which answered so, if it did.
    pub fn ignored(&self, step: &Step) -> Option<Ignored>
        ensures { result ≡ ignored_in step.now self.now }
    {
        match self {
            StepAnswer::Ignored(cause) => Some(*cause),
            StepAnswer::Value(_) => ignored_read(step),
            _ => None,
        }
    }
}

/// Why a step that read a value was ignored: it is a read of CMR.
fn ignored_read(step: &Step) -> Option<Ignored>
    ensures { result ≡ ignored_read step.now }
{
    match step {
        Step::Read(address) if *address == CMR => Some(Ignored::WriteOnly),
        _ => None,
    }
}
