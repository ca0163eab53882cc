//! [`CommandRefusal`]: why the program refuses, and the text that it writes of it.

ghost use Rattle.std.specs.Prelude.{◌≡◌};
ghost use Rattle.text_codec.specs.Refusal.{layout_fault_text, notation_fault_text, run_fault_text};

use super::plan_fault_text::PlanFaultText;
use super::sweep_refusal::SweepRefusal;
use can_frame::{LayoutFault, OutOfMemory};
use can_levels::LineFault;
use can_notation::NotationFault;
use sja_log::RunFault;
use sja_plan_reading::PlanFault;
use std::alloc::AllocError;
use std::fmt;

/// Why the program refuses what it was asked for. It shows as the text that the program writes of it
/// (this project's own rule).
#[derive(Clone, Copy, Debug, PartialEq, Eq)]
pub enum CommandRefusal {
    /// Memory was refused.
    OutOfMemory,
    /// A text isn't the number of hexadecimal digits that is needed.
    NotHexadecimal,
    /// A text has a character that isn't `0` or `1`.
    NotALine,
    /// The input can't be read.
    Read,
    /// Bytes are no message.
    Layout(LayoutFault),
    /// Levels are no acknowledged line.
    Line(LineFault),
    /// A text with a `#` isn't in can-utils' notation.
    Notation(NotationFault),
    /// The input is no plan.
    Plan(PlanFault),
    /// A run has no log.
    Run(RunFault),
    /// A run has no place of the strike of this number, counted from 1.
    Place(usize),
    /// The strikes by place are more than a plan may have.
    Strikes,
    /// A plan has no sweep, or not with a strike more.
    Sweep(SweepRefusal),
    /// A drawing has more levels than 150,000, and it isn't said that so many are meant: how many it may have.
    Drawing(u64),
}

impl fmt::Display for CommandRefusal {
    ghost use Rattle.std.specs.Prelude.{Some};
    ghost use Rattle.text_codec.specs.Refusal.{refusal_text};

    ghost output = { λ refusal. Some (refusal_text refusal) };

    fn fmt<W: fmt::Write>(&self, f: &mut fmt::Formatter<W>) -> fmt::Result {
        match self {
            CommandRefusal::OutOfMemory => f.write_str("out of memory"),
            CommandRefusal::NotHexadecimal => f.write_str("not hexadecimal"),
            CommandRefusal::NotALine => f.write_str("not a line"),
            CommandRefusal::Read => f.write_str("read fault"),
            CommandRefusal::Layout(fault) => f.write_str(layout_fault_text(*fault)),
            CommandRefusal::Line(LineFault::Stuff(at)) => write!(f, "line fault 1 Stuff at {at}"),
            CommandRefusal::Line(LineFault::Form(at)) => write!(f, "line fault 2 Form at {at}"),
            CommandRefusal::Line(LineFault::Crc) => f.write_str("line fault 3 Crc"),
            CommandRefusal::Line(LineFault::NoAck) => f.write_str("line fault 4 NoAck"),
            CommandRefusal::Line(LineFault::Truncated) => f.write_str("line fault 5 Truncated"),
            CommandRefusal::Line(LineFault::Trailing(at)) => write!(
                f,
                "line fault 6 Trailing at {at}"
            ),
            CommandRefusal::Notation(fault) => f.write_str(notation_fault_text(*fault)),
            CommandRefusal::Plan(fault) => write!(f, "{}", PlanFaultText(*fault)),
            CommandRefusal::Run(fault) => f.write_str(run_fault_text(*fault)),
            CommandRefusal::Place(number) => write!(f, "run fault 6 Place {number}"),
            CommandRefusal::Strikes => f.write_str("run fault 7 Strikes"),
            CommandRefusal::Sweep(why) => write!(f, "{why}"),
            CommandRefusal::Drawing(levels) => write!(
                f,
                "picture fault 1 TooMany: {levels} levels, which --yes draws"
            ),
        }
    }
}

/// What is wrong with the layout of a message.
fn layout_fault_text(fault: LayoutFault) -> &'static str
    ensures { result.now ≡ layout_fault_text fault }
{
    match fault {
        LayoutFault::Short => "layout fault 1 Short",
        LayoutFault::Long => "layout fault 2 Long",
        LayoutFault::UnusedBit => "layout fault 3 UnusedBit",
        LayoutFault::RtrDisagrees => "layout fault 4 RtrDisagrees",
    }
}

/// What is wrong with a text in can-utils' notation.
fn notation_fault_text(fault: NotationFault) -> &'static str
    ensures { result.now ≡ notation_fault_text fault }
{
    match fault {
        NotationFault::NoHash => "notation fault 1 NoHash",
        NotationFault::Identifier => "notation fault 2 Identifier",
        NotationFault::Data => "notation fault 3 Data",
    }
}

/// Why a run has no log.
fn run_fault_text(fault: RunFault) -> &'static str
    ensures { result.now ≡ run_fault_text fault }
{
    match fault {
        RunFault::Memory => "out of memory",
        RunFault::GateCount => "run fault 2 GateCount",
        RunFault::Bus(_) => "run fault 3 Bus",
        RunFault::Thread => "run fault 4 Thread",
        RunFault::Unsettled => "run fault 5 Unsettled",
    }
}

impl From<AllocError> for CommandRefusal {
    ghost use Rattle.text_codec.specs.declared.command_refusal.CommandRefusal.TheVariants as refusal;

    ghost from_gives = { λ _ given. given ≡ refusal.OutOfMemory };

    fn from(_error: AllocError) -> CommandRefusal {
        CommandRefusal::OutOfMemory
    }
}

impl From<OutOfMemory> for CommandRefusal {
    ghost use Rattle.text_codec.specs.declared.command_refusal.CommandRefusal.TheVariants as refusal;

    ghost from_gives = { λ _ given. given ≡ refusal.OutOfMemory };

    fn from(_error: OutOfMemory) -> CommandRefusal {
        CommandRefusal::OutOfMemory
    }
}

impl From<LayoutFault> for CommandRefusal {
    ghost use Rattle.text_codec.specs.declared.command_refusal.CommandRefusal.TheVariants as refusal;

    ghost from_gives = { λ fault given. given ≡ refusal.Layout fault };

    fn from(fault: LayoutFault) -> CommandRefusal {
        CommandRefusal::Layout(fault)
    }
}

impl From<LineFault> for CommandRefusal {
    ghost use Rattle.text_codec.specs.declared.command_refusal.CommandRefusal.TheVariants as refusal;

    ghost from_gives = { λ fault given. given ≡ refusal.Line fault };

    fn from(fault: LineFault) -> CommandRefusal {
        CommandRefusal::Line(fault)
    }
}

impl From<PlanFault> for CommandRefusal {
    ghost use Rattle.text_codec.specs.declared.command_refusal.CommandRefusal.TheVariants as refusal;

    ghost from_gives = { λ fault given. given ≡ refusal.Plan fault };

    fn from(fault: PlanFault) -> CommandRefusal {
        CommandRefusal::Plan(fault)
    }
}

impl From<RunFault> for CommandRefusal {
    ghost use Rattle.text_codec.specs.declared.command_refusal.CommandRefusal.TheVariants as refusal;

    ghost from_gives = { λ fault given. given ≡ refusal.Run fault };

    fn from(fault: RunFault) -> CommandRefusal {
        CommandRefusal::Run(fault)
    }
}
