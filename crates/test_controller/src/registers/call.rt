//! [`Call`]: a call of a port, as a row has it.

/// A call of a port.
#[derive(Clone, Copy)]
pub enum Call {
    /// `new 1`: after power-on, in this version.
    New,
    /// `active 1`: the same, and reset mode is left.
    Active,
    /// Reset mode is left.
    Leave,
    /// Reset mode is entered.
    Enter,
    /// `see two`: two messages are at the driver's end, of which the first is 02 24 60 11 22; `see none`: none is.
    See,
    /// `turn WORD ..`: a bit of the bus.
    Turn,
    /// `read SR IR ..`: reads, one after the other.
    Read,
    /// `mask IR 02`: a read, and of what it answers these bits.
    Mask,
    /// `write IER 04 EWLR 60 ..`: writes.
    Write,
    /// `fill 02 24 ..`: the transmit buffer is written with these bytes, and with 0 after them.
    Fill,
    /// `load 00 24 60`: a message is loaded.
    Load,
    /// `command 01 02 ..`: commands.
    Command,
    /// `plan 01`: what a command would answer.
    Plan,
    /// Whether an abort is ordered.
    Abort,
    /// Whether the interrupt line is active.
    Line,
    /// `modes`: single filter, listen only and self test, as the controller starts.
    Modes,
    /// The acceptance codes and masks with which it starts.
    Filter,
    /// The transmit error counter with which it starts, if one was written.
    Tec,
    /// And the receive error counter.
    Rec,
}

/// The calls by their names.
pub const CALLS: [(&str, Call); 19] = [
    ("new", Call::New),
    ("active", Call::Active),
    ("leave", Call::Leave),
    ("enter", Call::Enter),
    ("see", Call::See),
    ("turn", Call::Turn),
    ("read", Call::Read),
    ("mask", Call::Mask),
    ("write", Call::Write),
    ("fill", Call::Fill),
    ("load", Call::Load),
    ("command", Call::Command),
    ("plan", Call::Plan),
    ("abort", Call::Abort),
    ("line", Call::Line),
    ("modes", Call::Modes),
    ("filter", Call::Filter),
    ("tec", Call::Tec),
    ("rec", Call::Rec),
];
