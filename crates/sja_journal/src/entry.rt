//! One entry of a journal.

use super::up::Up;
use can_frame::Message;
use can_levels::Level;

/// One entry of the journal of a node (this project's own rule).
#[derive(Debug, PartialEq, Eq, Drop)]
pub enum Entry {
    /// A bit: the level that the node drove, and the one that it saw.
    Bit(Level, Level),
    /// An item that the bus took from the driver.
    Up(Up),
    /// An abort that changed the node.
    Abort,
    /// A message that the bus put for the driver.
    Stored(Message),
    /// A message that was lost, since it was longer than the bytes that were free.
    Overrun(Message),
    /// The node went bus-off.
    Off,
}

impl Entry {
    ghost use Rattle.std.specs.Prelude.{◌≡◌};

    /// An equal entry.
    pub(crate) fn copy(&self) -> Entry
        ensures { result ≡ self.now }
    {
        match self {
            Entry::Bit(driven, seen) => Entry::Bit(*driven, *seen),
            Entry::Up(item) => Entry::Up(item.copy()),
            Entry::Abort => Entry::Abort,
            Entry::Stored(message) => Entry::Stored(message.copy()),
            Entry::Overrun(message) => Entry::Overrun(message.copy()),
            Entry::Off => Entry::Off,
        }
    }
}
