//! [`Link`]: the links of a node with both their ends in one hand, and the ledgers of one.

use can_frame::{BufferView, Message};
use sja_journal::{Down, Up, Verdict};
use sja_link::{BadCredit, Busy, LostWindow, ReleaseFault};
use std::alloc::{AllocError, Global};

/// The links of a node with both their ends in one hand, and the ledgers of one of them. What the calls of a ledger
/// promise stays out of what a row's program has to prove. A ledger's call answers nothing where its end is of another
/// node.
pub trait Link {
    /// The bus puts an item, past its ledger.
    fn put(&mut self, item: Down) -> Result<(), Down>;

    /// The bus takes what is shown, past its ledger.
    fn take(&mut self) -> Option<Up>;

    /// The driver gives an item, past its ledger.
    fn give(&mut self, item: Up) -> Result<(), Up>;

    /// The driver gets what is shown, past its ledger.
    fn get(&mut self) -> Option<Down>;

    /// The link gives one item back of those that a ledger puts or gives, once it took so many; where it is one that
    /// can.
    fn returns(&mut self, after: u32);

    /// What is put, taken, got and given past the ledgers from now on is so on the link of this activation.
    fn of(&mut self, activation: u64);

    /// Writes what was left downward on the links that have no queues any more, where they are links of two queues.
    fn left(&self, alloc: Global, text: &mut String) -> Result<(), AllocError>;

    /// What the bus's ledger judges of a message.
    fn judge(&mut self, message: Message) -> Option<Result<Verdict, Busy>>;

    /// What it collects.
    fn collect(&mut self) -> Option<Result<Option<Up>, BadCredit>>;

    /// Whether it puts bus-off.
    fn off(&mut self) -> Option<Result<(), Busy>>;

    /// How many bytes it has free.
    fn free(&self) -> u8;

    /// Whether the window of the driver's ledger is there.
    fn look(&mut self) -> Option<Result<(), LostWindow>>;

    /// A copy of what its window shows.
    fn window(&mut self) -> Option<Result<Option<Message>, LostWindow>>;

    /// What it releases.
    fn release(&mut self) -> Option<Result<u8, ReleaseFault>>;

    /// The messages that it hasn't released.
    fn unread(&self) -> &[Message];

    /// What a read of the registers sees of them.
    fn seen(&self) -> BufferView;

    /// Writes what is left on the link after the last act of both ends, where it is one that can be settled.
    fn settle(self, alloc: Global, text: &mut String) -> Result<(), AllocError>;
}
