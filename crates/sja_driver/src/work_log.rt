//! The log of a driver that follows a script.

ghost use Rattle.std.specs.Prelude.{◌≡◌, ◌+◌, ◌<◌, ◌++◌, [], ◌∷◌, length, None, IfSome, IfOk, OnOk, OnErr};
ghost use Rattle.sja_journal.specs.BoundedHistories.{KeepsAll, IsLast};
ghost use Rattle.sja_driver.specs.Logs.{done_in, releases_in, left_in, done_room, release_room, left_room};
ghost use Rattle.sja_driver.specs.Logs.{IsEmpty, IsMadeFor, HasRoom};
ghost use Rattle.sja_driver.specs.Inside.Entering.{Enters, IsAmong};
ghost use Rattle.sja_driver.specs.Inside.Attempts.{tried_of, stopped_by};

use super::attempt::Attempt;
use super::release::Release;
use can_frame::OutOfMemory;
use sja_journal::{BoundedHistory, Endless, most_activations};
use sja_link::DriverLedger;
use sja_steps::{StepAnswer, StepRecord};
use std::alloc::Global;

/// What a driver did: its steps done, the messages that it released, and the ledger of each activation that ended
/// (this project's own rule).
///
/// All its room is made beforehand, so no step takes memory. Where that is for more than
/// [`HISTORY_LIMIT`](sja_journal::HISTORY_LIMIT) of a kind, it keeps the latest ones. Contracts see them all.
#[derive(Debug, Drop)]
pub struct WorkLog {
    pub(crate) done: BoundedHistory<StepRecord>,
    pub(crate) released: BoundedHistory<Release>,
    pub(crate) left: BoundedHistory<DriverLedger>,
}

impl WorkLog {
    /// An empty log with room for so many steps, for what so many acts come to, and for all activations of a node in
    /// this version: 1 to 3, or [`WITHOUT_END`](sja_journal::WITHOUT_END).
    ///
    /// Error: [`OutOfMemory`] where memory was refused.
    pub fn new(alloc: Global, version: u8, steps: u64, acts: u64) -> Result<WorkLog, OutOfMemory>
        ensures empty { IfOk result IsEmpty }
        ensures made { IfOk result (IsMadeFor version steps acts) }
        ensures room { IfOk result (HasRoom version acts) }
    {
        let done = BoundedHistory::new(alloc, steps as usize)?;
        let released = BoundedHistory::new(alloc, acts as usize)?;
        let left = BoundedHistory::new(alloc, most_activations(version) as usize)?;
        Ok(WorkLog {
            done,
            released,
            left,
        })
    }

    /// The steps that were done, in order.
    ///
    /// Error: [`Endless`] where it was made for more of them than [`HISTORY_LIMIT`](sja_journal::HISTORY_LIMIT).
    pub fn done(&self) -> Result<&[StepRecord], Endless>
        ensures done { IfOk result (λ s. s.now ≡ done_in self.now) }
        ensures kept { OnOk result (KeepsAll (done_room self.now)) }
        ensures endless { OnErr result (KeepsAll (done_room self.now) → ⊥) }
    {
        self.done.whole()
    }

    /// How many steps were done.
    pub fn done_count(&self) -> usize
        ensures { result ≡ length (done_in self.now) }
    {
        self.done.len()
    }

    /// The step that was done last, if any was.
    pub fn last_done(&self) -> Option<&StepRecord>
        ensures none { result ≡ None → done_in self.now ≡ [] }
        ensures last { IfSome result (λ x. IsLast (done_in self.now) x.now) }
    {
        self.done.last()
    }

    /// The messages that were released, in order.
    ///
    /// Error: [`Endless`] where it was made for more of them than [`HISTORY_LIMIT`](sja_journal::HISTORY_LIMIT).
    pub fn released(&self) -> Result<&[Release], Endless>
        ensures released { IfOk result (λ s. s.now ≡ releases_in self.now) }
        ensures kept { OnOk result (KeepsAll (release_room self.now)) }
        ensures endless { OnErr result (KeepsAll (release_room self.now) → ⊥) }
    {
        self.released.whole()
    }

    /// The ledger of each activation that ended, in order: what it held then is unread.
    ///
    /// Error: [`Endless`] where it was made for more of them than [`HISTORY_LIMIT`](sja_journal::HISTORY_LIMIT).
    pub fn left(&self) -> Result<&[DriverLedger], Endless>
        ensures left { IfOk result (λ s. s.now ≡ left_in self.now) }
        ensures kept { OnOk result (KeepsAll (left_room self.now)) }
        ensures endless { OnErr result (KeepsAll (left_room self.now) → ⊥) }
    {
        self.left.whole()
    }

    /// The activation after those that have ended, where it is one that the log was made for: as many as that, less
    /// those after it.
    fn present(&self) -> u64
        requires { length (left_in self.now) < left_room self.now }
        ensures { result ≡ length (left_in self.now) + 1 }
    {
        let after = self.left.free() - 1;
        (self.left.room() - after) as u64
    }

    /// Enters what came of a try of a step that ended no activation, and gives its answer, if the step is done.
    #[inline(always)]
    pub(crate) fn enter(&mut self, attempt: Attempt) -> Option<StepAnswer>
        requires room { length (releases_in self.old) < release_room self.old }
        requires fits { IsAmong (length (left_in self.old)) (left_room self.old) (tried_of attempt) }
        ensures { Enters self.old self.new (tried_of attempt) result }
    {
        match attempt {
            Attempt::Unmet => None,
            Attempt::Answered(answer) => Some(answer),
            Attempt::Released(message) => {
                let bytes = message.len() as u8;
                let activation = self.present();
                self.released.push(Release {
                    activation,
                    message,
                });
                Some(StepAnswer::Released(bytes))
            }
        }
    }

    /// Enters what came of a stop, in the same way: the ledger of the activation that it ended.
    pub(crate) fn enter_stop(
        &mut self,
        stopped: Result<DriverLedger, Attempt>,
    ) -> Option<StepAnswer>
        requires room { length (releases_in self.old) < release_room self.old }
        requires fits { IsAmong (length (left_in self.old)) (left_room self.old) (stopped_by stopped) }
        ensures { Enters self.old self.new (stopped_by stopped) result }
    {
        match stopped {
            Ok(ledger) => {
                self.left.push(ledger);
                Some(StepAnswer::Done)
            }
            Err(attempt) => self.enter(attempt),
        }
    }

    /// Enters a step that is done, with its answer, after so many bits.
    #[inline(always)]
    pub(crate) fn push(&mut self, answer: StepAnswer, bits: u64)
        requires { length (done_in self.old) < done_room self.old }
        ensures entered { done_in self.new ≡ done_in self.old ++ record { answer = answer; bits = bits } ∷ [] }
        ensures room { done_room self.new ≡ done_room self.old }
        ensures rest { self.new ≡ record self.old { done = self.new.done } }
    {
        self.done.push(StepRecord { answer, bits });
    }
}
