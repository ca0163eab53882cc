//! The entries that a bit brings: the verdict on a frame that was received with it, and bus-off.

use super::misfit::Misfit;
use super::reception::Reception;
use super::replay::Replay;
use can_node_rules::BitEvents;
use sja_journal::Entry;

impl<'a> Replay<'a> {
    ghost use Rattle.std.specs.Prelude.{◌≡◌, ℕ, List, length};
    ghost use Rattle.sja_journal.specs.declared.entry.Entry.TheVariants.{Stored, Overrun};
    ghost use Rattle.sja_replay.specs.Inside.Walking.{ClosesNext, FindsVerdict, JudgesNext, GoesOff};

    /// The entries that a bit brought, and what became of the frame that was received with it.
    ///
    /// Error: [`Misfit`] where others come.
    pub(crate) fn close(&mut self, events: &BitEvents) -> Result<Option<Reception>, Misfit>
        ensures { ClosesNext self.old self.new events.now result }
    {
        let reception = self.verdict(events)?;
        if events.went_off {
            self.go_off()?;
        }
        Ok(reception)
    }

    /// What became of the frame, where one was received.
    ///
    /// Error: [`Misfit`], as of [`judge`](Replay::judge).
    fn verdict(&mut self, events: &BitEvents) -> Result<Option<Reception>, Misfit>
        ensures { FindsVerdict self.old self.new events.now result }
    {
        match &events.received {
            Some(_) => {
                let reception = self.judge()?;
                Ok(Some(reception))
            }
            None => Ok(None),
        }
    }

    /// What became of a frame that was received.
    ///
    /// Error: [`Misfit`] where its message was stored and is longer than the bytes that are free, or was overrun and
    /// isn't.
    fn judge(&mut self) -> Result<Reception, Misfit>
        ensures { JudgesNext self.old self.new result }
    {
        match &self.ahead {
            Some(Entry::Stored(message)) => {
                let length = message.len() as u8;
                self.store(length)
            }
            Some(Entry::Overrun(message)) => {
                let length = message.len() as u8;
                self.lose(length)
            }
            _ => Ok(Reception::Stopped),
        }
    }

    /// A message of this length that was stored.
    fn store(&mut self, bytes: u8) -> Result<Reception, Misfit>
        ensures { (m : List ℕ) → self.old.ahead ≡ Some (Stored m) → bytes ≡ length m
            → JudgesNext self.old self.new result }
    {
        if bytes > self.free {
            return Err(Misfit);
        }
        self.free -= bytes;
        self.take();
        Ok(Reception::Stored)
    }

    /// A message of this length that was overrun.
    fn lose(&mut self, bytes: u8) -> Result<Reception, Misfit>
        ensures { (m : List ℕ) → self.old.ahead ≡ Some (Overrun m) → bytes ≡ length m
            → JudgesNext self.old self.new result }
    {
        if bytes <= self.free {
            return Err(Misfit);
        }
        self.take();
        let free = self.free;
        Ok(Reception::Overrun {
            length: bytes,
            free,
        })
    }

    /// Bus-off.
    ///
    /// Error: [`Misfit`] where it doesn't come.
    fn go_off(&mut self) -> Result<(), Misfit>
        ensures { GoesOff self.old self.new result }
    {
        if let Some(Entry::Off) = &self.ahead {
            self.take();
            self.off = true;
            Ok(())
        } else {
            Err(Misfit)
        }
    }
}
