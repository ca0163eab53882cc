//! What a node takes between two bits.

ghost use Rattle.std.specs.Prelude.{◌≡◌};

use super::replay::Replay;
use can_node_rules::{AbortOutcome, Config, Phase, Request};
use sja_journal::{Entry, RECEIVE_FIFO, Up};

impl<'a> Replay<'a> {
    ghost use Rattle.sja_journal.specs.declared.entry.Entry.TheVariants.{Up as Item, Abort};
    ghost use Rattle.sja_journal.specs.declared.up.Up.TheVariants.{Start, Credit, Send, Stop};
    ghost use Rattle.sja_replay.specs.Inside.Walking.{Enters};

    /// An entry that is no bit, where it may come there. Answers whether it may; else the replay goes no further.
    pub(crate) fn enter(&mut self, entry: Entry) -> bool
        ensures { Enters self.old self.new entry result }
    {
        match entry {
            Entry::Up(Up::Start(config)) => self.start(config),
            Entry::Up(Up::Credit(bytes)) => self.credit(bytes),
            Entry::Up(Up::Send(request)) => self.send(request),
            Entry::Up(Up::Stop) => self.stop(),
            Entry::Abort => self.abort(),
            _ => false,
        }
    }

    /// A start, in reset alone.
    fn start(&mut self, config: Config) -> bool
        ensures { Enters self.old self.new (Item (Start config)) result }
    {
        match self.node.phase() {
            Phase::Reset => {
                self.node.start(config);
                self.off = false;
                self.aborted = false;
                self.free = RECEIVE_FIFO;
                true
            }
            _ => false,
        }
    }

    /// A credit, of no bytes that aren't stored.
    fn credit(&mut self, bytes: u8) -> bool
        ensures { Enters self.old self.new (Item (Credit bytes)) result }
    {
        if bytes > RECEIVE_FIFO - self.free {
            return false;
        }
        self.aborted = false;
        self.free += bytes;
        true
    }

    /// A request, out of reset and where none is held; where the activation went bus-off the node isn't told.
    fn send(&mut self, request: Request) -> bool
        ensures { Enters self.old self.new (Item (Send request)) result }
    {
        if self.off {
            self.aborted = false;
            return true;
        }
        match self.node.request(request) {
            Ok(()) => {
                self.aborted = false;
                true
            }
            Err(_) => false,
        }
    }

    /// A stop.
    fn stop(&mut self) -> bool
        ensures { Enters self.old self.new (Item Stop) result }
    {
        self.node.stop();
        self.aborted = false;
        true
    }

    /// An abort that changes the node.
    fn abort(&mut self) -> bool
        ensures { Enters self.old self.new Abort result }
    {
        match self.node.abort() {
            AbortOutcome::Unchanged => false,
            _ => {
                self.aborted = true;
                true
            }
        }
    }
}
