//! [`Signals`]: what the signals of a node show.

use can_levels::Level;
use sja_journal::{Entry, Up};

/// What the signals of a node show.
#[derive(Clone, Copy, Debug, PartialEq, Eq)]
pub(crate) struct Signals {
    /// The level that the node drives.
    pub(crate) driven: Level,
    /// The level that it sees.
    pub(crate) seen: Level,
    /// Whether an activation has begun, and neither a stop nor bus-off has ended it.
    pub(crate) active: bool,
    /// Whether the node is bus-off, and no activation has begun since.
    pub(crate) off: bool,
    /// Changes with each message that is stored.
    pub(crate) stored: bool,
    /// Changes with each message that is overrun.
    pub(crate) overrun: bool,
}

impl Signals {
    ghost use Rattle.std.specs.Prelude.{◌≡◌, []};
    ghost use Rattle.text_wave.specs.Inside.Cursors.{signals_of, entered};

    /// Before the first entry.
    pub(crate) fn new() -> Signals
        ensures { result ≡ signals_of [] }
    {
        Signals {
            driven: Level::Recessive,
            seen: Level::Recessive,
            active: false,
            off: false,
            stored: false,
            overrun: false,
        }
    }

    /// With an entry more.
    pub(crate) fn enter(&mut self, entry: &Entry)
        ensures { self.new ≡ entered self.old entry.now }
    {
        match entry {
            Entry::Bit(driven, seen) => {
                self.driven = *driven;
                self.seen = *seen;
            }
            Entry::Up(Up::Start(_)) => {
                self.active = true;
                self.off = false;
            }
            Entry::Up(Up::Stop) => self.active = false,
            Entry::Stored(_) => self.stored = !self.stored,
            Entry::Overrun(_) => self.overrun = !self.overrun,
            Entry::Off => {
                self.active = false;
                self.off = true;
            }
            _ => (),
        }
    }
}
