//! [`Gauges`]: what the numbers of a node show.

ghost use Rattle.std.specs.Prelude.{◌≡◌};
ghost use Rattle.text_wave.specs.Views.{flag_code, phase_code};

use can_node_rules::{Counters, FlagKind, Phase};
use sja_replay::View;

/// What the numbers of a node show.
#[derive(Clone, Copy, Debug, PartialEq, Eq)]
pub(crate) struct Gauges {
    /// The transmit error counter.
    pub(crate) tec: u16,
    /// The receive error counter.
    pub(crate) rec: u16,
    /// The code of the phase.
    pub(crate) phase: u16,
}

impl Gauges {
    ghost use Rattle.std.specs.Prelude.{◌≡◌, true, Some, None};
    ghost use Rattle.text_wave.specs.Inside.Meters.{gauges_of, gauges_by};

    /// Before anything is shown.
    pub(crate) fn new() -> Gauges
        ensures { result ≡ gauges_of None }
    {
        Gauges {
            tec: 0,
            rec: 0,
            phase: 0,
        }
    }

    /// Of what a node shows.
    pub(crate) fn of(view: &View) -> Gauges
        ensures { result ≡ gauges_of (Some view.now) }
    {
        Gauges::by(view.counters, view.phase, view.flag)
    }

    /// Of these error counters, this phase and this flag.
    pub(crate) fn by(counters: Counters, phase: Phase, flag: FlagKind) -> Gauges
        ensures { result ≡ gauges_by counters phase flag }
    {
        Gauges {
            tec: counters.tec,
            rec: u16::from(counters.rec),
            phase: phase_code(phase, flag),
        }
    }

    /// Whether others show the same.
    pub(crate) fn is(self, other: Gauges) -> bool
        ensures { result ≡ true → self ≡ other }
    {
        self.tec == other.tec && self.rec == other.rec && self.phase == other.phase
    }
}

/// The code of a phase; a flag has that of its kind.
fn phase_code(phase: Phase, flag: FlagKind) -> u16
    ensures { result ≡ phase_code phase flag }
{
    match phase {
        Phase::Reset => 0,
        Phase::Waiting => 1,
        Phase::Idle => 2,
        Phase::Frame => 3,
        Phase::Flag => flag_code(flag),
        Phase::Delimiter => 6,
        Phase::Intermission => 7,
        Phase::Suspension => 8,
    }
}

/// The code of a flag.
fn flag_code(flag: FlagKind) -> u16
    ensures { result ≡ flag_code flag }
{
    match flag {
        FlagKind::ActiveError | FlagKind::PassiveError => 4,
        FlagKind::Overload => 5,
    }
}
