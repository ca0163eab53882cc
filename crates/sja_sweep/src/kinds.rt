//! [`Kinds`]: of what kinds an outcome is.

use super::gains::{did_less, got_more};
use super::kind::Kind;
use sja_log::RunLog;

/// Of what kinds an outcome is; and of which kinds lines are asked for, all where it is none (this project's own rule).
#[derive(Clone, Copy, Debug, PartialEq, Eq)]
pub struct Kinds {
    /// Anything is otherwise but levels, times, counters, and what reads of ECC answer.
    pub changed: bool,
    /// What reads of ECC answer is otherwise, and nothing else.
    pub ecc: bool,
    /// A message was got more often in an activation: it was released, or left unread.
    pub twice: bool,
    /// A message was got less often in an activation.
    pub lost: bool,
    /// A driver did fewer steps.
    pub stuck: bool,
}

impl Kinds {
    ghost use Rattle.std.specs.Prelude.{◌≡◌, false, length};
    ghost use Rattle.sja_sweep.specs.Kinds.{is_of, kinds_by, shows};

    /// No kind.
    pub fn none() -> Kinds
        ensures { result ≡ record { changed = false; ecc = false; twice = false; lost = false; stuck = false } }
    {
        Kinds {
            changed: false,
            ecc: false,
            twice: false,
            lost: false,
            stuck: false,
        }
    }

    /// Of the outcome of a run beside the one without a strike; `any` where something is otherwise, and `plain` where
    /// that isn't what reads of ECC answer alone.
    pub(crate) fn of(without: &RunLog, now: &RunLog, any: bool, plain: bool) -> Kinds
        requires { length without.now.nodes ≡ length now.now.nodes }
        ensures { result ≡ kinds_by without.now now.now any plain }
    {
        Kinds {
            changed: plain,
            ecc: any && !plain,
            twice: got_more(now.nodes(), without.nodes()),
            lost: got_more(without.nodes(), now.nodes()),
            stuck: did_less(without.nodes(), now.nodes()),
        }
    }

    /// Whether an outcome of these kinds is of this one.
    pub(crate) fn is(self, kind: Kind) -> bool
        ensures { result ≡ is_of self kind }
    {
        match kind {
            Kind::Same => !self.changed && !self.ecc,
            Kind::Ecc => self.ecc,
            Kind::Twice => self.twice,
            Kind::Lost => self.lost,
            Kind::Stuck => self.stuck,
            Kind::Other => self.changed && !(self.twice || self.lost || self.stuck),
            Kind::Changed => self.changed,
        }
    }

    /// Whether these are asked for where an outcome of those has its line: none are, or one of them.
    pub(crate) fn shows(self, outcome: Kinds) -> bool
        ensures { result ≡ shows self outcome }
    {
        if !(self.changed || self.twice || self.lost || self.stuck) {
            return true;
        }
        (self.changed && outcome.changed)
            || (self.twice && outcome.twice)
            || (self.lost && outcome.lost)
            || (self.stuck && outcome.stuck)
    }
}
