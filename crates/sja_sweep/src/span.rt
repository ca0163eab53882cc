//! [`Span`]: successive bits of one node, or of two, with one outcome.

ghost use Rattle.std.specs.Prelude.{◌≡◌, ◌+◌, ◌==◌, ◌&&◌};
ghost use Rattle.sja_sweep.specs.Spans.{is_next, are_next, span_of, goes_on, joined};
ghost use Rattle.sja_sweep.specs.Inside.Reaching.{outcome_value, span_value};

use super::first_error::FirstError;
use super::kinds::Kinds;
use super::target::Target;
use super::trial::Trial;
use super::trial_outcome::TrialOutcome;

/// Successive bits of one node, or of two, with one outcome.
#[derive(Clone, Copy)]
pub(crate) struct Span<'a> {
    /// What is struck in the first run.
    pub(crate) first: Trial,
    /// What is struck in the last one.
    pub(crate) last: Trial,
    /// The first error of the first run.
    pub(crate) from: Option<FirstError>,
    /// That of the last one.
    pub(crate) to: Option<FirstError>,
    /// The outcome.
    pub(crate) words: &'a str,
    /// Of what kinds it is.
    pub(crate) kinds: Kinds,
}

impl<'a> Span<'a> {
    ghost use Rattle.std.specs.Prelude.{◌≡◌};
    ghost use Rattle.sja_sweep.specs.Spans.{span_of, goes_on, joined};
    ghost use Rattle.sja_sweep.specs.Inside.Reaching.{outcome_value, span_value};

    /// One trial alone.
    pub(crate) fn of(told: &'a TrialOutcome) -> Span<'a>
        ensures { span_value result ≡ span_of (outcome_value told.now) }
    {
        Span {
            first: told.trial,
            last: told.trial,
            from: told.error,
            to: told.error,
            words: told.words.as_str(),
            kinds: told.kinds,
        }
    }

    /// Whether it goes on in another one: the same nodes, the next bits, and the same outcome.
    pub(crate) fn goes_on(self, next: Span<'a>) -> bool
        ensures { result ≡ goes_on (span_value self.entry) (span_value next.entry) }
    {
        is_next(self.last.first, next.first.first)
            && are_next(self.last.second, next.first.second)
            && self.words.as_bytes() == next.words.as_bytes()
    }

    /// Both as one.
    pub(crate) fn joined(self, next: Span<'a>) -> Span<'a>
        ensures { span_value result ≡ joined (span_value self.entry) (span_value next.entry) }
    {
        Span {
            first: self.first,
            last: next.last,
            from: self.from,
            to: next.to,
            words: next.words,
            kinds: next.kinds,
        }
    }
}

/// Whether a strike is of the same node as another one, in the next bit.
fn is_next(target: Target, next: Target) -> bool
    ensures { result ≡ is_next target next }
{
    target.node == next.node && u64::from(target.bit) + 1 == u64::from(next.bit)
}

/// The same of the second strikes of two runs, where there are some.
fn are_next(target: Option<Target>, next: Option<Target>) -> bool
    ensures { result ≡ are_next target next }
{
    match (target, next) {
        (None, None) => true,
        (Some(target), Some(next)) => is_next(target, next),
        _ => false,
    }
}
