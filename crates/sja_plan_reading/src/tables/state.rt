//! What a key holds.

use super::what::What;

/// What made what a key holds.
#[derive(Clone, Copy)]
pub(crate) enum State {
    /// Nothing yet.
    Absent,
    Value,
    /// A table that a header passed through.
    Implicit,
    /// A table that a dotted key passed through.
    Dotted,
    /// A table with its own header.
    Header,
    /// An array of tables.
    Array,
}

impl State {
    ghost use Rattle.std.specs.Prelude.{◌≡◌};
    ghost use Rattle.sja_plan_reading.specs.Inside.Judging.{behind};

    /// What the key holds behind a definition that ends at it, or passes through; none where the rules refuse it.
    pub(crate) fn behind(self, what: What, ends: bool) -> Option<State>
        ensures { result ≡ behind self what ends }
    {
        if ends {
            match (what, self) {
                (What::Pair, State::Absent) => Some(State::Value),
                (What::Table, State::Absent) | (What::Table, State::Implicit) => Some(
                    State::Header,
                ),
                (What::Array, State::Absent) | (What::Array, State::Array) => Some(State::Array),
                _ => None,
            }
        } else {
            match (what, self) {
                (_, State::Value) => None,
                (What::Pair, State::Header) | (What::Pair, State::Array) => None,
                (What::Pair, _) => Some(State::Dotted),
                (_, State::Absent) => Some(State::Implicit),
                (_, state) => Some(state),
            }
        }
    }
}
