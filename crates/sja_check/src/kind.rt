//! [`Kind`]: what a text of a plan is to say.

/// What a text of a plan is to say.
#[derive(Clone, Copy)]
pub(crate) enum Kind {
    /// A step of this node, counted from 0.
    Step(usize),
    /// A turn.
    Turn,
    /// A strike.
    Strike,
}

impl Kind {
    /// The key of the list that it stands in.
    pub(crate) fn key(self) -> &'static str {
        match self {
            Kind::Step(_) => "steps",
            Kind::Turn => "turns",
            Kind::Strike => "faults",
        }
    }

    /// The other key that the list may have in version 3.
    pub(crate) fn other_key(self) -> &'static str {
        match self {
            Kind::Strike => "strikes",
            _ => self.key(),
        }
    }
}
