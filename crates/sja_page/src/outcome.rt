//! [`Outcome`]: how a call of a page went.

ghost use Rattle.std.specs.Prelude.{◌≡◌};
ghost use Rattle.sja_page.specs.Outcomes.{status_of};

/// How a call of a page went.
#[derive(Drop)]
pub(crate) enum Outcome {
    /// The program ended with this exit status.
    Ended(u8),
    /// The words leave something to another call: to threads, to files or to a talk.
    LeftOver,
    /// The two texts don't fit into the room.
    NoRoom,
    /// Memory was refused.
    NoMemory,
}

impl Outcome {
    /// The status by which a page knows it.
    pub(crate) fn status(&self) -> u32
        ensures { result ≡ status_of self.now }
    {
        match self {
            Outcome::Ended(status) => *status as u32,
            Outcome::LeftOver => 3,
            Outcome::NoRoom => 4,
            Outcome::NoMemory => 5,
        }
    }
}
