//! [`Sweeping`]: what is asked of a sweep.

use super::kinds::Kinds;

/// What is asked of a sweep (this project's own rule).
#[derive(Clone, Copy, Debug, PartialEq, Eq)]
pub struct Sweeping {
    /// The one node that is struck, counted from 0; each node in turn where there is none.
    pub node: Option<u8>,
    /// The first bit that is struck, counted from 0.
    pub first: u32,
    /// The last bit that is struck, counted from 0. The bits of the plan's run end before, where it has no more.
    pub last: u32,
    /// No number: each run has one strike more. A number: each run has two, which are at most so many bits apart.
    pub pairs: Option<u32>,
    /// Lines of which kinds of outcome alone are told; all where it is none.
    pub asked: Kinds,
    /// Whether more runs than [`MOST_RUNS`](super::limits::MOST_RUNS), or more bits than
    /// [`MOST_SWEPT_BITS`](super::limits::MOST_SWEPT_BITS), are meant.
    pub meant: bool,
}

impl Sweeping {
    ghost use Rattle.std.specs.Prelude.{◌≡◌, false, None};

    /// Each node in each bit, one strike a run, and every line; not more runs and bits than the limits.
    pub fn all() -> Sweeping
        ensures { result ≡ record {
          node = None;
          first = 0;
          last = 4294967295;
          pairs = None;
          asked = record { changed = false; ecc = false; twice = false; lost = false; stuck = false };
          meant = false;
        } }
    {
        Sweeping {
            node: None,
            first: 0,
            last: u32::MAX,
            pairs: None,
            asked: Kinds::none(),
            meant: false,
        }
    }
}
