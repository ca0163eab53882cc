//! [`Run`]: the run of equal levels that came last.

use can_levels::Level;

/// How many equal levels a stuff bit follows (Bosch CAN 2.0 part A section 5).
const FULL: u8 = 5;

/// The run of equal levels that came last.
#[derive(Clone, Copy, Debug)]
pub struct Run {
    /// Their level.
    pub last: Level,
    /// How many they are, and five where there are more.
    pub count: u8,
}

impl Run {
    ghost use Rattle.std.specs.Prelude.{◌≡◌, ◌==◌};
    ghost use Rattle.can_levels.specs.Places.{are_same};
    ghost use Rattle.text_frames.specs.FrameBits.{one_level, longer, run_on};

    /// After one level.
    pub fn of(level: Level) -> Run
        ensures { result ≡ one_level level }
    {
        Run {
            last: level,
            count: 1,
        }
    }

    /// With a level more.
    pub fn with(self, level: Level) -> Run
        ensures { result ≡ run_on self level }
    {
        let count = if is_same(level, self.last) {
            longer(self.count)
        } else {
            1
        };
        Run { last: level, count }
    }

    /// Whether there are five.
    pub fn is_full(self) -> bool
        ensures { result ≡ (self.count == 5) }
    {
        self.count == FULL
    }
}

ghost use Rattle.std.specs.Prelude.{◌≡◌};
ghost use Rattle.can_levels.specs.Places.{are_same};
ghost use Rattle.text_frames.specs.FrameBits.{longer};

/// A run with an equal level more.
fn longer(count: u8) -> u8
    ensures { result ≡ longer count }
{
    if count < FULL { count + 1 } else { FULL }
}

/// Whether two levels are equal.
fn is_same(level: Level, other: Level) -> bool
    ensures { result ≡ are_same level other }
{
    match level {
        Level::Dominant => matches!(other, Level::Dominant),
        Level::Recessive => matches!(other, Level::Recessive),
    }
}
