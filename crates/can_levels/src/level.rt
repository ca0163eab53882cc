//! A level of the bus.

ghost use Rattle.std.specs.Prelude.{◌≡◌, ◌<◌};

/// A level of the bus (Bosch CAN 2.0 part A section 2, "Bus values").
///
/// The bus is dominant where any node drives dominant.
#[derive(Clone, Copy, Debug, Default, PartialEq, Eq)]
pub enum Level {
    /// The digit 0.
    #[default]
    Dominant,
    /// The digit 1.
    Recessive,
}

impl Level {
    ghost use Rattle.can_levels.specs.Digits.{digit, level_of, opposite};
    ghost use Rattle.can_levels.specs.Fields.{is_recessive};

    /// The level of a binary digit: recessive is 1.
    pub fn of(digit: bool) -> Level
        ensures { result ≡ level_of digit }
    {
        if digit {
            Level::Recessive
        } else {
            Level::Dominant
        }
    }

    /// The binary digit of a level: dominant is 0, recessive is 1.
    pub fn digit(self) -> u8
        ensures value { result ≡ digit self }
        ensures fits { result < 2 }
    {
        match self {
            Level::Dominant => 0,
            Level::Recessive => 1,
        }
    }

    /// Whether the level is recessive.
    pub fn is_recessive(self) -> bool
        ensures { result ≡ is_recessive self }
    {
        match self {
            Level::Dominant => false,
            Level::Recessive => true,
        }
    }

    /// The other level.
    pub fn opposite(self) -> Level
        ensures { result ≡ opposite self }
    {
        match self {
            Level::Dominant => Level::Recessive,
            Level::Recessive => Level::Dominant,
        }
    }
}
