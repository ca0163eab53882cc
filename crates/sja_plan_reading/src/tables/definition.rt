//! What a line of a document defines.

ghost use Rattle.std.specs.Prelude.{◌≡◌, List, IfOk};
ghost use Rattle.sja_plan_reading.specs.Words.{Text};
ghost use Rattle.sja_plan_reading.specs.Inside.Items.{first_of};
ghost use Rattle.sja_plan_reading.specs.Inside.Judging.{ends, comes, below, is_array};
ghost use Rattle.sja_plan_reading.specs.Inside.Names.{text_at};
ghost use Rattle.sja_plan_reading.specs.Inside.Definitions.{item_of};
ghost use Rattle.sja_plan_reading.specs.Inside.Reading.{Refuses};

use super::path::Path;
use super::refusal::Refusal;
use super::what::What;

/// A definition: the parts that a header goes through, those that dots go through, the last part, and what stands
/// there.
#[derive(Clone, Copy)]
pub(crate) struct Definition {
    pub(crate) path: Path,
    pub(crate) dots: Path,
    pub(crate) last: u32,
    pub(crate) what: What,
}

impl Definition {
    /// The number of its first part.
    pub(crate) fn first(&self) -> u32
        ensures { (ts : List Text) → text_at ts result ≡ first_of (item_of ts self.now) }
    {
        if self.path.count > 0 {
            self.path.first
        } else if self.dots.count > 0 {
            self.dots.first
        } else {
            self.last
        }
    }

    /// Whether it ends at its first part.
    pub(crate) fn ends(&self) -> bool
        ensures { (ts : List Text) → result ≡ ends (item_of ts self.now) }
    {
        self.path.count == 0 && self.dots.count == 0
    }

    /// How it comes to its first part: by a header, by a pair, or with what stands there.
    pub(crate) fn comes(&self) -> What
        ensures { (ts : List Text) → result ≡ comes (item_of ts self.now) }
    {
        if self.path.count > 0 {
            What::Table
        } else if self.dots.count > 0 {
            What::Pair
        } else {
            self.what
        }
    }

    /// Whether it is a header in double brackets.
    pub(crate) fn is_array(&self) -> bool
        ensures { (ts : List Text) → result ≡ is_array (item_of ts self.now) }
    {
        matches!(self.what, What::Array)
    }

    /// The same below the table of its first part.
    pub(crate) fn below(&self) -> Result<Definition, Refusal>
        ensures below { IfOk result (λ d. (ts : List Text) → item_of ts d ≡ below (item_of ts self.now)) }
        ensures never { Refuses result ⊥ }
    {
        let mut definition = *self;
        if self.path.count > 0 {
            definition.path = self.path.behind()?;
        } else if self.dots.count > 0 {
            definition.dots = self.dots.behind()?;
        }
        Ok(definition)
    }
}
