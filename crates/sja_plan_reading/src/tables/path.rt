//! Parts of keys, one after another.

ghost use Rattle.std.specs.Prelude.{◌≡◌, ◌+◌, IfOk};
ghost use Rattle.sja_plan_reading.specs.Inside.Reading.{Refuses};

use super::refusal::Refusal;

/// Parts of keys, one after another: the number of the first, and how many there are.
#[derive(Clone, Copy)]
pub(crate) struct Path {
    pub(crate) first: u32,
    pub(crate) count: u32,
}

impl Path {
    /// The parts behind the first.
    pub(crate) fn behind(&self) -> Result<Path, Refusal>
        ensures behind { IfOk result (λ p. (self.now.first + 1 ≡ p.first) × (p.count + 1 ≡ self.now.count)) }
        ensures never { Refuses result ⊥ }
    {
        match (self.first.checked_add(1), self.count.checked_sub(1)) {
            (Some(first), Some(count)) => Ok(Path { first, count }),
            _ => Err(Refusal::Open),
        }
    }
}
