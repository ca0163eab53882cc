//! [`FrameBit`]: a bit of a frame.

use super::field::Field;
use super::run::Run;
use sja_replay::BitEvent;

/// A bit of a frame after SOF.
#[derive(Clone, Copy, Debug)]
pub struct FrameBit {
    /// Its number.
    pub bit: u32,
    /// The field that it belongs to.
    pub field: Field,
    /// Whether it is a stuff bit.
    pub stuff: bool,
}

impl FrameBit {
    ghost use Rattle.std.specs.Prelude.{◌≡◌};
    ghost use Rattle.text_frames.specs.FrameBits.{bit_after};
    ghost use Rattle.text_frames.specs.Passing.{bit_by};
    ghost use Rattle.text_frames.specs.FieldTexts.{is_of};

    /// A bit after this run of equal levels.
    pub(crate) fn after(run: Run, bit: &BitEvent) -> FrameBit
        ensures { result ≡ bit_after run bit.now }
    {
        FrameBit::of(run, bit.bit, Field::of(bit))
    }

    /// The bit of this field that has this number and comes after this run of equal levels.
    pub(crate) fn of(run: Run, number: u32, field: Field) -> FrameBit
        ensures { result ≡ bit_by run number field }
    {
        FrameBit {
            bit: number,
            field,
            stuff: field.is_stuffed() && run.is_full(),
        }
    }

    /// Whether it belongs to this field.
    pub fn is_of(&self, field: Field) -> bool
        ensures { result ≡ is_of field self.now }
    {
        self.field.is(field)
    }
}
