//! The place of a reader's next level.

use super::{RUN, Shift};
use crate::frame_part::FramePart;
use crate::index::place_after;
use can_levels::FramePlace;

impl Shift {
    ghost use Rattle.std.specs.Prelude.{List};
    ghost use Rattle.can_levels.specs.declared.level.Level.{Level as Bus};
    ghost use Rattle.can_levels.specs.FramePlaces.{IsNextPlace};
    ghost use Rattle.can_bits.specs.Inside.FrameParts.{ReadsAt};
    ghost use Rattle.can_bits.specs.Shifts.{StandsFor};
    ghost use Rattle.can_levels.specs.Streaming.{IsReadable};

    /// The place of the next level.
    pub fn next_place(&self) -> FramePlace
        ensures { (l : List Bus) → StandsFor self.now l → IsReadable l → IsNextPlace l result }
    {
        match self.frame_part {
            FramePart::Stuffed => self.place_inside(),
            FramePart::FixedForm(n) => place_after(n),
        }
    }

    /// The place of the next level of the stuffed part.
    fn place_inside(&self) -> FramePlace
        ensures { (l : List Bus) → ReadsAt FramePart.Stuffed self.now l → IsNextPlace l result }
    {
        if self.run == RUN {
            FramePlace::StuffBit(self.gathered.next_stuff_bit(self.count))
        } else {
            FramePlace::Plain(self.gathered.next_segment(), self.gathered.next_index())
        }
    }
}
