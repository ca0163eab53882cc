//! The quick way of a reader: a right level after the stuffed part, before the last one of the line.

use super::{LINE_END, SIXTH_END_BIT, Shift};
use crate::frame_part::FramePart;
use can_levels::Level;

impl Shift {
    ghost use Rattle.std.specs.Prelude.{◌≡◌, ◌↔◌, ◌∷◌, ◌++◌, [], List, IsTrue, None, true, false};
    ghost use Rattle.can_frame.specs.Frame.{FrameValue};
    ghost use Rattle.can_levels.specs.declared.level.Level.{Level as Bus};
    ghost use Rattle.can_levels.specs.Streaming.{IsReadable, IsRightPast, IsLineButFor};
    ghost use Rattle.can_bits.specs.Inside.FrameParts.{ReadsAt};
    ghost use Rattle.can_bits.specs.Shifts.{StandsFor};

    /// Takes the next level where it is right and stands after the stuffed part, before the last one of the line.
    /// Answers whether it did; else the reader is what it was (this project's own rule).
    #[inline(always)]
    pub fn take_past(&mut self, level: Level) -> bool
        ensures exactly { (l : List Bus) → StandsFor self.old l → IsTrue result ↔ IsRightPast l level }
        ensures takes { result ≡ true → (l : List Bus) → StandsFor self.old l → StandsFor self.new (l ++ level ∷ []) }
        ensures same { result ≡ false → self.new ≡ self.old }
    {
        match self.wrong {
            Some(_) => false,
            None => match self.frame_part {
                FramePart::Stuffed => false,
                FramePart::FixedForm(n) => self.take_fixed(n, level),
            },
        }
    }

    /// The same for a level after the stuffed part, of which n have come before.
    #[inline(always)]
    fn take_fixed(&mut self, n: u8, level: Level) -> bool
        requires right { self.old.wrong ≡ None }
        ensures exactly { (l : List Bus) → ReadsAt (FramePart.FixedForm n) self.old l
            → IsTrue result ↔ IsRightPast l level }
        ensures takes { result ≡ true → (l : List Bus) → ReadsAt (FramePart.FixedForm n) self.old l
            → StandsFor self.new (l ++ level ∷ []) }
        ensures same { result ≡ false → self.new ≡ self.old }
    {
        match self.fault_past(n, level) {
            Some(_) => false,
            None => {
                if n == LINE_END - 1 {
                    false
                } else {
                    self.count_past(n);
                    true
                }
            }
        }
    }

    /// Whether the next level, where it is right, is the sixth bit of EOF, with which a frame comes.
    #[inline(always)]
    pub fn frame_is_next(&self) -> bool
        ensures { (l : List Bus) (level : Bus) → StandsFor self.now l → IsReadable (l ++ level ∷ [])
            → IsTrue result ↔ ((f : FrameValue) × IsLineButFor 1 f (l ++ level ∷ [])) }
    {
        self.is_past(SIXTH_END_BIT)
    }
}
