//! The quick way of a reader: a right level of the stuffed part, past SOF.

use super::{RUN, Shift};
use crate::frame_part::FramePart;
use can_levels::Level;

impl Shift {
    ghost use Rattle.std.specs.Prelude.{◌≡◌, ◌≢◌, ◌≤◌, ◌↔◌, ◌∷◌, ◌++◌, [], List, IsTrue, None, suc, true, false};
    ghost use Rattle.can_levels.specs.declared.level.Level.{Level as Bus};
    ghost use Rattle.can_levels.specs.Streaming.{IsReadable, IsRightInside, ShowsFrame, IsOver};
    ghost use Rattle.can_levels.specs.Acknowledging.{IsAckDue};
    ghost use Rattle.can_bits.specs.Sending.{place_of};
    ghost use Rattle.can_bits.specs.Shifts.{StandsFor};

    /// Takes the next level where it is right and belongs to the stuffed part, past SOF. Answers whether it did: then
    /// there is nothing to tell of it, no fault and no frame, and the line isn't over, nor is an ACK due. Else the
    /// reader is what it was (this project's own rule).
    #[inline(always)]
    pub fn take_inside(&mut self, level: Level) -> bool
        ensures exactly { (l : List Bus) → StandsFor self.old l → IsTrue result ↔ IsRightInside l level }
        ensures takes { result ≡ true → (l : List Bus) → StandsFor self.old l → StandsFor self.new (l ++ level ∷ []) }
        ensures inside { result ≡ true → (l : List Bus) → StandsFor self.old l → IsReadable (l ++ level ∷ [])
            × ShowsFrame (l ++ level ∷ []) None × (¬ IsOver (l ++ level ∷ [])) × ¬ IsAckDue (l ++ level ∷ []) }
        ensures near { place_of self.new ≤ suc (place_of self.old) }
        ensures same { result ≡ false → self.new ≡ self.old }
    {
        if self.is_right_inside(level) {
            self.take_right(level);
            true
        } else {
            false
        }
    }

    /// Whether both readers are the same, in the stuffed part, where all levels so far were right (this project's own
    /// rule).
    #[inline(always)]
    pub fn is_same_inside(&self, other: &Shift) -> bool
        ensures same { result ≡ true → self.now ≡ other.now }
        ensures only { (l : List Bus) (level : Bus) → StandsFor self.now l → IsRightInside l level
            → self.now ≡ other.now → result ≡ true }
    {
        self.is_inside()
            && other.is_inside()
            && self.count == other.count
            && self.last == other.last
            && self.run == other.run
            && self.gathered.is_same(&other.gathered)
    }

    /// Whether the reader is in the stuffed part, where all levels so far were right.
    #[inline(always)]
    pub(super) fn is_inside(&self) -> bool
        ensures no_fault { result ≡ true → self.now.wrong ≡ None }
        ensures in_part { result ≡ true → self.now.frame_part ≡ FramePart.Stuffed }
        ensures fields { self.now.wrong ≡ None → self.now.frame_part ≡ FramePart.Stuffed → result ≡ true }
        ensures only { (l : List Bus) (level : Bus) → StandsFor self.now l → IsRightInside l level → result ≡ true }
    {
        match self.wrong {
            Some(_) => false,
            None => match self.frame_part {
                FramePart::Stuffed => true,
                FramePart::FixedForm(_) => false,
            },
        }
    }

    /// Whether the reader is in the stuffed part, past SOF, and this level is right there.
    #[inline(always)]
    fn is_right_inside(&self, level: Level) -> bool
        ensures no_fault { result ≡ true → self.now.wrong ≡ None }
        ensures in_part { result ≡ true → self.now.frame_part ≡ FramePart.Stuffed }
        ensures begun { result ≡ true → self.now.count ≢ 0 }
        ensures differs { result ≡ true → self.now.run ≡ 5 → level ≢ self.now.last }
        ensures only { (l : List Bus) → StandsFor self.now l → IsRightInside l level → result ≡ true }
    {
        match self.wrong {
            Some(_) => false,
            None => match self.frame_part {
                FramePart::Stuffed => self.count != 0 && (self.run != RUN || level != self.last),
                FramePart::FixedForm(_) => false,
            },
        }
    }
}
