//! A reader past the stuffed part.

use super::{LINE_END, Shift};
use crate::frame_part::FramePart;
use crate::place::segment_after;
use can_levels::{Level, LineFault, ShiftFault};

impl Shift {
    ghost use Rattle.std.specs.Prelude.{◌≡◌, ◌+◌, ◌∷◌, ◌++◌, [], List, None, IfSome};
    ghost use Rattle.can_levels.specs.declared.level.Level.{Level as Bus};
    ghost use Rattle.can_levels.specs.Streaming.{BreaksWith};
    ghost use Rattle.can_bits.specs.Inside.FrameParts.{ReadsAt, IsPast};
    ghost use Rattle.can_bits.specs.Shifts.{StandsFor};
    ghost use Rattle.can_levels.specs.Judgements.{JudgesAt};

    /// Takes a level after the stuffed part, of which n have come before.
    pub(super) fn advance_past(&mut self, n: u8, level: Level) -> Option<ShiftFault>
        requires right { self.old.wrong ≡ None }
        requires past { self.old.frame_part ≡ FramePart.FixedForm n }
        ensures stands { (l : List Bus) → ReadsAt (FramePart.FixedForm n) self.old l
            → StandsFor self.new (l ++ level ∷ []) }
        ensures judged { (l : List Bus) → ReadsAt (FramePart.FixedForm n) self.old l → JudgesAt l level result }
    {
        match self.fault_past(n, level) {
            Some(fault) => Some(self.keep_fault(segment_after(n), false, fault)),
            None => {
                self.count_past(n);
                None
            }
        }
    }

    /// Counts a right level after the stuffed part, of which n have come before.
    #[inline(always)]
    pub(super) fn count_past(&mut self, n: u8)
        requires { self.old.wrong ≡ None }
        ensures { (l : List Bus) → IsPast (n + 1) self.old.gathered (self.old.count + 1) l
            → StandsFor self.new l }
    {
        self.count = self.count.wrapping_add(1);
        self.frame_part = FramePart::FixedForm(n.wrapping_add(1));
    }

    /// What is wrong with a level after the stuffed part, of which n have come before.
    #[inline(always)]
    pub(super) fn fault_past(&self, n: u8, level: Level) -> Option<LineFault>
        ensures broken { (l : List Bus) → ReadsAt (FramePart.FixedForm n) self.now l
            → IfSome result (BreaksWith l level) }
        ensures goes_on { (l : List Bus) → ReadsAt (FramePart.FixedForm n) self.now l → result ≡ None
            → IsPast (n + 1) self.now.gathered (self.now.count + 1) (l ++ level ∷ []) }
    {
        let at = usize::from(self.count);
        if n >= LINE_END {
            Some(LineFault::Trailing(at))
        } else if n == 1 {
            None
        } else if !level.is_recessive() {
            Some(LineFault::Form(at))
        } else if n == 2 && !self.gathered.check_is_right() {
            Some(LineFault::Crc)
        } else {
            None
        }
    }
}
