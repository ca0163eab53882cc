//! A reader in the stuffed part.

use super::{RUN, Shift};
use crate::frame_part::FramePart;
use crate::run::run_after;
use can_levels::{Level, LineFault, Segment, ShiftFault};

impl Shift {
    ghost use Rattle.std.specs.Prelude.{◌≡◌, ◌≢◌, ◌⊎◌, ◌<◌, ◌≤◌, ◌==◌, suc, length, ◌∷◌, ◌++◌, [], List, None, IfSome};
    ghost use Rattle.can_levels.specs.declared.level.Level.{Level as Bus};
    ghost use Rattle.can_levels.specs.Streaming.{BreaksWith};
    ghost use Rattle.can_levels.specs.Segments.{IsNext};
    ghost use Rattle.can_levels.specs.PartSoFar.{IsPartSoFar};
    ghost use Rattle.can_bits.specs.Inside.FrameParts.{ReadsAt};
    ghost use Rattle.can_bits.specs.Shifts.{StandsFor};
    ghost use Rattle.can_levels.specs.Judgements.{JudgesAt};
    ghost use Rattle.can_bits.specs.Inside.Gathering.{Gathers};
    ghost use Rattle.can_bits.specs.Sending.{place_of};
    ghost use Rattle.can_levels.specs.Fields.{says_count};

    /// Takes a level of the stuffed part.
    pub(super) fn advance_inside(&mut self, level: Level) -> Option<ShiftFault>
        requires right { self.old.wrong ≡ None }
        requires inside { self.old.frame_part ≡ FramePart.Stuffed }
        ensures stands { (l : List Bus) → ReadsAt FramePart.Stuffed self.old l → StandsFor self.new (l ++ level ∷ []) }
        ensures judged { (l : List Bus) → ReadsAt FramePart.Stuffed self.old l → JudgesAt l level result }
    {
        match self.fault_inside(level) {
            Some(fault) => {
                let stuff = self.run == RUN;
                let segment = self.segment_inside();
                Some(self.keep_fault(segment, stuff, fault))
            }
            None => {
                self.take_right(level);
                None
            }
        }
    }

    /// The segment of the next level of the stuffed part; a stuff bit belongs to that of the bit before it.
    pub(super) fn segment_inside(&self) -> Segment
        ensures { (l : List Bus) → ReadsAt FramePart.Stuffed self.now l → IsNext l result (self.now.run == 5) }
    {
        if self.run == RUN {
            self.gathered.last_segment()
        } else {
            self.gathered.next_segment()
        }
    }

    /// What is wrong with a level of the stuffed part.
    fn fault_inside(&self, level: Level) -> Option<LineFault>
        ensures broken { (l : List Bus) → ReadsAt FramePart.Stuffed self.now l → IfSome result (BreaksWith l level) }
        ensures begins { result ≡ None → self.now.count ≡ 0 → level ≡ Level.Dominant }
        ensures differs { result ≡ None → self.now.run ≡ 5 → level ≢ self.now.last }
    {
        if self.count == 0 && level.is_recessive() {
            Some(LineFault::Form(0))
        } else if self.run == RUN && level == self.last {
            Some(LineFault::Stuff(usize::from(self.count)))
        } else {
            None
        }
    }

    /// Takes a level of the stuffed part that is right.
    #[inline(always)]
    pub(super) fn take_right(&mut self, level: Level)
        requires { self.old.frame_part ≡ FramePart.Stuffed }
        ensures kept { self.new.wrong ≡ self.old.wrong }
        ensures early { (self.new.frame_part ≡ FramePart.Stuffed) ⊎ (self.new.frame_part ≡ FramePart.FixedForm 0) }
        ensures near { place_of self.new ≤ suc (place_of self.old) }
        ensures stands { (l : List Bus) → ReadsAt FramePart.Stuffed self.old l
            → (self.old.count ≡ 0 → level ≡ Level.Dominant)
            → (self.old.run ≡ 5 → level ≢ self.old.last) → ReadsAt self.new.frame_part self.new (l ++ level ∷ []) }
    {
        self.gather_unless_stuff(level);
        self.count = self.count.wrapping_add(1);
        self.run = run_after(self.run, self.last, level);
        self.last = level;
        if self.gathered.is_whole() {
            self.end_part_unless_stuff();
        }
    }

    /// Gathers a level that is no stuff bit.
    #[inline(always)]
    fn gather_unless_stuff(&mut self, level: Level)
        ensures kept { self.new ≡ record self.old { gathered = self.new.gathered } }
        ensures bit { (w : List Bus) → Gathers self.old.gathered w → length w < 118 → self.old.run ≢ 5
            → Gathers self.new.gathered (w ++ level ∷ []) }
        ensures stuff_bit { self.old.run ≡ 5 → self.new.gathered ≡ self.old.gathered }
        ensures near { place_of self.new ≤ suc (place_of self.old) }
    {
        if self.run != RUN {
            self.gathered.push(level);
        }
    }

    /// Ends the stuffed part, unless a stuff bit is due.
    #[cold]
    #[inline(never)]
    fn end_part_unless_stuff(&mut self)
        requires { self.old.frame_part ≡ FramePart.Stuffed }
        ensures kept { self.new ≡ record self.old { frame_part = self.new.frame_part } }
        ensures early { (self.new.frame_part ≡ FramePart.Stuffed) ⊎ (self.new.frame_part ≡ FramePart.FixedForm 0) }
        ensures stands { (l w : List Bus) → IsPartSoFar l w self.old.last self.old.run → Gathers self.old.gathered w
            → self.old.count ≡ length l → length w ≡ says_count w → ReadsAt self.new.frame_part self.old l }
    {
        if self.run != RUN {
            self.frame_part = FramePart::FixedForm(0);
        }
    }
}
