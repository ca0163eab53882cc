//! A reader of a line that has to be acknowledged.

use super::{LINE_END, Shift};
use can_frame::Frame;
use can_levels::{Level, LineFault};

impl Shift {
    ghost use Rattle.std.specs.Prelude.{◌∷◌, ◌++◌, [], List, OnOk, IfErr};
    ghost use Rattle.can_levels.specs.declared.level.Level.{Level as Bus};
    ghost use Rattle.can_levels.specs.Reading.{IsFaultless, IsFirstFault};
    ghost use Rattle.can_levels.specs.Streaming.{IsReadable, ShowsFrameBut};
    ghost use Rattle.can_bits.specs.Shifts.{StandsFor};

    /// Takes the next level of a line that has to be acknowledged, or answers the first fault of the levels: what
    /// [`advance`](Shift::advance) finds, but a wrong CRC sequence with its delimiter, and a recessive ACK slot.
    #[inline(always)]
    pub fn take_answered(&mut self, level: Level) -> Result<(), LineFault>
        ensures stands { (l : List Bus) → StandsFor self.old l → StandsFor self.new (l ++ level ∷ []) }
        ensures good { OnOk result ((l : List Bus) → StandsFor self.old l → IsFaultless l
            → IsFaultless (l ++ level ∷ [])) }
        ensures fault { IfErr result (λ e. (l later : List Bus) → StandsFor self.old l → IsFaultless l
            → IsFirstFault (l ++ level ∷ later) e) }
    {
        if self.take_inside(level) {
            Ok(())
        } else {
            self.advance_answered(level)
        }
    }

    /// The same, for any level.
    fn advance_answered(&mut self, level: Level) -> Result<(), LineFault>
        ensures stands { (l : List Bus) → StandsFor self.old l → StandsFor self.new (l ++ level ∷ []) }
        ensures good { OnOk result ((l : List Bus) → StandsFor self.old l → IsFaultless l
            → IsFaultless (l ++ level ∷ [])) }
        ensures fault { IfErr result (λ e. (l later : List Bus) → StandsFor self.old l → IsFaultless l
            → IsFirstFault (l ++ level ∷ later) e) }
    {
        match self.advance(level) {
            Some(wrong) => Err(wrong.fault),
            None => self.judge_answered(level),
        }
    }

    /// Judges the CRC sequence where the CRC delimiter came last, and this level where it came last in the ACK slot.
    fn judge_answered(&self, level: Level) -> Result<(), LineFault>
        ensures good { OnOk result ((l : List Bus) → StandsFor self.now (l ++ level ∷ []) → IsReadable (l ++ level ∷ [])
            → IsFaultless l → IsFaultless (l ++ level ∷ [])) }
        ensures fault { IfErr result (λ e. (l later : List Bus) → StandsFor self.now (l ++ level ∷ [])
            → IsReadable (l ++ level ∷ []) → IsFaultless l → IsFirstFault (l ++ level ∷ later) e) }
    {
        if self.is_past(1) {
            if self.gathered.check_is_right() {
                Ok(())
            } else {
                Err(LineFault::Crc)
            }
        } else if self.is_past(2) && level.is_recessive() {
            Err(LineFault::NoAck)
        } else {
            Ok(())
        }
    }

    /// The frame, where a whole line has come and nothing after it.
    pub fn frame_of_line(&self) -> Option<Frame>
        ensures { (l : List Bus) → StandsFor self.now l → IsReadable l → ShowsFrameBut 0 l result }
    {
        if self.is_past(LINE_END) {
            self.gathered.frame()
        } else {
            None
        }
    }
}
