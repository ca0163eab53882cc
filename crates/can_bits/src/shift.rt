//! A reader that is given one level at a time.

use super::body_word::BodyWord;
use super::frame_part::FramePart;
use super::kept_frame::KeptFrame;
use super::place::segment_after;
use can_frame::Frame;
use can_levels::{Level, LineFault, Segment, ShiftEvent, ShiftFault};

mod acknowledged_line;
mod inside;
mod next_place;
mod past;
mod quick;
mod quick_past;
mod sending;

/// How many equal levels a stuff bit follows.
const RUN: u8 = 5;

/// How many levels a line has after its stuffed part.
const LINE_END: u8 = 10;

/// Which level after the stuffed part is the sixth bit of EOF, counted from 0.
const SIXTH_END_BIT: u8 = 8;

/// A reader of a line that is given one level at a time.
///
/// It keeps no list of levels: the body and the CRC sequence without stuff bits as one number, the CRC register, the
/// last run of equal levels, and the first fault (stuff, form or CRC error).
#[derive(Clone, Copy, Debug)]
pub struct Shift {
    /// How many levels have come, all right.
    count: u8,
    last: Level,
    /// How many levels like the last one end them.
    run: u8,
    gathered: BodyWord,
    frame_part: FramePart,
    /// What the first wrong level brought.
    wrong: Option<ShiftFault>,
}

impl Shift {
    ghost use Rattle.std.specs.Prelude.{◌≡◌, ◌<◌, ◌+◌, ◌↔◌, ◌==◌, Bool, IsTrue, true};
    ghost use Rattle.std.specs.Prelude.{length, ◌∷◌, ◌++◌, [], List, None, Some};
    ghost use Rattle.can_levels.specs.declared.level.Level.{Level as Bus};
    ghost use Rattle.can_levels.specs.Streaming.{Tells, TellsCheck, ShowsFrame, IsReadable, IsOver};
    ghost use Rattle.can_levels.specs.Segments.{IsNext};
    ghost use Rattle.can_levels.specs.Acknowledging.{IsAckDue};
    ghost use Rattle.can_levels.specs.Line.{StuffedPart};
    ghost use Rattle.can_frame.specs.Frame.{FrameValue};
    ghost use Rattle.can_bits.specs.Inside.FrameParts.{IsPast, is_stuff_next};
    ghost use Rattle.can_bits.specs.Shifts.{StandsFor};
    ghost use Rattle.can_levels.specs.Judgements.{JudgesAt};

    /// A reader that has been given no level.
    pub fn new() -> Shift
        ensures { StandsFor result [] }
    {
        Shift {
            count: 0,
            last: Level::Recessive,
            run: 0,
            gathered: BodyWord::new(),
            frame_part: FramePart::Stuffed,
            wrong: None,
        }
    }

    /// Takes the next level, and tells all of it.
    pub fn step(&mut self, level: Level) -> ShiftEvent
        ensures stands { (l : List Bus) → StandsFor self.old l → StandsFor self.new (l ++ level ∷ []) }
        ensures told { (l : List Bus) → StandsFor self.old l → Tells l level result }
    {
        match self.wrong {
            Some(wrong) => wrong.event(),
            None => {
                let stuff = self.is_stuff();
                let segment = self.segment_here();
                match self.advance(level) {
                    Some(wrong) => wrong.event(),
                    None => ShiftEvent {
                        segment,
                        stuff,
                        frame: self.frame(),
                        fault: None,
                    },
                }
            }
        }
    }

    /// Takes the next level, and answers what is wrong with it, if anything; after a wrong one that one again. It does
    /// less than [`step`](Shift::step).
    pub fn advance(&mut self, level: Level) -> Option<ShiftFault>
        ensures stands { (l : List Bus) → StandsFor self.old l → StandsFor self.new (l ++ level ∷ []) }
        ensures judged { (l : List Bus) → StandsFor self.old l → IsReadable l → JudgesAt l level result }
        ensures again { (l front later : List Bus) (y : Bus) → StandsFor self.old l → IsReadable front
            → ¬ IsReadable (front ++ y ∷ [])
            → l ≡ front ++ y ∷ later → JudgesAt front y result }
    {
        match self.wrong {
            Some(wrong) => Some(wrong),
            None => match self.frame_part {
                FramePart::Stuffed => self.advance_inside(level),
                FramePart::FixedForm(n) => self.advance_past(n, level),
            },
        }
    }

    /// The segment of the next level; a stuff bit belongs to that of the bit before it.
    pub fn next_segment(&self) -> Segment
        ensures { (l : List Bus) → StandsFor self.now l → IsReadable l → (stuff : Bool) × IsNext l result stuff }
    {
        self.segment_here()
    }

    /// The same, and whether the next level is a stuff bit as the reader's own fields say it.
    fn segment_here(&self) -> Segment
        ensures { (l : List Bus) → StandsFor self.now l → IsReadable l → IsNext l result (is_stuff_next self.now) }
    {
        match self.frame_part {
            FramePart::Stuffed => self.segment_inside(),
            FramePart::FixedForm(n) => segment_after(n),
        }
    }

    /// The frame, where the sixth bit of EOF came last.
    pub fn frame(&self) -> Option<Frame>
        ensures { (l : List Bus) → StandsFor self.now l → IsReadable l → ShowsFrame l result }
    {
        self.frame_or_kept(None)
    }

    /// The same. Where there is room for a frame, the kept one is given if it is of just these levels, and one that is
    /// built may be kept.
    pub fn frame_or_kept(&self, room: Option<&mut KeptFrame>) -> Option<Frame>
        ensures { (l : List Bus) → StandsFor self.now l → IsReadable l → ShowsFrame l result }
    {
        if self.is_past(SIXTH_END_BIT + 1) {
            self.gathered.frame_in(room)
        } else {
            None
        }
    }

    /// Whether the next level is a stuff bit.
    fn is_stuff(&self) -> bool
        ensures { result ≡ is_stuff_next self.now }
    {
        match self.frame_part {
            FramePart::Stuffed => self.run == RUN,
            FramePart::FixedForm(_) => false,
        }
    }

    /// Whether the CRC sequence is right, from the last level of the stuffed part on.
    pub fn crc_matches(&self) -> Option<bool>
        ensures { (l : List Bus) → StandsFor self.now l → TellsCheck l result }
    {
        match self.frame_part {
            FramePart::Stuffed => None,
            FramePart::FixedForm(_) => Some(self.gathered.check_is_right()),
        }
    }

    /// Whether the next level is the ACK slot of a line whose CRC sequence is right.
    pub fn ack_is_due(&self) -> bool
        ensures { (l : List Bus) → StandsFor self.now l → IsTrue result ↔ IsAckDue l }
    {
        if self.is_past(1) {
            self.gathered.check_is_right()
        } else {
            false
        }
    }

    /// Whether a whole line has come, and nothing after it.
    pub fn is_over(&self) -> bool
        ensures { (l : List Bus) → StandsFor self.now l → IsTrue result ↔ IsOver l }
    {
        self.is_past(LINE_END)
    }

    /// Whether all levels were right, and so many came after the stuffed part.
    fn is_past(&self, count: u8) -> bool
        ensures yes { (l : List Bus) → StandsFor self.now l → result ≡ true
            → IsPast count self.now.gathered self.now.count l }
        ensures only { (f : FrameValue) (l b c part after : List Bus) → StandsFor self.now l → IsReadable l
            → StuffedPart f b c part
            → l ≡ part ++ after → length after ≡ count → result ≡ true }
    {
        match self.wrong {
            Some(_) => false,
            None => match self.frame_part {
                FramePart::Stuffed => false,
                FramePart::FixedForm(n) => n == count,
            },
        }
    }

    /// Keeps a fault, and answers it.
    fn keep_fault(&mut self, segment: Segment, stuff: bool, fault: LineFault) -> ShiftFault
        ensures kept { self.new
            ≡ record self.old { wrong = Some (record { segment = segment; stuff = stuff; fault = fault }) } }
        ensures fault { result ≡ record { segment = segment; stuff = stuff; fault = fault } }
    {
        let wrong = ShiftFault {
            segment,
            stuff,
            fault,
        };
        self.wrong = Some(wrong);
        wrong
    }
}
