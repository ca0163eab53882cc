//! What a transmitter asks its reader of the next level.

use super::{RUN, Shift};
use crate::frame_part::FramePart;
use crate::run::run_after;
use crate::sent_body::SentBody;
use can_levels::Level;

/// The highest of 64 binary digits.
const HIGHEST: u64 = 1 << 63;

impl Shift {
    ghost use Rattle.std.specs.Prelude.{◌≡◌, ◌≢◌, ◌≤◌, ◌<◌, ◌+◌, ◌⊎◌, ◌∷◌, ◌++◌, List, length, take, drop, slice_range};
    ghost use Rattle.std.specs.Prelude.{true, None, ℕ};
    ghost use Rattle.can_levels.specs.declared.level.Level.{Level as Bus};
    ghost use Rattle.can_frame.specs.Frame.{FrameValue};
    ghost use Rattle.can_levels.specs.Streaming.{IsReadable};
    ghost use Rattle.can_levels.specs.Body.{sent_body};
    ghost use Rattle.can_levels.specs.Check.{Crc};
    ghost use Rattle.can_levels.specs.Line.{StuffedPart, tail};
    ghost use Rattle.can_bits.specs.Packing.{IsSentBody};
    ghost use Rattle.can_levels.specs.Places.{place_code, is_early_stuff};
    ghost use Rattle.can_bits.specs.Sending.{AgreeFor, BothHave, IsPastSof, SendsAlong, next_level, place_of};
    ghost use Rattle.can_bits.specs.Sending.{plain_end};
    ghost use Rattle.can_bits.specs.Shifts.{StandsFor};

    /// The next level of the line that a transmitter of this packed body sends, where the levels so far are a front of
    /// that line, but for the ACK slot (Bosch CAN 2.0 part A sections 3.1.1 and 5).
    #[inline(always)]
    pub fn next_of(&self, body: &SentBody) -> Level
        ensures of_frame { (f : FrameValue) (l others c part before rest : List Bus) (x ack : Bus)
            → IsSentBody body.now f → StandsFor self.now l
            → StuffedPart f (sent_body f) c part → Crc (sent_body f) c → part ++ tail ack ≡ l ++ others
            → part ++ tail Bus.Recessive ≡ before ++ x ∷ rest → length before ≡ length l → result ≡ x }
        ensures packed { result ≡ next_level self.now body.now }
    {
        match self.frame_part {
            FramePart::Stuffed => {
                if self.run == RUN {
                    self.last.opposite()
                } else {
                    self.gathered.next_of(body)
                }
            }
            FramePart::FixedForm(_) => Level::Recessive,
        }
    }

    /// At how many places from the next one on the bodies of two transmitters have the same levels, and at all that are
    /// gathered, so that for so many levels, or more with stuff bits, both send the same at this reader. 0 where they
    /// don't agree so far, and where 128 binary digits don't have all of one of them, which is so of no frame's.
    pub fn agreement(&self, one: &SentBody, other: &SentBody) -> u8
        ensures same { 0 < result → AgreeFor (place_of self.now + result) one.now other.now }
        ensures within { 0 < result → BothHave (place_of self.now + result) one.now other.now }
        ensures most { (n : ℕ) → BothHave n one.now other.now → AgreeFor n one.now other.now
            → n ≤ place_of self.now + result }
    {
        self.gathered.agreement(one, other)
    }

    /// Whether the reader is in the stuffed part, past SOF, where all levels so far were right.
    #[inline(always)]
    fn is_past_sof(&self) -> bool
        ensures no_fault { result ≡ true → self.now.wrong ≡ None }
        ensures in_part { result ≡ true → self.now.frame_part ≡ FramePart.Stuffed }
        ensures begun { result ≡ true → self.now.run ≢ 0 }
        ensures most { result ≡ true → self.now.run ≤ 5 }
        ensures only { IsPastSof self.now → result ≡ true }
    {
        self.is_inside() && self.run > 0 && self.run <= RUN
    }

    /// Takes levels that a transmitter of this body sends next, and writes them from a place of the list on. Answers
    /// where the rest of the list begins. It takes them until the list is full, or the next one is left to
    /// [`take_inside`](Shift::take_inside): one with which more is known of the length, the last of the body and all
    /// past it, and one that the next 64 levels of the body don't have. None is taken where the place is past the list,
    /// and where the reader isn't in the stuffed part past SOF.
    #[inline(always)]
    pub fn send_along(&mut self, body: &SentBody, levels: &mut [Level], from: usize) -> usize
        ensures more { from ≤ result }
        ensures few { from ≤ length levels.old → result ≤ length levels.old }
        ensures count { length levels.new ≡ length levels.old }
        ensures front { take from levels.new ≡ take from levels.old }
        ensures rest { drop result levels.new ≡ drop result levels.old }
        ensures sends { SendsAlong body.now self.old (slice_range levels.new from result) self.new }
        ensures most { IsPastSof self.old → from ≤ length levels.old
            → (result ≡ length levels.old) ⊎ (plain_end self.old.gathered body.now ≤ place_of self.new) }
    {
        let end = self.gathered.plain_end(body);
        if !self.gathered.is_before(end) || !self.is_past_sof() {
            return from;
        }
        let mut shift = *self;
        let mut digits = shift.gathered.digits_of(body);
        let mut place = from;
        while shift.gathered.is_before(end) && place < levels.len() {
            let level = if shift.run == RUN {
                shift.last.opposite()
            } else {
                let level = Level::of(digits >> 63 == 1);
                digits = 2 * (digits % HIGHEST);
                shift.gathered.push_before_mark(level);
                level
            };
            shift.run = run_after(shift.run, shift.last, level);
            shift.last = level;
            levels[place] = level;
            place += 1;
        }
        shift.count = shift.count.wrapping_add(((place - from) % 256) as u8);
        *self = shift;
        place
    }

    /// The place code of the next level, where a transmitter of that format may lose arbitration there: 0 for the first
    /// bit of the identifier, and so on to RTR (SJA1000 data sheet, 6.4.8). A stuff bit has none.
    pub fn place_code(&self, ext: bool) -> Option<u8>
        ensures { (l : List Bus) → StandsFor self.now l → IsReadable l → result ≡ place_code ext l }
    {
        match self.frame_part {
            FramePart::Stuffed => {
                if self.run == RUN {
                    None
                } else {
                    self.gathered.place_code(ext)
                }
            }
            FramePart::FixedForm(_) => None,
        }
    }

    /// Whether the next level is a stuff bit before RTR of that format.
    pub fn is_early_stuff(&self, ext: bool) -> bool
        ensures { (l : List Bus) → StandsFor self.now l → IsReadable l → result ≡ is_early_stuff ext l }
    {
        match self.frame_part {
            FramePart::Stuffed => self.run == RUN && self.gathered.is_early(ext),
            FramePart::FixedForm(_) => false,
        }
    }
}
