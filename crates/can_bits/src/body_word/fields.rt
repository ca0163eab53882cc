//! The fields of a frame, read off the word of its levels.

use super::BodyWord;
use crate::layout::{CRC_LEVELS, IDE_PLACE, MOST_BYTES, data_place, rtr_place};
use arrayvec::ArrayVec;
use can_frame::{DATA_BYTES, Frame};
use can_levels::Level;

impl BodyWord {
    ghost use Rattle.std.specs.Prelude.{◌≡◌, ◌≤◌, ◌<◌, ◌+◌, ◌*◌, ◌^◌, List, length, slice_range, Some, All};
    ghost use Rattle.std.specs.List.{flat_map};
    ghost use Rattle.can_frame.specs.Frame.{FrameValue};
    ghost use Rattle.can_levels.specs.declared.level.Level.{Level as Bus};
    ghost use Rattle.can_levels.specs.Digits.{bits, value};
    ghost use Rattle.can_levels.specs.Fields.{level_at, says_ext, says_rtr, says_dlc, says_count, dlc_place};
    ghost use Rattle.can_levels.specs.DataBits.{says_id, says_bytes, data_place, data_levels, IsWhole};
    ghost use Rattle.can_levels.specs.Spelling.{Spells};
    ghost use Rattle.can_bits.specs.Packing.{Packs};
    ghost use Rattle.can_bits.specs.Inside.Gathering.{Gathers};

    /// The frame, once all levels have come.
    #[inline(never)]
    pub(crate) fn frame(&self) -> Option<Frame>
        ensures { (f : FrameValue) (w b c : List Bus) → Gathers self.now w → Spells f b c w → result ≡ Some f }
    {
        let data = self.data_bytes();
        match Frame::new(
            self.ext(),
            self.id(),
            self.rtr(),
            self.dlc(),
            data.as_slice(),
        ) {
            Ok(frame) => Some(frame),
            Err(_) => None,
        }
    }

    /// How many levels the body and its CRC sequence have, once the DLC has come.
    pub(super) fn level_count(&self) -> u8
        ensures { (w : List Bus) → Packs self.now.word self.now.place w → data_place w ≤ length w
            → result ≡ says_count w }
    {
        self.head_end() + 8 * self.data_count() + CRC_LEVELS
    }

    /// Where the DLC ends.
    pub(super) fn head_end(&self) -> u8
        ensures value { (w : List Bus) → Packs self.now.word self.now.place w → result ≡ data_place w }
        ensures least { 19 ≤ result }
        ensures most { result ≤ 39 }
    {
        data_place(self.ext())
    }

    /// Whether the frame is an extended one: IDE.
    pub(super) fn ext(&self) -> bool
        ensures { (w : List Bus) → Packs self.now.word self.now.place w → result ≡ says_ext w }
    {
        self.level_at(IDE_PLACE).is_recessive()
    }

    /// Whether the frame is a remote frame: RTR.
    fn rtr(&self) -> bool
        ensures { (w : List Bus) → Packs self.now.word self.now.place w → result ≡ says_rtr w }
    {
        self.level_at(rtr_place(self.ext())).is_recessive()
    }

    /// The DLC, once it has come.
    fn dlc(&self) -> u8
        ensures value { (w : List Bus) → Packs self.now.word self.now.place w → data_place w ≤ length w
            → result ≡ says_dlc w }
        ensures fits { result < 16 }
    {
        self.number_at(self.head_end() - 4, 4) as u8
    }

    /// The identifier, once it has come.
    fn id(&self) -> u32
        ensures { (w : List Bus) → Packs self.now.word self.now.place w → dlc_place (says_ext w) ≤ length w
            → result ≡ says_id w }
    {
        let high = self.number_at(1, 11);
        if self.ext() {
            (high << 18) + self.number_at(14, 18)
        } else {
            high
        }
    }

    /// How many data bytes there are, once the DLC has come.
    fn data_count(&self) -> u8
        ensures value { (w : List Bus) → Packs self.now.word self.now.place w → data_place w ≤ length w
            → result ≡ says_bytes w }
        ensures most { result ≤ 8 }
    {
        if self.rtr() {
            0
        } else {
            self.dlc().min(MOST_BYTES)
        }
    }

    /// The data bytes, once all levels have come.
    fn data_bytes(&self) -> ArrayVec<u8, DATA_BYTES>
        ensures value { (w : List Bus) → Packs self.now.word self.now.place w → IsWhole w
            → flat_map (bits 8) result.items ≡ data_levels w }
        ensures count { (w : List Bus) → Packs self.now.word self.now.place w → IsWhole w
            → length result.items ≡ says_bytes w }
        ensures small { All (λ byte. byte < 256) result.items }
    {
        let first = self.head_end();
        let mut bytes = ArrayVec::new();
        for k in 0..self.data_count() {
            bytes.push(self.number_at(first + 8 * k, 8) as u8);
        }
        bytes
    }

    /// The level at a place; one that hasn't come yet counts as dominant.
    fn level_at(&self, place: u8) -> Level
        ensures { (w : List Bus) → Packs self.now.word self.now.place w → result ≡ level_at w place }
    {
        if place < self.place {
            Level::of((self.word >> ((self.place - 1 - place) % 128)) % 2 == 1)
        } else {
            Level::Dominant
        }
    }

    /// The number that `count` levels write from a place on, once they have come.
    fn number_at(&self, from: u8, count: u8) -> u32
        requires few { count ≤ 18 }
        requires within { from ≤ 128 }
        ensures value { (w : List Bus) → Packs self.now.word self.now.place w → from + count ≤ length w
            → result ≡ value (slice_range w from (from + count)) }
        ensures fits { result < 2 ^ count }
    {
        let below = self.place.saturating_sub(from + count) % 128;
        ((self.word >> below) % (1 << count)) as u32
    }
}
