//! What the next level of a body and its CRC sequence is.

use super::BodyWord;
use crate::index::index_of;
use crate::layout::rtr_place;
use crate::place::segment_of;
use crate::sent_body::SentBody;
use can_levels::{Level, Segment};

impl BodyWord {
    ghost use Rattle.std.specs.Prelude.{◌≡◌, ◌≤◌, ◌<◌, ◌+◌, ◌-◌, ◌/◌, ◌%◌, ◌^◌, ◌==◌, ◌⊎◌, ◌&&◌, ◌∷◌, ◌++◌};
    ghost use Rattle.std.specs.Prelude.{ℕ, List, length, Some, None, nat_lt, nat_le, if◌then◌else◌};
    ghost use Rattle.can_levels.specs.declared.level.Level.{Level as Bus};
    ghost use Rattle.can_levels.specs.Check.{Crc};
    ghost use Rattle.can_levels.specs.Body.{sent_body};
    ghost use Rattle.can_levels.specs.Fields.{rtr_place};
    ghost use Rattle.can_levels.specs.FramePlaces.{index_at};
    ghost use Rattle.can_levels.specs.Segments.{segment_at};
    ghost use Rattle.can_frame.specs.Frame.{FrameValue};
    ghost use Rattle.can_levels.specs.Digits.{level_of};
    ghost use Rattle.can_bits.specs.Packing.{IsSentBody};
    ghost use Rattle.can_bits.specs.Sending.{AgreeFor, BothHave, or_crc, packed_level, plain_end};
    ghost use Rattle.can_bits.specs.Inside.Gathering.{Gathers};

    /// The segment of the next level.
    pub(crate) fn next_segment(&self) -> Segment
        ensures { (w : List Bus) → Gathers self.now w → result ≡ segment_at w (length w) }
    {
        segment_of(self.ext(), self.mark, self.place)
    }

    /// The segment of the last level.
    pub(crate) fn last_segment(&self) -> Segment
        ensures { (w : List Bus) → Gathers self.now w → result ≡ segment_at w (length w - 1) }
    {
        segment_of(self.ext(), self.mark, self.place.saturating_sub(1))
    }

    /// How many levels of its segment stand before the next level.
    pub(crate) fn next_index(&self) -> u8
        ensures { (w : List Bus) → Gathers self.now w → result ≡ index_at w (length w) }
    {
        index_of(self.ext(), self.mark, self.place)
    }

    /// Of so many levels, stuff bits counted, the number of the next stuff bit.
    pub(crate) fn next_stuff_bit(&self, count: u8) -> u16
        ensures { (w : List Bus) → Gathers self.now w → result ≡ count - length w + 1 }
    {
        u16::from(count.saturating_sub(self.place)) + 1
    }

    /// Whether the next level isn't past RTR of that format.
    pub(crate) fn is_early(&self, ext: bool) -> bool
        ensures { (w : List Bus) → Gathers self.now w → result ≡ nat_le (length w) (rtr_place ext) }
    {
        self.place <= rtr_place(ext)
    }

    /// The place code of the next level.
    pub(crate) fn place_code(&self, ext: bool) -> Option<u8>
        ensures { (w : List Bus) → Gathers self.now w
            → result ≡ (if nat_lt 0 (length w) && nat_le (length w) (rtr_place ext) then Some (length w - 1)
            else None) }
    {
        if self.is_early(ext) {
            self.place.checked_sub(1)
        } else {
            None
        }
    }

    /// The next level of the body that a transmitter sends, or of its CRC sequence, where its body is given packed.
    #[inline(always)]
    pub(crate) fn next_of(&self, body: &SentBody) -> Level
        ensures of_frame { (f : FrameValue) (w c t : List Bus) (x : Bus) → IsSentBody body.now f → Gathers self.now w
            → Crc (sent_body f) c
            → sent_body f ++ c ≡ w ++ x ∷ t → result ≡ x }
        ensures packed { result ≡ or_crc (packed_level body.now self.now.place) self.now }
    {
        match body.level(self.place) {
            Some(level) => level,
            None => self.next_of_crc(),
        }
    }

    /// At how many places from the next one on both bodies have the same levels, and at all before; 0 where they don't.
    pub(crate) fn agreement(&self, one: &SentBody, other: &SentBody) -> u8
        ensures same { 0 < result → AgreeFor (self.now.place + result) one.now other.now }
        ensures within { 0 < result → BothHave (self.now.place + result) one.now other.now }
        ensures most { (n : ℕ) → BothHave n one.now other.now → AgreeFor n one.now other.now
            → n ≤ self.now.place + result }
    {
        one.agreement(other).saturating_sub(self.place)
    }

    /// Up to which place the levels of a body can be gathered with no mark reached, from the next one on and as far as
    /// 64 digits have them.
    #[inline(always)]
    pub(crate) fn plain_end(&self, body: &SentBody) -> u8
        ensures mark { result < self.now.mark ⊎ (result ≡ 0) }
        ensures length { result < body.now.length ⊎ (result ≡ 0) }
        ensures fits { body.now.length ≤ 128 ⊎ (result ≡ 0) }
        ensures near { result ≤ self.now.place + 64 }
        ensures exact { result ≡ plain_end self.now body.now }
    {
        self.mark
            .min(body.len())
            .saturating_sub(1)
            .min(self.place.saturating_add(64))
    }

    /// The levels of a body from the next one on as far as 64 binary digits have them, the next level the highest.
    #[inline(always)]
    pub(crate) fn digits_of(&self, body: &SentBody) -> u64
        ensures { (k : ℕ) → k < 64 → self.now.place + k < body.now.length → body.now.length ≤ 128
            → packed_level body.now (self.now.place + k) ≡ Some (level_of (result / 2 ^ (63 - k) % 2 == 1)) }
    {
        body.digits_from(self.place)
    }

    /// Whether the next level stands before this place.
    #[inline(always)]
    pub(crate) fn is_before(&self, place: u8) -> bool
        ensures { result ≡ nat_lt self.now.place place }
    {
        self.place < place
    }

    /// The next level of a right CRC sequence, once the body has come: the highest digit of the register.
    #[inline(always)]
    fn next_of_crc(&self) -> Level
        ensures packed { result ≡ level_of (self.now.register / 2 ^ 14 == 1) }
        ensures of_frame { (b c w t : List Bus) (x : Bus) → Gathers self.now w → Crc b c → b ++ c ≡ w ++ x ∷ t
            → length b ≤ length w → result ≡ x }
    {
        Level::of(self.register >> 14 == 1)
    }
}
