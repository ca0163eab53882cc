//! The body and the CRC sequence that a reader is given, kept as one number.

use super::crc::crc_step;
use can_levels::Level;

mod fields;
mod next;

/// Where the DLC of a standard frame ends: the first mark.
const STANDARD_HEAD: u8 = 19;

/// The highest binary digit of a word.
const HIGHEST: u128 = 1 << 127;

/// The levels of a body and its CRC sequence as far as they have come, without stuff bits, as one number.
#[derive(Clone, Copy, Debug)]
pub(crate) struct BodyWord {
    /// The number that the levels write in binary, the last one lowest.
    word: u128,
    /// The CRC register over all levels that have come.
    register: u16,
    /// How many levels have come.
    place: u8,
    /// At how many levels more is known of the length: at the end of the DLC, and then of the CRC sequence.
    mark: u8,
}

impl BodyWord {
    ghost use Rattle.std.specs.Prelude.{◌≡◌, ◌≢◌, ◌+◌, ◌*◌, ◌%◌, ◌^◌, ◌<◌, ◌≤◌, ◌∷◌, ◌++◌, [], List, length};
    ghost use Rattle.std.specs.Prelude.{◌↔◌, IsTrue};
    ghost use Rattle.can_levels.specs.declared.level.Level.{Level as Bus};
    ghost use Rattle.can_levels.specs.Check.{IsMultiple};
    ghost use Rattle.can_levels.specs.Digits.{value};
    ghost use Rattle.can_levels.specs.DataBits.{data_place};
    ghost use Rattle.can_levels.specs.Fields.{says_count};
    ghost use Rattle.can_bits.specs.Packing.{Packs};
    ghost use Rattle.can_bits.specs.Inside.Gathering.{Gathers, SaysWhetherRight, mark_of};

    /// Nothing has come.
    pub(crate) fn new() -> BodyWord
        ensures { Gathers result [] }
    {
        BodyWord {
            word: 0,
            register: 0,
            place: 0,
            mark: STANDARD_HEAD,
        }
    }

    /// Takes one level more.
    #[inline(always)]
    pub(crate) fn push(&mut self, level: Level)
        ensures bit { (w : List Bus) → Gathers self.old w → length w < 118 → Gathers self.new (w ++ level ∷ []) }
        ensures place { self.new.place ≡ (self.old.place + 1) % 256 }
    {
        self.word = 2 * (self.word % HIGHEST) + u128::from(level.digit());
        self.place = self.place.wrapping_add(1);
        self.divide(level);
        if self.place == self.mark {
            self.move_mark();
        }
    }

    /// Takes one level more, with which no mark is reached.
    #[inline(always)]
    pub(crate) fn push_before_mark(&mut self, level: Level)
        requires { (self.old.place + 1) % 256 ≢ self.old.mark }
        ensures bit { (w : List Bus) → Gathers self.old w → length w < 118 → Gathers self.new (w ++ level ∷ []) }
        ensures place { self.new.place ≡ (self.old.place + 1) % 256 }
        ensures mark { self.new.mark ≡ self.old.mark }
    {
        self.word = 2 * (self.word % HIGHEST) + u128::from(level.digit());
        self.place = self.place.wrapping_add(1);
        self.divide(level);
    }

    /// Runs the CRC register over a level.
    #[inline(always)]
    fn divide(&mut self, level: Level)
        ensures kept { self.new ≡ record self.old { register = self.new.register } }
        ensures fits { self.new.register < 2 ^ 15 }
        ensures divides { (w : List Bus) → self.old.register < 2 ^ 15
            → IsMultiple (value w * 2 ^ 15 + self.old.register)
            → IsMultiple (value (w ++ level ∷ []) * 2 ^ 15 + self.new.register) }
    {
        self.register = crc_step(self.register % 0x8000, level);
    }

    /// Moves the mark to the next one, from the end of a standard frame's DLC on; past the DLC it stays.
    #[cold]
    #[inline(never)]
    fn move_mark(&mut self)
        ensures kept { self.new ≡ record self.old { mark = self.new.mark } }
        ensures moved { (w : List Bus) → Packs self.old.word self.old.place w → 19 ≤ length w
            → length w ≤ data_place w → self.new.mark ≡ mark_of w }
        ensures stays { (w : List Bus) → Packs self.old.word self.old.place w → data_place w < length w
            → self.new.mark ≡ self.old.mark }
    {
        let head = self.head_end();
        if self.place < head {
            self.mark = head;
        } else if self.place == head {
            self.mark = self.level_count();
        }
    }

    /// Whether both are the same.
    #[inline(always)]
    pub(crate) fn is_same(&self, other: &BodyWord) -> bool
        ensures { IsTrue result ↔ (self.now ≡ other.now) }
    {
        self.place == other.place
            && self.word == other.word
            && self.register == other.register
            && self.mark == other.mark
    }

    /// Whether all levels have come.
    #[inline(always)]
    pub(crate) fn is_whole(&self) -> bool
        ensures { (w : List Bus) → Gathers self.now w → IsTrue result ↔ (length w ≡ says_count w) }
    {
        self.place == self.mark
    }

    /// Whether the CRC sequence is right, once all levels have come.
    #[inline(always)]
    pub(crate) fn check_is_right(&self) -> bool
        ensures { (w b c : List Bus) → Gathers self.now w → w ≡ b ++ c → length c ≡ 15 → SaysWhetherRight result b c }
    {
        self.register == 0
    }
}
