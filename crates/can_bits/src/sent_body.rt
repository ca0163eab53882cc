//! The body of a frame as its transmitter sends it, packed, and level by level.

ghost use Rattle.std.specs.Prelude.{◌≡◌, ◌≤◌, ◌+◌, ◌++◌, length};
ghost use Rattle.can_frame.specs.Frame.{IsFrame};
ghost use Rattle.can_levels.specs.Digits.{bits};
ghost use Rattle.can_levels.specs.Body.{sent_body};

use arrayvec::ArrayVec;
use can_frame::Frame;
use can_levels::Level;

/// How many binary digits a word has.
const WORD: u8 = 128;

/// The body that a transmitter of a frame sends, packed into one number, so that a node finds its next level at once.
#[derive(Clone, Copy, Debug)]
pub struct SentBody {
    /// The number that the levels write in binary, the last one lowest.
    word: u128,
    /// How many levels there are.
    length: u8,
}

impl SentBody {
    ghost use Rattle.std.specs.Prelude.{◌≡◌, ◌≤◌, ◌<◌, ◌+◌, ◌-◌, ◌/◌, ◌%◌, ◌^◌, ◌==◌, ◌++◌, [], ℕ, List, length};
    ghost use Rattle.std.specs.Prelude.{Some, nat_le, if◌then◌else◌};
    ghost use Rattle.std.specs.List.{slice_get};
    ghost use Rattle.can_frame.specs.Frame.{FrameValue, IsFrame};
    ghost use Rattle.can_levels.specs.declared.level.Level.{Level as Bus};
    ghost use Rattle.can_levels.specs.declared.level.Level.TheVariants.{Dominant, Recessive};
    ghost use Rattle.can_levels.specs.Digits.{bits, level_of};
    ghost use Rattle.can_levels.specs.Body.{head_bits, sent_body};
    ghost use Rattle.can_bits.specs.Packing.{Packs, IsSentBody};
    ghost use Rattle.can_bits.specs.Sending.{AgreeFor, BothHave, packed_level, sent_length};

    /// No levels.
    pub fn empty() -> SentBody
        ensures { Packs result.word result.length [] }
    {
        SentBody { word: 0, length: 0 }
    }

    /// The packed body of a frame: SOF, arbitration field, control field and data field (Bosch CAN 2.0 part B
    /// section 3.2).
    pub fn of(frame: &Frame) -> SentBody
        ensures packs { IsSentBody result frame.now }
        ensures valid { IsFrame frame.now }
    {
        let mut body = SentBody::head_of(frame).followed_by(4, u32::from(frame.dlc()));
        for byte in frame.bytes() {
            body = body.followed_by(8, u32::from(*byte));
        }
        body
    }

    /// SOF, arbitration field and reserved bits.
    fn head_of(frame: &Frame) -> SentBody
        ensures { Packs result.word result.length
            (head_bits frame.now.ext frame.now.id frame.now.rtr Recessive Dominant Dominant) }
    {
        let start = SentBody { word: 0, length: 1 };
        let rtr = u32::from(Level::of(frame.rtr()).digit());
        if frame.ext() {
            let base = start.followed_by(11, frame.id() >> 18).followed_by(2, 3);
            base.followed_by(18, frame.id() % 0x4_0000)
                .followed_by(1, rtr)
                .followed_by(2, 0)
        } else {
            start
                .followed_by(11, frame.id())
                .followed_by(1, rtr)
                .followed_by(2, 0)
        }
    }

    /// The same levels, and after them so many binary digits of a number that has no more.
    fn followed_by(self, count: u8, number: u32) -> SentBody
        requires { count ≤ 32 }
        ensures { (b : List Bus) → Packs self.word self.length b → length b + count ≤ 118 → number < 2 ^ count
            → Packs result.word result.length (b ++ bits count number) }
    {
        SentBody {
            word: (self.word << count).wrapping_add(u128::from(number)),
            length: self.length.wrapping_add(count),
        }
    }

    /// How many levels there are; none where 128 binary digits don't have them, which the body of no frame is.
    #[inline(always)]
    pub(crate) fn len(&self) -> u8
        ensures { result ≡ sent_length self.now }
    {
        if self.length <= 128 { self.length } else { 0 }
    }

    /// The level at a place of the body; none past it.
    #[inline(always)]
    pub fn level(&self, place: u8) -> Option<Level>
        ensures of_frame { (f : FrameValue) → IsSentBody self.now f → result ≡ slice_get (sent_body f) place }
        ensures packed { result ≡ packed_level self.now place }
    {
        if place < self.length {
            Some(Level::of((self.word >> ((self.length - 1 - place) % 128)) % 2 == 1))
        } else {
            None
        }
    }

    /// The levels from a place on as far as 64 binary digits have them, the next level the highest digit.
    #[inline(always)]
    pub(crate) fn digits_from(&self, place: u8) -> u64
        ensures { (k : ℕ) → k < 64 → place + k < self.now.length → self.now.length ≤ 128
            → packed_level self.now (place + k) ≡ Some (level_of (result / 2 ^ (63 - k) % 2 == 1)) }
    {
        if place < self.length {
            let left = self.length - place;
            ((self.word << ((128 - left % 128) % 128)) >> 64) as u64
        } else {
            0
        }
    }

    /// At how many places, from the first one on, both bodies have the same level; none where 128 binary digits don't
    /// have all of one of them, which is so of no frame's.
    pub(crate) fn agreement(&self, other: &SentBody) -> u8
        ensures same { AgreeFor result self.now other.now }
        ensures within { 0 < result → BothHave result self.now other.now }
        ensures most { (n : ℕ) → BothHave n self.now other.now → AgreeFor n self.now other.now → n ≤ result }
    {
        let apart = self.from_highest() ^ other.from_highest();
        self.len().min(other.len()).min(apart.leading_zeros() as u8)
    }

    /// All levels, the first one the highest of 128 digits.
    #[inline(always)]
    fn from_highest(&self) -> u128
        ensures { (place : ℕ) → place < self.now.length → self.now.length ≤ 128
            → packed_level self.now place ≡ Some (level_of (result / 2 ^ (127 - place) % 2 == 1)) }
    {
        self.word << (WORD.saturating_sub(self.length) % WORD)
    }
}

/// The body that a transmitter of this frame sends, level by level.
pub(crate) fn body_of(frame: &Frame) -> ArrayVec<Level, 118>
    ensures value { result.items ≡ sent_body frame.now }
    ensures valid { IsFrame frame.now }
    ensures room { length result.items ≤ 103 }
{
    let packed = SentBody::of(frame);
    let mut body = ArrayVec::new();
    push_bits(&mut body, packed.length, packed.word);
    body
}

/// The lowest `count` binary digits of a number, most significant first.
pub(crate) fn push_bits(body: &mut ArrayVec<Level, 118>, count: u8, number: u128)
    requires { length body.old.items + count ≤ 118 }
    ensures value { body.new.items ≡ body.old.items ++ bits count number }
    ensures room { length body.new.items ≡ length body.old.items + count }
{
    for k in 0..count {
        let digit = (number >> (count - 1 - k)) % 2;
        body.push(Level::of(digit == 1));
    }
}
