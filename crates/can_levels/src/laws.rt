//! Laws of CRC sequences, of stuffing and of lines. Each stands as the contract of a function that does nothing.

ghost use Rattle.std.specs.Prelude.{◌≡◌, ◌↔◌, ◌++◌, ◌∷◌, [], ℕ, Bool, IsTrue, Some, List, length};
ghost use Rattle.can_levels.specs.declared.level.Level.{Level};
ghost use Rattle.can_levels.specs.Check.{Crc};
ghost use Rattle.can_frame.specs.Frame.{FrameValue};
ghost use Rattle.can_levels.specs.Stuffing.{Stuffed, HasNoSixEqual};
ghost use Rattle.can_levels.specs.Arbitration.{IsAtPlace, IsStuffBeforeRtr};
ghost use Rattle.can_levels.specs.Places.{place_code, is_early_stuff};
ghost use Rattle.can_levels.specs.Line.{StuffedPart, Line, IsSentLine};
ghost use Rattle.can_levels.specs.Reading.{BeginsDominant, IsPastPart, IsOpen};

/// Every list of levels has exactly one CRC sequence.
pub fn a_list_has_one_check_sequence()
    ensures { (b : List Level) → (c : List Level) × Crc b c × ((d : List Level) → Crc b d → d ≡ c) }
{}

/// A stuffed list is the stuffing of exactly one list.
pub fn a_stuffed_list_stuffs_one_list()
    ensures { (w v s : List Level) → Stuffed w s → Stuffed v s → w ≡ v }
{}

/// A list has at most one stuffing.
pub fn a_list_has_one_stuffing()
    ensures { (w s t : List Level) → Stuffed w s → Stuffed w t → s ≡ t }
{}

/// A frame has at most one sent line.
pub fn a_frame_has_one_sent_line()
    ensures { (f : FrameValue) (l m : List Level) → IsSentLine f l → IsSentLine f m → l ≡ m }
{}

/// Levels that begin dominant, have no six equal ones in a row and aren't past a whole stuffed part can go on to a
/// line.
pub fn a_good_beginning_can_go_on()
    ensures { (l : List Level) → BeginsDominant l → HasNoSixEqual l → ¬ IsPastPart l → IsOpen l }
{}

/// A stuffed part says itself where it ends: of one list of levels there is one at most at its beginning.
pub fn a_stuffed_part_says_where_it_ends()
    ensures { (f g : FrameValue) (b c d e s t x y : List Level) → StuffedPart f b c s → StuffedPart g d e t
        → s ++ x ≡ t ++ y → s ≡ t }
{}

/// Two lines with the same levels up to the sixth bit of EOF, all but the last, are lines of one frame with one body
/// and one CRC sequence, and one is as long as the other.
pub fn lines_with_the_same_levels_are_of_one_frame()
    ensures { (f g : FrameValue) (b c d e : List Level) (ack other last : Level) (front rest : List Level)
        → Line f b c ack (front ++ last ∷ []) → Line g d e other (front ++ rest)
        → (f ≡ g) × (b ≡ d) × (c ≡ e) × (length rest ≡ 1) }
{}

/// A place code is the place of the next level in the arbitration field, counted without stuff bits; a stuff bit has
/// none.
pub fn a_place_code_counts_no_stuff_bits()
    ensures { (ext : Bool) (l : List Level) (code : ℕ) → (place_code ext l ≡ Some code) ↔ IsAtPlace ext l code }
{}

/// A stuff bit is early where it comes before RTR of the format.
pub fn an_early_stuff_bit_comes_before_rtr()
    ensures { (ext : Bool) (l : List Level) → IsTrue (is_early_stuff ext l) ↔ IsStuffBeforeRtr ext l }
{}
