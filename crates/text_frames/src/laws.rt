//! Laws of the bits of frames. Each stands as the contract of a function that does nothing.

ghost use Rattle.std.specs.Prelude.{◌≡◌, ◌==◌, ◌&&◌, ◌∷◌, Bool, List};
ghost use Rattle.can_levels.specs.declared.level.Level.{Level};
ghost use Rattle.can_levels.specs.declared.segment.Segment.{Segment};
ghost use Rattle.can_levels.specs.Segments.{IsNext};
ghost use Rattle.text_frames.specs.Fields.{field_of, is_stuffed};
ghost use Rattle.text_frames.specs.FrameBits.{one_level, run_of};

/// A bit is told as a stuff bit exactly where the next level of a line is one, by the definitions of lines.
pub fn a_stuff_bit_is_one_of_the_line()
    ensures { (x : Level) (l : List Level) (segment : Segment) (stuff : Bool) → IsNext (x ∷ l) segment stuff
        → stuff ≡ (is_stuffed (field_of segment) && ((run_of (one_level x) l).count == 5)) }
{}
