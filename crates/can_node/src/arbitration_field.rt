//! The arbitration field of a frame, one level at a time.
//!
//! | Place | Standard | Extended |
//! |---|---|---|
//! | 0 to 10 | ID.28 to ID.18 | ID.28 to ID.18 |
//! | 11 | RTR | SRR, recessive |
//! | 12 | IDE, dominant | IDE, recessive |
//! | 13 to 30 | | ID.17 to ID.0 |
//! | 31 | | RTR |

ghost use Rattle.std.specs.Prelude.{◌≡◌, ◌==◌, ◌/◌, ◌%◌, ◌^◌, ◌<◌, ◌∷◌, ◌++◌, [], slice_get};
ghost use Rattle.can_levels.specs.Digits.{bits, level_of};
ghost use Rattle.can_node_rules.specs.Contending.{arbitration_field};
ghost use Rattle.can_levels.specs.declared.level.Level.TheVariants.{Dominant, Recessive};

use can_frame::Frame;
use can_levels::Level;

/// How many levels the longest arbitration field has.
pub(crate) const LONGEST_FIELD: u8 = 32;

/// The level at a place of a frame's arbitration field, counted from the first bit of the identifier; nothing past the
/// end of the field.
pub(crate) fn field_level(frame: &Frame, place: u8) -> Option<Level>
    ensures { result ≡ slice_get (arbitration_field frame.now) place }
{
    if frame.ext() {
        extended_level(frame, place)
    } else {
        standard_level(frame, place)
    }
}

/// The level at a place of a standard frame's arbitration field.
fn standard_level(frame: &Frame, place: u8) -> Option<Level>
    ensures { result ≡ slice_get (bits 11 frame.now.id ++ level_of frame.now.rtr ∷ Dominant ∷ []) place }
{
    match place {
        0..=10 => Some(level_by(frame.id(), 10 - place)),
        11 => Some(Level::of(frame.rtr())),
        12 => Some(Level::Dominant),
        _ => None,
    }
}

/// The level at a place of an extended frame's arbitration field.
fn extended_level(frame: &Frame, place: u8) -> Option<Level>
    ensures { result ≡ slice_get (bits 11 (frame.now.id / 2 ^ 18) ++ Recessive ∷ Recessive ∷ (bits 18 frame.now.id
        ++ level_of frame.now.rtr ∷ [])) place }
{
    match place {
        0..=10 => Some(level_by(frame.id() >> 18, 10 - place)),
        11 | 12 => Some(Level::Recessive),
        13..=30 => Some(level_by(frame.id(), 30 - place)),
        31 => Some(Level::of(frame.rtr())),
        _ => None,
    }
}

/// The level of a number's binary digit of this weight.
fn level_by(number: u32, weight: u8) -> Level
    requires { weight < 32 }
    ensures { result ≡ level_of (number / 2 ^ weight % 2 == 1) }
{
    Level::of((number >> weight) % 2 == 1)
}
