//! A line of levels as text.

ghost use Rattle.std.specs.Prelude.{◌≡◌, IfOk, IfErr, IfSome, map};
ghost use Rattle.can_levels.specs.declared.level.Level.{Level as Bus};
ghost use Rattle.text_codec.specs.Decode.{ReadsAsLevels, RefusesLine};
ghost use Rattle.text_codec.specs.LineText.{symbol, line_text};

use super::command_refusal::CommandRefusal;
use can_levels::Level;
use std::alloc::{AllocError, Global};

/// The digit of a level.
fn symbol_of(level: Level) -> u8
    ensures { result ≡ symbol level }
{
    match level {
        Level::Dominant => b'0',
        Level::Recessive => b'1',
    }
}

/// The digits of the levels and a line feed.
pub(crate) fn text_of(alloc: Global, levels: &[Level]) -> Result<Vec<u8>, AllocError>
    ensures { IfOk result (λ text. text.items ≡ line_text levels.now) }
{
    let mut text = levels
        .iter()
        .map(|level| symbol_of(*level))
        .collect::<Vec<u8>>(alloc)?;
    text.push(b'\n')?;
    Ok(text)
}

/// The level of a digit; nothing where it is another character.
fn level_of(digit: u8) -> Option<Level>
    ensures some { IfSome result (λ level. digit ≡ symbol level) }
    ensures every { (level : Bus) → digit ≡ symbol level → result ≡ Some level }
{
    match digit {
        b'0' => Some(Level::Dominant),
        b'1' => Some(Level::Recessive),
        _ => None,
    }
}

/// The levels of these digits.
pub(crate) fn levels_of(alloc: Global, digits: &str) -> Result<Vec<Level>, CommandRefusal>
    ensures ok { IfOk result (λ levels. ReadsAsLevels digits.now levels.items) }
    ensures err { IfErr result (RefusesLine digits.now) }
{
    let mut levels = Vec::with_capacity(alloc, digits.len())?;
    for digit in digits.as_bytes() {
        let Some(level) = level_of(*digit) else {
            return Err(CommandRefusal::NotALine);
        };
        levels.push_reserved(level);
    }
    Ok(levels)
}
