//! The same character again and again: what a node at rest shows.

ghost use Rattle.std.specs.Prelude.{◌≡◌, ◌++◌, if◌then◌else◌, codes, OnOk, string_bytes};
ghost use Rattle.std.specs.List.{repeat};
ghost use Rattle.can_levels.specs.declared.level.Level.TheVariants.{Recessive};
ghost use Rattle.text_picture.specs.Rows.{level_sign};
ghost use Rattle.text_picture.specs.Inside.PictureRest.{rest_letter};

use can_node_rules::Phase;
use sja_replay::ShortBit;
use std::alloc::AllocError;

/// The sign of the recessive level, so many times.
pub(crate) fn put_levels(text: &mut String, count: u32) -> Result<(), AllocError>
    ensures { OnOk result (string_bytes text.new ≡ string_bytes text.old ++ repeat count (level_sign Recessive)) }
{
    put_copies(text, "▔▔▔▔▔▔▔▔▔▔▔▔▔▔▔▔▔▔▔▔", "▔", count)
}

/// The letter of a node at rest, so many times.
pub(crate) fn put_rest_letters(
    text: &mut String,
    short: &Option<ShortBit>,
    count: u32,
) -> Result<(), AllocError>
    ensures { OnOk result (string_bytes text.new ≡ string_bytes text.old ++ repeat count (rest_letter short.now)) }
{
    if is_idle(short) {
        put_copies(text, "--------------------", "-", count)
    } else {
        put_copies(text, "....................", ".", count)
    }
}

/// Whether the bus is idle for a node at rest, which else is in reset.
fn is_idle(short: &Option<ShortBit>) -> bool
    ensures { rest_letter short.now ≡ (if result then codes "-" else codes ".") }
{
    match short {
        Some(short) => !matches!(short.phase, Phase::Reset),
        None => false,
    }
}

/// A text so many times; `twenty` is twenty of them.
fn put_copies(text: &mut String, twenty: &str, one: &str, count: u32) -> Result<(), AllocError>
    requires { twenty.now ≡ repeat 20 one.now }
    ensures { OnOk result (string_bytes text.new ≡ string_bytes text.old ++ repeat count one.now) }
{
    let mut left = count;
    while left >= 20 {
        text.push_str(twenty)?;
        left -= 20;
    }
    while left > 0 {
        text.push_str(one)?;
        left -= 1;
    }
    Ok(())
}
