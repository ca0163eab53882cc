//! Levels and lines behind a text.

ghost use Rattle.std.specs.Prelude.{◌≡◌, ◌++◌, ◌∷◌, [], OnOk, string_bytes};
ghost use Rattle.text_picture.specs.Rows.{level_sign};
ghost use Rattle.text_picture.specs.PictureText.{node_head};

use can_levels::Level;
use std::alloc::AllocError;
use std::fmt::Write;

/// The sign of a level.
#[inline(always)]
pub(crate) fn put_level(text: &mut String, level: Level) -> Result<(), AllocError>
    ensures { OnOk result (string_bytes text.new ≡ string_bytes text.old ++ level_sign level) }
{
    match level {
        Level::Dominant => text.push('▁'),
        Level::Recessive => text.push('▔'),
    }
}

/// A row: its head, and what it shows.
pub(crate) fn put_row(text: &mut String, head: &str, shown: &str) -> Result<(), AllocError>
    ensures { OnOk result (string_bytes text.new ≡ string_bytes text.old
        ++ (head.now ++ (shown.now ++ 10 ∷ []))) }
{
    writeln!(text, "{head}{shown}")
}

/// A row of a node.
pub(crate) fn put_node_row(text: &mut String, node: usize, shown: &str) -> Result<(), AllocError>
    ensures { OnOk result (string_bytes text.new ≡ string_bytes text.old
        ++ (node_head node ++ (shown.now ++ 10 ∷ []))) }
{
    writeln!(text, "node {node}  {shown}")
}
