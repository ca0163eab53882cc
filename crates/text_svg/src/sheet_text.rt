//! What is written around the lanes of a drawing.

ghost use Rattle.std.specs.Prelude.{◌≡◌, ◌++◌, ◌<◌, ◌^◌, OnOk, string_bytes};
ghost use Rattle.text_svg.specs.Sheets.{size, head, ruler_lane, bus_line, bus_lane, top, foot_front, foot};

use super::legend::LEGEND;
use super::places::{node_top, whole_height, whole_width};
use super::style::GROUND;
use std::alloc::AllocError;
use std::fmt::Write;

/// The name of the bus.
const BUS_HEAD: &str =
    "<g transform='translate(72 28)'>\n<text class='name' x='-64' y='17'>bus</text>\n";

/// All that stands above the lanes of so many nodes.
#[tactic(auto, using(text_report::proofs::WrittenLines::Written::three_texts))]
pub(crate) fn put_top(
    text: &mut String,
    nodes: usize,
    many: u32,
    marks: &str,
    levels: &str,
) -> Result<(), AllocError>
    requires { nodes < 2 ^ 56 }
    ensures { OnOk result (string_bytes text.new ≡ string_bytes text.old ++ top nodes many marks.now levels.now) }
{
    put_head(text, nodes, many)?;
    put_ruler(text, marks)?;
    put_bus(text, levels)?;
    Ok(())
}

/// The head.
#[tactic(auto, using(text_report::proofs::WrittenLines::Written::two_texts))]
fn put_head(text: &mut String, nodes: usize, many: u32) -> Result<(), AllocError>
    requires { nodes < 2 ^ 56 }
    ensures { OnOk result (string_bytes text.new ≡ string_bytes text.old ++ head nodes many) }
{
    put_size(text, nodes, many)?;
    text.push_str(GROUND)?;
    Ok(())
}

/// How large the drawing is.
fn put_size(text: &mut String, nodes: usize, many: u32) -> Result<(), AllocError>
    requires { nodes < 2 ^ 56 }
    ensures { OnOk result (string_bytes text.new ≡ string_bytes text.old ++ size nodes many) }
{
    let width = whole_width(many);
    let height = whole_height(nodes);
    writeln!(
        text,
        "<svg xmlns='http://www.w3.org/2000/svg' width='{width}' height='{height}'>"
    )
}

/// The ruler.
fn put_ruler(text: &mut String, marks: &str) -> Result<(), AllocError>
    ensures { OnOk result (string_bytes text.new ≡ string_bytes text.old ++ ruler_lane marks.now) }
{
    writeln!(text, "<g transform='translate(72 0)'>\n{marks}</g>")
}

/// The bus.
#[tactic(auto, using(text_report::proofs::WrittenLines::Written::two_texts))]
fn put_bus(text: &mut String, levels: &str) -> Result<(), AllocError>
    ensures { OnOk result (string_bytes text.new ≡ string_bytes text.old ++ bus_lane levels.now) }
{
    text.push_str(BUS_HEAD)?;
    put_level(text, levels)?;
    Ok(())
}

/// The line of its level.
fn put_level(text: &mut String, levels: &str) -> Result<(), AllocError>
    ensures { OnOk result (string_bytes text.new ≡ string_bytes text.old ++ bus_line levels.now) }
{
    writeln!(text, "<path class='level' d='{levels}'/>\n</g>")
}

/// The legend below the lanes of so many nodes, and the end.
#[tactic(auto, using(text_report::proofs::WrittenLines::Written::two_texts))]
pub(crate) fn put_foot(text: &mut String, nodes: usize) -> Result<(), AllocError>
    requires { nodes < 2 ^ 56 }
    ensures { OnOk result (string_bytes text.new ≡ string_bytes text.old ++ foot nodes) }
{
    put_foot_front(text, nodes)?;
    text.push_str(LEGEND)?;
    Ok(())
}

/// Where the legend stands.
fn put_foot_front(text: &mut String, nodes: usize) -> Result<(), AllocError>
    requires { nodes < 2 ^ 56 }
    ensures { OnOk result (string_bytes text.new ≡ string_bytes text.old ++ foot_front nodes) }
{
    let top = node_top(nodes);
    writeln!(text, "<g transform='translate(72 {top})'>")
}
