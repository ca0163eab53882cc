//! What is written of a lane.

ghost use Rattle.std.specs.Prelude.{◌≡◌, ◌++◌, ◌<◌, ◌^◌, OnOk, codes, string_bytes};
ghost use Rattle.text_svg.specs.Lanes.{lane_head, lane_bits, scale_head, scale_lines, counter_lines, lane_counters};

use super::places::node_top;
use std::alloc::AllocError;
use std::fmt::Write;

/// The names of the counters and their scale, in which a count has half a pixel.
const SCALE_HEAD: &str = concat!(
    "<text class='tecs' x='-64' y='116'>TEC</text><text class='recs' x='-64' y='132'>REC</text>\n",
    "<text class='count' x='-6' y='60'>256</text><text class='count' x='-6' y='124'>128</text>\n",
    "<text class='count' x='-6' y='140'>96</text><text class='count' x='-6' y='188'>0</text>\n",
    "<g transform='translate(0 56) scale(1 .5)'>\n",
);

/// The beginning of a lane.
pub(crate) fn put_head(text: &mut String, node: usize) -> Result<(), AllocError>
    requires { node < 2 ^ 56 }
    ensures { OnOk result (string_bytes text.new ≡ string_bytes text.old ++ lane_head node) }
{
    let top = node_top(node);
    writeln!(
        text,
        "<g transform='translate(72 {top})'>\n<text class='name' x='-64' y='17'>node {node}</text>"
    )
}

/// Its boxes, its level and its signs.
pub(crate) fn put_bits(
    text: &mut String,
    boxes: &str,
    levels: &str,
    signs: &str,
) -> Result<(), AllocError>
    ensures { OnOk result (string_bytes text.new ≡ string_bytes text.old
        ++ lane_bits boxes.now levels.now signs.now) }
{
    write!(text, "{boxes}<path class='level' d='{levels}'/>\n{signs}")
}

/// Its counters.
#[tactic(auto, using(text_report::proofs::WrittenLines::Written::three_texts))]
pub(crate) fn put_counters(
    text: &mut String,
    width: u64,
    tecs: &str,
    recs: &str,
) -> Result<(), AllocError>
    ensures { OnOk result (string_bytes text.new ≡ string_bytes text.old ++ lane_counters width tecs.now recs.now) }
{
    text.push_str(SCALE_HEAD)?;
    put_scale(text, width)?;
    put_lines(text, tecs, recs)?;
    Ok(())
}

/// The lines of the scale.
fn put_scale(text: &mut String, width: u64) -> Result<(), AllocError>
    ensures { OnOk result (string_bytes text.new ≡ string_bytes text.old ++ scale_lines width) }
{
    writeln!(
        text,
        "<path class='scale' d='M0 0h{width}M0 128h{width}M0 160h{width}M0 256h{width}'/>"
    )
}

/// The lines of both counters, and the end of the lane.
fn put_lines(text: &mut String, tecs: &str, recs: &str) -> Result<(), AllocError>
    ensures { OnOk result (string_bytes text.new ≡ string_bytes text.old ++ counter_lines tecs.now recs.now) }
{
    writeln!(
        text,
        "<path class='rec' d='{recs}'/>\n<path class='tec' d='{tecs}'/>\n</g>\n</g>"
    )
}
