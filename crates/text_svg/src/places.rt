//! Where the parts of a drawing lie, in pixels.

ghost use Rattle.std.specs.Prelude.{◌≡◌, ◌<◌, ◌^◌};
ghost use Rattle.text_svg.specs.Places.{bits_width, place_in, whole_width, node_top, whole_height, line_height};
ghost use Rattle.text_svg.specs.Places.{level_line, counter_line};

use can_levels::Level;

/// How wide so many bits are.
pub(crate) fn bits_width(many: u32) -> u64
    ensures { result ≡ bits_width many }
{
    8 * u64::from(many)
}

/// Where a bit begins in a lane, if this is the first one that is drawn.
pub(crate) fn place_in(first: u32, bit: u32) -> u64
    ensures { result ≡ place_in first bit }
{
    bits_width(bit.saturating_sub(first))
}

/// How wide a drawing of so many bits is.
pub(crate) fn whole_width(many: u32) -> u64
    ensures { result ≡ whole_width many }
{
    (bits_width(many) + 104).max(704)
}

/// Where the lane of a node begins; the legend stands where the next one would.
pub(crate) fn node_top(node: usize) -> u64
    requires { node < 2 ^ 56 }
    ensures { result ≡ node_top node }
{
    208 * node as u64 + 64
}

/// How high a drawing of so many nodes is.
pub(crate) fn whole_height(nodes: usize) -> u64
    requires { nodes < 2 ^ 56 }
    ensures { result ≡ whole_height nodes }
{
    node_top(nodes) + 120
}

/// How high the lines are that go through the lanes of so many nodes.
pub(crate) fn line_height(nodes: usize) -> u64
    requires { nodes < 2 ^ 56 }
    ensures { result ≡ line_height nodes }
{
    208 * nodes as u64 + 34
}

/// Where a level lies in a lane.
pub(crate) fn level_line(level: Level) -> u64
    ensures { result ≡ level_line level }
{
    match level {
        Level::Recessive => 5,
        Level::Dominant => 19,
    }
}

/// Where a counter lies on its scale.
pub(crate) fn counter_line(value: u64) -> u64
    ensures { result ≡ counter_line value }
{
    256u64.saturating_sub(value)
}
