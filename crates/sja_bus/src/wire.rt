//! The wire: its level in a bit, and what each node sees of it.

ghost use Rattle.std.specs.Prelude.{◌≡◌, if◌then◌else◌, [], ◌∷◌};
ghost use Rattle.can_levels.specs.Digits.{opposite};
ghost use Rattle.can_levels.specs.BusLevel.{wired};
ghost use Rattle.sja_bus.specs.Inside.Rows.{driven_by};

use super::bus_node::BusNode;
use can_levels::Level;

/// The level on the bus: dominant where any node drives dominant.
#[inline(always)]
pub(crate) fn level_of(bus_nodes: &[BusNode]) -> Level
    ensures { result ≡ wired (driven_by bus_nodes.now) }
{
    for k in 0..bus_nodes.len() {
        if let Level::Dominant = bus_nodes[k].drives {
            return Level::Dominant;
        }
    }
    Level::Recessive
}

/// What two levels make on the bus.
#[inline(always)]
pub(crate) fn both(a: Level, b: Level) -> Level
    ensures { result ≡ wired (a ∷ b ∷ []) }
{
    Level::of(a.is_recessive() && b.is_recessive())
}

/// What a node sees: the other level where it is struck.
#[inline(always)]
pub(crate) fn seen(level: Level, struck: bool) -> Level
    ensures { result ≡ (if struck then opposite level else level) }
{
    if struck { struck_level(level) } else { level }
}

/// What a struck node sees.
#[inline(never)]
fn struck_level(level: Level) -> Level
    ensures { result ≡ opposite level }
{
    match level {
        Level::Dominant => Level::Recessive,
        Level::Recessive => Level::Dominant,
    }
}
