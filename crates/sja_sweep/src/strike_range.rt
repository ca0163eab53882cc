//! [`StrikeRange`]: the nodes and bits that a sweep strikes.

ghost use Rattle.std.specs.Prelude.{◌≡◌, ◌+◌, ◌-◌, ◌≤◌, min};
ghost use Rattle.std.specs.List.{range_with_len};
ghost use Rattle.sja_sweep.specs.Targets.{nodes_struck, bit_count};
ghost use Rattle.sja_sweep.specs.Inside.Asking.{nodes_asked, IsAsked};

use super::sweeping::Sweeping;

/// The nodes and bits that a sweep strikes.
#[derive(Clone, Copy)]
pub(crate) struct StrikeRange {
    /// The first node.
    pub(crate) from: u16,
    /// The node behind the last one.
    pub(crate) end: u16,
    /// The first bit.
    pub(crate) first: u32,
    /// How many bits.
    pub(crate) count: u32,
}

/// What a sweep strikes in a plan of so many nodes whose run has so many bits.
pub(crate) fn asked_of(sweeping: &Sweeping, nodes: usize, bits: u32) -> StrikeRange
    requires { nodes ≤ 8 }
    ensures { IsAsked sweeping.now nodes bits result }
{
    let (from, end) = nodes_of(sweeping.node, nodes);
    let count = end_of(sweeping.last, bits).saturating_sub(sweeping.first);
    StrikeRange {
        from,
        end,
        first: sweeping.first,
        count,
    }
}

/// The first node that is struck, and the one behind the last, of so many.
fn nodes_of(node: Option<u8>, nodes: usize) -> (u16, u16)
    requires { nodes ≤ 8 }
    ensures are { range_with_len result.0 (result.1 - result.0) ≡ nodes_struck node nodes }
    ensures low { result.0 ≤ result.1 }
    ensures high { result.1 ≤ 256 }
{
    match node {
        Some(node) => (u16::from(node), u16::from(node) + 1),
        None => (0, nodes as u16),
    }
}

/// The number behind the last one, of so many.
pub(crate) fn end_of(last: u32, count: u32) -> u32
    ensures { result ≡ min (last + 1) count }
{
    if last < count { last + 1 } else { count }
}
