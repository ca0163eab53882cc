//! Bits that are run at once where one node has read something else than what the others send and read, as one that was
//! struck: it receives them too, with a reader of its own.

ghost use Rattle.std.specs.Prelude.{◌≡◌, ◌≢◌, ◌*◌, ◌<◌, ◌≤◌, Bool, length, slice_index_or};
ghost use Rattle.can_node.specs.Together.{HasReadAs, reader_of};
ghost use Rattle.sja_bus.specs.declared.bus_node.BusNode.{BusNode as BusNodeValue};
ghost use Rattle.sja_bus.specs.Inside.Refusing.{AreFree};
ghost use Rattle.sja_bus.specs.Inside.Rows.{EachBusNode};
ghost use Rattle.sja_bus.specs.Inside.Together.{AreQuietRows, MayRunTogether, RestGoes, RunsTogether};
ghost use Rattle.sja_bus.specs.Inside.Together.{BusNodeGoesBeside};

use super::bus_node::BusNode;
use super::together::{MOST, at_once};
use can_bits::Shift;
use can_levels::Level;

/// Runs bits of all nodes in which nothing happens, where one sends the stuffed part of a frame, another one receives
/// what it takes for it, and all others go on with the sender. Answers how many.
#[inline(never)]
pub(crate) fn run_beside(
    bus_nodes: &mut [BusNode],
    calm: u32,
    lead: usize,
    stray: usize,
    to_rest: bool,
) -> u32
    requires few { (lead < length bus_nodes.old) × (stray < length bus_nodes.old) }
    requires other { stray ≢ lead }
    requires reads { (s : BusNodeValue) → HasReadAs (slice_index_or bus_nodes.old stray s).node
        (reader_of (slice_index_or bus_nodes.old stray s).node) }
    requires may { MayRunTogether calm bus_nodes.old }
    ensures { RunsTogether to_rest calm bus_nodes.old result bus_nodes.new }
{
    let rest = rest_goes(bus_nodes, lead, stray);
    let mut levels = [Level::Recessive; MOST];
    let most = at_once(calm, rest);
    run_strayed(bus_nodes, lead, stray, &mut levels[..most]) as u32
}

/// For how many bits at most all nodes but these two go on with the first of them.
fn rest_goes(bus_nodes: &[BusNode], lead: usize, stray: usize) -> u8
    requires { lead < length bus_nodes.now }
    ensures { 0 < result → (s : BusNodeValue) → RestGoes bus_nodes.now lead stray result
        (slice_index_or bus_nodes.now lead s).node }
{
    let mut most = u8::MAX;
    for k in 0..bus_nodes.len() {
        if k != lead && k != stray {
            most = most.min(bus_nodes[k].node.goes_with(&bus_nodes[lead].node));
            if most == 0 {
                return 0;
            }
        }
    }
    most
}

/// Runs bits of all nodes, as many as there is room for their levels, or up to the end of what both readers take.
/// Answers how many.
fn run_strayed(bus_nodes: &mut [BusNode], lead: usize, stray: usize, levels: &mut [Level]) -> usize
    requires few { (lead < length bus_nodes.old) × (stray < length bus_nodes.old) }
    requires other { stray ≢ lead }
    requires reads { (s : BusNodeValue) → HasReadAs (slice_index_or bus_nodes.old stray s).node
        (reader_of (slice_index_or bus_nodes.old stray s).node) }
    requires rest { 0 < length levels.old → (s : BusNodeValue) →
        RestGoes bus_nodes.old lead stray (length levels.old) (slice_index_or bus_nodes.old lead s).node }
    requires most { length levels.old ≤ 160 }
    requires may { MayRunTogether (length levels.old) bus_nodes.old }
    ensures few { result ≤ length levels.old }
    ensures rows { (to_rest : Bool) → AreQuietRows to_rest bus_nodes.old result bus_nodes.new }
{
    let mut beside = bus_nodes[stray].node.reader();
    let count = bus_nodes[lead].node.send_beside(&mut beside, levels);
    if count > 0 {
        let reader = bus_nodes[lead].node.reader();
        all_go_beside(bus_nodes, lead, stray, &reader, &beside, &levels[..count]);
    }
    count
}

/// The bits of all nodes in their journals, of which the first of these two has sent the levels already. The other one
/// goes on where its own reader is, the rest where the sender's is.
fn all_go_beside(
    bus_nodes: &mut [BusNode],
    lead: usize,
    stray: usize,
    reader: &Shift,
    beside: &Shift,
    levels: &[Level],
)
    requires most { length levels.now ≤ 160 }
    requires free { AreFree (length levels.now) bus_nodes.old }
    ensures { EachBusNode (BusNodeGoesBeside lead stray reader.now beside.now levels.now) bus_nodes.old bus_nodes.new }
{
    for k in 0..bus_nodes.len() {
        let own = if k == stray { beside } else { reader };
        bus_nodes[k].go_on(k == lead, own, levels);
    }
}
