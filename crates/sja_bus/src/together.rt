//! Bits that are run at once: in which one node sends a frame and all others have read just what it has, and receive it
//! or send the same, so that one reader does for all, or are in reset; and in which every node is at rest.

ghost use Rattle.std.specs.Prelude.{◌≡◌, ◌≢◌, ◌*◌, ◌<◌, ◌≤◌, Bool, true, length, slice_index_or, IfSome, IfOk};
ghost use Rattle.std.specs.Prelude.{IfErr};
ghost use Rattle.sja_bus.specs.declared.bus_node.BusNode.{BusNode as BusNodeValue};
ghost use Rattle.sja_bus.specs.Inside.Refusing.{AreFree};
ghost use Rattle.sja_bus.specs.Inside.Rows.{EachBusNode};
ghost use Rattle.sja_bus.specs.Inside.Together.{AreQuietRows, IsLed, MayRunTogether, OthersGo, RunsTogether};
ghost use Rattle.sja_bus.specs.Inside.Together.{BusNodeGoesOn};

use super::bus_node::BusNode;
use super::idle_bits::{all_rest, are_at_rest};
use super::stray::run_beside;
use can_bits::Shift;
use can_levels::Level;

/// How many bits are run together at most: more than the stuffed part of a frame has.
pub(crate) const MOST: usize = 160;

/// Levels that are driven by who drives nothing, as many.
static RECESSIVE: [Level; MOST] = [Level::Recessive; MOST];

/// At which bits it is looked whether a run of bits can begin: after the first one of a call, and then after each of so
/// many. To look at each bit would cost more, where a node has lost the frame that the others are in.
const EACH: u32 = 4;

/// Runs bits of all nodes in which nothing happens, at most so many, in which no node is struck: where one node sends
/// the stuffed part of a frame and all others go on with it, or every node is at rest and it isn't asked that some node
/// works. `run` bits were run before these. Answers how many.
#[inline(always)]
pub(crate) fn run_together(bus_nodes: &mut [BusNode], calm: u32, run: u32, to_rest: bool) -> u32
    requires { MayRunTogether calm bus_nodes.old }
    ensures { RunsTogether to_rest calm bus_nodes.old result bus_nodes.new }
{
    if run % EACH == 1 {
        run_at_once(bus_nodes, calm, to_rest)
    } else {
        0
    }
}

/// The same at whatever bit.
#[inline(never)]
fn run_at_once(bus_nodes: &mut [BusNode], calm: u32, to_rest: bool) -> u32
    requires { MayRunTogether calm bus_nodes.old }
    ensures { RunsTogether to_rest calm bus_nodes.old result bus_nodes.new }
{
    match sender(bus_nodes) {
        Some(lead) => run_sent(bus_nodes, calm, lead, to_rest),
        None => run_idle(bus_nodes, calm, to_rest),
    }
}

/// The same, where this node sends.
#[inline(always)]
fn run_sent(bus_nodes: &mut [BusNode], calm: u32, lead: usize, to_rest: bool) -> u32
    requires few { lead < length bus_nodes.old }
    requires may { MayRunTogether calm bus_nodes.old }
    ensures { RunsTogether to_rest calm bus_nodes.old result bus_nodes.new }
{
    match others_go(bus_nodes, lead) {
        Ok(most) => {
            let mut levels = [Level::Recessive; MOST];
            let most = at_once(calm, most);
            run_led(bus_nodes, lead, &mut levels[..most]) as u32
        }
        Err(stray) => {
            let reader = bus_nodes[stray].node.reader();
            if !bus_nodes[stray].node.has_read_as(&reader) {
                return 0;
            }
            run_beside(bus_nodes, calm, lead, stray, to_rest)
        }
    }
}

/// Runs so many bits of all nodes, where each is at rest and it isn't asked that some node works. Answers how many.
fn run_idle(bus_nodes: &mut [BusNode], calm: u32, to_rest: bool) -> u32
    requires { MayRunTogether calm bus_nodes.old }
    ensures { RunsTogether to_rest calm bus_nodes.old result bus_nodes.new }
{
    if to_rest {
        return 0;
    }
    if !are_at_rest(bus_nodes) {
        return 0;
    }
    all_rest(bus_nodes, calm);
    calm
}

/// So many of the bits that strike nobody, and at most [`MOST`].
#[inline(always)]
pub(crate) fn at_once(calm: u32, most: u8) -> usize
    ensures room { result ≤ 160 }
    ensures calm { result ≤ calm }
    ensures most { result ≤ most }
{
    (calm as usize).min(usize::from(most)).min(MOST)
}

/// A node that sends a frame.
#[inline(always)]
fn sender(bus_nodes: &[BusNode]) -> Option<usize>
    ensures { IfSome result (λ lead. lead < length bus_nodes.now) }
{
    for k in 0..bus_nodes.len() {
        if bus_nodes[k].node.is_sending() {
            return Some(k);
        }
    }
    None
}

/// For how many bits at most all other nodes go on with this one.
///
/// Error: the first node that goes on with it for none.
fn others_go(bus_nodes: &[BusNode], lead: usize) -> Result<u8, usize>
    requires { lead < length bus_nodes.now }
    ensures go { IfOk result (λ most. (s : BusNodeValue) →
        OthersGo bus_nodes.now lead most (slice_index_or bus_nodes.now lead s).node) }
    ensures other { IfErr result (λ k. (k < length bus_nodes.now) × (k ≢ lead)) }
{
    let mut most = u8::MAX;
    for k in 0..bus_nodes.len() {
        if k != lead {
            most = most.min(bus_nodes[k].node.goes_with(&bus_nodes[lead].node));
            if most == 0 {
                return Err(k);
            }
        }
    }
    Ok(most)
}

/// Runs bits of all nodes, as many as there is room for their levels or up to the end of the stuffed part. Answers how
/// many.
fn run_led(bus_nodes: &mut [BusNode], lead: usize, levels: &mut [Level]) -> usize
    requires led { IsLed bus_nodes.old lead (length levels.old) }
    requires most { length levels.old ≤ 160 }
    requires may { MayRunTogether (length levels.old) bus_nodes.old }
    ensures few { result ≤ length levels.old }
    ensures rows { (to_rest : Bool) → AreQuietRows to_rest bus_nodes.old result bus_nodes.new }
{
    let count = bus_nodes[lead].node.send_inside(levels);
    if count > 0 {
        let reader = bus_nodes[lead].node.reader();
        all_go_on(bus_nodes, lead, &reader, &levels[..count]);
    }
    count
}

/// The bits of all nodes in their journals, of which this one has sent these levels already. The others go on where
/// this reader is.
fn all_go_on(bus_nodes: &mut [BusNode], lead: usize, reader: &Shift, levels: &[Level])
    requires most { length levels.now ≤ 160 }
    requires free { AreFree (length levels.now) bus_nodes.old }
    ensures { EachBusNode (BusNodeGoesOn lead reader.now levels.now) bus_nodes.old bus_nodes.new }
{
    for k in 0..bus_nodes.len() {
        bus_nodes[k].go_on(k == lead, reader, levels);
    }
}

impl BusNode {
    ghost use Rattle.std.specs.Prelude.{◌≡◌, ◌-◌, ◌≤◌, true, false, length};
    ghost use Rattle.can_node.specs.Together.{following, is_sending, reading_as};
    ghost use Rattle.sja_bus.specs.Inside.Together.{HasSent, after_reading};

    /// The bits of the node in its journal: it sent these levels already, or it goes on where this reader is, and sent
    /// them too or read them and drove recessive.
    #[inline(always)]
    pub(crate) fn go_on(&mut self, sent: bool, reader: &Shift, levels: &[Level])
        requires most { length levels.now ≤ 160 }
        requires free { length levels.now ≤ self.old.journal.room.all - length self.old.journal.entries }
        ensures sent { sent ≡ true → HasSent levels.now self.old self.new }
        ensures sent_too { sent ≡ false → is_sending self.old.node ≡ true
            → HasSent levels.now (record self.old { node = following self.old.node reader.now }) self.new }
        ensures read { sent ≡ false → is_sending self.old.node ≡ false
            → self.new ≡ after_reading (reading_as self.old.node reader.now) levels.now self.old }
    {
        let sends = self.node.is_sending();
        if !sent {
            self.node.follow(reader);
        }
        if sent || sends {
            self.has_sent(levels);
        } else {
            self.has_read(levels);
        }
    }

    /// The bits of a node that sent these levels already.
    fn has_sent(&mut self, levels: &[Level])
        requires { length levels.now ≤ self.old.journal.room.all - length self.old.journal.entries }
        ensures { HasSent levels.now self.old self.new }
    {
        self.journal.enter_bits_reserved(levels, levels);
        self.drives = self.node.drive();
    }

    /// The bits of a node that read these levels already and drove recessive.
    #[inline(always)]
    fn has_read(&mut self, levels: &[Level])
        requires most { length levels.now ≤ 160 }
        requires free { length levels.now ≤ self.old.journal.room.all - length self.old.journal.entries }
        ensures { self.new ≡ after_reading self.old.node levels.now self.old }
    {
        self.journal
            .enter_bits_reserved(&RECESSIVE[..levels.len()], levels);
    }
}
