//! What all nodes of a bus do in one bit, node after node.

ghost use Rattle.std.specs.Prelude.{◌≡◌, ◌<◌, ◌≤◌, ℕ, true, false, slice_index_or};
ghost use Rattle.std.specs.Prelude.{length, IfOk, OnOk, IfErr, ◌⊎◌};
ghost use Rattle.lemmas.specs.Related.{EachRelated};
ghost use Rattle.can_levels.specs.BusLevel.{wired};
ghost use Rattle.sja_journal.specs.Links.{AreEnds};
ghost use Rattle.sja_journal.specs.Written.{Room};
ghost use Rattle.sja_bus.specs.Inside.Rows.{AreReady, AreOnBus, AreTold, EachBusNode, BusNodeTakes, BusNodeUntold};
ghost use Rattle.sja_bus.specs.Inside.Rows.{BusNodeOpens, BusNodeOpensUntold, BusNodeTurns, GoesAll, AllRead};
ghost use Rattle.sja_bus.specs.Inside.Rows.{driven_by, BusNodeBegins};
ghost use Rattle.sja_bus.specs.Boards.{KeepsOthers};
ghost use Rattle.sja_bus.specs.declared.bus_node.BusNode.{BusNode as BusNodeValue};
ghost use Rattle.sja_bus.specs.Inside.Underway.{BreaksUnderway, GoesToAll};
ghost use Rattle.sja_bus.specs.Inside.Whole.{IsRowBit};
ghost use Rattle.sja_bus.specs.Inside.RowTakes.{RowTakesAll};
ghost use Rattle.sja_bus.specs.Inside.Refusing.{HaveRoom, AreFree, BusNodeRefuses, BusNodeFull, BusNodeBreaks};
ghost use Rattle.sja_bus.specs.Inside.Refusing.{BusNodeStops};
ghost use Rattle.sja_bus.specs.Inside.RunningOn.{AreIdleFrom, AreToldFrom, SomeTold, TellsNone};

use super::bit_end::BitEnd;
use super::board::Board;
use super::bus_node::BusNode;
use super::row_frame::RowFrame;
use super::struck_nodes::StruckNodes;
use super::wire::{both, level_of, seen};
use can_levels::Level;
use sja_journal::BusFault;
use sja_link::BusEnd;

/// Takes all that the links show.
pub(crate) fn gather_all<E: BusEnd>(
    bus_nodes: &mut [BusNode],
    links: &mut [E],
) -> Result<(), BusFault>
    requires few { length bus_nodes.old ≤ 8 }
    requires ends { AreEnds E.node (length bus_nodes.old) links.old }
    requires ready { AreReady bus_nodes.old }
    ensures sames { EachRelated E.same links.old links.new }
    ensures ready { OnOk result (AreReady bus_nodes.new) }
    ensures goes { OnOk result (GoesAll E.same E.stands bus_nodes.old bus_nodes.new links.old links.new) }
    ensures items { OnOk result (EachBusNode BusNodeTakes bus_nodes.old bus_nodes.new) }
    ensures untold { OnOk result (EachBusNode BusNodeUntold bus_nodes.old bus_nodes.new) }
    ensures dry { OnOk result (AllRead E.dry bus_nodes.new links.new) }
    ensures rooms { (n : ℕ → Room) → HaveRoom n bus_nodes.old → HaveRoom n bus_nodes.new }
    ensures within { OnOk result (EachBusNode (BusNodeBegins E.links links.old) bus_nodes.old bus_nodes.new) }
    ensures refused { IfErr result (λ f. BusNodeRefuses E.BusEnd bus_nodes.old bus_nodes.new links.old links.new f) }
{
    for k in 0..bus_nodes.len() {
        bus_nodes[k].gather(&mut links[k])?;
    }
    Ok(())
}

/// One bit of all nodes, in which these are struck: what the links show is taken and what stands is aborted, all drive,
/// each sees the level, and the ports are told.
#[inline(never)]
pub(crate) fn bit_of_all<E: BusEnd, B: Board>(
    bus_nodes: &mut [BusNode],
    links: &mut [E],
    board: &mut B,
    struck: StruckNodes,
) -> Result<(), BusFault>
    requires on_bus { AreOnBus E.node bus_nodes.old links.old (B.ports board.old) }
    ensures board { KeepsOthers B.ports B.kept (length bus_nodes.old) board.old board.new }
    ensures sames { EachRelated E.same links.old links.new }
    ensures goes { OnOk result (GoesAll E.same E.stands bus_nodes.old bus_nodes.new links.old links.new) }
    ensures ready { OnOk result (AreReady bus_nodes.new) }
    ensures bit { OnOk result (IsRowBit (B.orders_are board.old)
        (B.told board.old board.new) (B.kept board.old board.new) struck bus_nodes.old bus_nodes.new) }
    ensures takes { OnOk result (RowTakesAll E.BusEnd bus_nodes.old bus_nodes.new links.old) }
    ensures rooms { (n : ℕ → Room) → HaveRoom n bus_nodes.old → HaveRoom n bus_nodes.new }
    ensures facts { OnOk result ((k : ℕ) → k < length bus_nodes.old → B.facts board.new k) }
    ensures within { OnOk result (EachBusNode (BusNodeBegins E.links links.old) bus_nodes.old bus_nodes.new) }
    ensures stops { IfErr result (λ f. (BusNodeRefuses E.BusEnd bus_nodes.old bus_nodes.new links.old links.new f
        ⊎ BusNodeFull E.BusEnd (B.orders_are board.old) bus_nodes.old bus_nodes.new links.old links.new f)
        ⊎ BusNodeStops E.BusEnd (B.orders_are board.old) bus_nodes.old bus_nodes.new links.old f) }
{
    open_all(bus_nodes, links, board)?;
    let level = level_of(bus_nodes);
    let mut row = RowFrame::none();
    sample_from(bus_nodes, links, level, struck, board, 0, &mut row)?;
    Ok(())
}

/// Takes all that the links show, and applies the aborts that stand.
#[inline(always)]
fn open_all<E: BusEnd, B: Board>(
    bus_nodes: &mut [BusNode],
    links: &mut [E],
    board: &B,
) -> Result<(), BusFault>
    requires few { length bus_nodes.old ≤ 8 }
    requires ends { AreEnds E.node (length bus_nodes.old) links.old }
    requires ready { AreReady bus_nodes.old }
    requires ports { length bus_nodes.old ≤ B.ports board.now }
    ensures sames { EachRelated E.same links.old links.new }
    ensures ready { OnOk result (AreReady bus_nodes.new) }
    ensures goes { OnOk result (GoesAll E.same E.stands bus_nodes.old bus_nodes.new links.old links.new) }
    ensures opens { OnOk result (EachBusNode (BusNodeOpens (B.orders_are board.now)) bus_nodes.old bus_nodes.new) }
    ensures untold { OnOk result (EachBusNode BusNodeOpensUntold bus_nodes.old bus_nodes.new) }
    ensures dry { OnOk result (AllRead E.dry bus_nodes.new links.new) }
    ensures rooms { (n : ℕ → Room) → HaveRoom n bus_nodes.old → HaveRoom n bus_nodes.new }
    ensures facts { OnOk result ((k : ℕ) → k < length bus_nodes.old → B.facts board.now k) }
    ensures within { OnOk result (EachBusNode (BusNodeBegins E.links links.old) bus_nodes.old bus_nodes.new) }
    ensures stops { IfErr result (λ f. BusNodeRefuses E.BusEnd bus_nodes.old bus_nodes.new links.old links.new f
        ⊎ BusNodeFull E.BusEnd (B.orders_are board.now) bus_nodes.old bus_nodes.new links.old links.new f) }
{
    for k in 0..bus_nodes.len() {
        bus_nodes[k].open_bit(&mut links[k], board)?;
    }
    Ok(())
}

/// The nodes from this one on have their bit, and see this level, or the other one where they are struck. Their ports
/// are told of it where there is something to tell. Answers whether one was told. What was so of those before goes on
/// to all.
#[inline(never)]
fn sample_from<E: BusEnd, B: Board>(
    bus_nodes: &mut [BusNode],
    links: &mut [E],
    level: Level,
    struck: StruckNodes,
    board: &mut B,
    first: usize,
    row: &mut RowFrame,
) -> Result<bool, BusFault>
    requires on_bus { AreOnBus E.node bus_nodes.old links.old (B.ports board.old) }
    ensures sames { EachRelated E.same links.old links.new }
    ensures rooms { (n : ℕ → Room) → HaveRoom n bus_nodes.old → HaveRoom n bus_nodes.new }
    ensures board { KeepsOthers B.ports B.kept (length bus_nodes.old) board.old board.new }
    ensures told { IfOk result (λ told. told ≡ true → AreToldFrom first bus_nodes.old →
        SomeTold (B.told board.old board.new) bus_nodes.new) }
    ensures idle { IfOk result (λ told. told ≡ false → (board.new ≡ board.old)
        × AreIdleFrom first struck level bus_nodes.old bus_nodes.new) }
    ensures before { OnOk result ((m : ℕ) → m < first → B.kept board.old board.new m
        × ((s : BusNodeValue) → slice_index_or bus_nodes.new m s ≡ slice_index_or bus_nodes.old m s)) }
    ensures row { OnOk result (GoesToAll E.BusEnd B.Board struck level first
        bus_nodes.old bus_nodes.new links.old links.new board.old board.new) }
    ensures broken { IfErr result (λ f. BreaksUnderway E.BusEnd B.Board struck level first
        bus_nodes.old bus_nodes.new links.old board.old f) }
{
    let mut told = false;
    for k in first..bus_nodes.len() {
        let sees = seen(level, struck.has(k));
        let one = bus_nodes[k].sample(&mut links[k], sees, board, row)?;
        told = told | one;
    }
    Ok(told)
}

/// The same, where something may happen to the first of them.
#[inline(never)]
fn tell_from<E: BusEnd, B: Board>(
    bus_nodes: &mut [BusNode],
    links: &mut [E],
    level: Level,
    struck: StruckNodes,
    board: &mut B,
    first: usize,
) -> Result<bool, BusFault>
    requires on_bus { AreOnBus E.node bus_nodes.old links.old (B.ports board.old) }
    requires few { first < length bus_nodes.old }
    requires told { AreToldFrom first bus_nodes.old }
    ensures sames { EachRelated E.same links.old links.new }
    ensures rooms { (n : ℕ → Room) → HaveRoom n bus_nodes.old → HaveRoom n bus_nodes.new }
    ensures board { KeepsOthers B.ports B.kept (length bus_nodes.old) board.old board.new }
    ensures told { IfOk result (λ told. told ≡ true → SomeTold (B.told board.old board.new) bus_nodes.new) }
    ensures idle { IfOk result (λ told. told ≡ false → (board.new ≡ board.old)
        × AreIdleFrom first struck level bus_nodes.old bus_nodes.new) }
    ensures before { OnOk result ((m : ℕ) (s : BusNodeValue) → m < first →
        slice_index_or bus_nodes.new m s ≡ slice_index_or bus_nodes.old m s) }
    ensures row { OnOk result (GoesToAll E.BusEnd B.Board struck level first
        bus_nodes.old bus_nodes.new links.old links.new board.old board.new) }
    ensures broken { IfErr result (λ f. BreaksUnderway E.BusEnd B.Board struck level first
        bus_nodes.old bus_nodes.new links.old board.old f) }
{
    let mut row = RowFrame::none();
    let sees = seen(level, struck.has(first));
    let one = bus_nodes[first].sample_and_tell(&mut links[first], sees, board, &mut row)?;
    let others = sample_from(bus_nodes, links, level, struck, board, first + 1, &mut row)?;
    Ok(one | others)
}

/// Each node has its bit, and sees this level, or the other one where it is struck. Its port is told of it where there
/// is something to tell. Answers what all drive together then, and whether some port was told.
#[inline(always)]
pub(crate) fn sample_all<E: BusEnd, B: Board>(
    bus_nodes: &mut [BusNode],
    links: &mut [E],
    level: Level,
    struck: StruckNodes,
    board: &mut B,
) -> Result<BitEnd, BusFault>
    requires on_bus { AreOnBus E.node bus_nodes.old links.old (B.ports board.old) }
    requires told { AreTold bus_nodes.old }
    requires free { AreFree 1 bus_nodes.old }
    ensures sames { EachRelated E.same links.old links.new }
    ensures ready { OnOk result (AreReady bus_nodes.new) }
    ensures goes { OnOk result (GoesAll E.same E.stands bus_nodes.old bus_nodes.new links.old links.new) }
    ensures board { KeepsOthers B.ports B.kept (length bus_nodes.old) board.old board.new }
    ensures turns { OnOk result (EachBusNode
        (BusNodeTurns (B.told board.old board.new) (B.kept board.old board.new) struck level) bus_nodes.old
        bus_nodes.new) }
    ensures rooms { (n : ℕ → Room) → HaveRoom n bus_nodes.old → HaveRoom n bus_nodes.new }
    ensures level { IfOk result (λ end. end.level ≡ wired (driven_by bus_nodes.new)) }
    ensures untold { IfOk result (λ end. end.told ≡ false → TellsNone bus_nodes.old bus_nodes.new board.old board.new) }
    ensures told { IfOk result (λ end. end.told ≡ true → SomeTold (B.told board.old board.new) bus_nodes.new) }
    ensures broken { IfErr result (λ f. BusNodeBreaks E.BusEnd bus_nodes.old bus_nodes.new links.old f) }
{
    let mut next = Level::Recessive;
    for k in 0..bus_nodes.len() {
        let sees = seen(level, struck.has(k));
        if !bus_nodes[k].sample_quietly(sees) {
            let told = tell_from(bus_nodes, links, level, struck, board, k)?;
            return Ok(BitEnd {
                level: level_of(bus_nodes),
                told,
            });
        }
        next = both(next, bus_nodes[k].drives);
    }
    Ok(BitEnd {
        level: next,
        told: false,
    })
}
