//! Lists with room, one for each node.

ghost use Rattle.std.specs.Prelude.{◌≡◌, ◌<◌, [], length, map, replicate, slice_index_or, IfOk};
ghost use Rattle.sja_session.specs.Writing.{with_more};

use can_frame::OutOfMemory;
use sja_journal::BoundedHistory;
use sja_steps::Step;
use std::alloc::Global;

/// Of so many nodes, each an empty list with room for so many.
///
/// Error: [`OutOfMemory`] where memory was refused.
pub(crate) fn empty_lists(
    alloc: Global,
    nodes: usize,
    room: u64,
) -> Result<Vec<BoundedHistory<Step>>, OutOfMemory>
    ensures lists { IfOk result (λ lists. map (λ list. list.items) lists.items ≡ replicate nodes []) }
    ensures room { IfOk result (λ lists. map (λ list. list.room) lists.items ≡ replicate nodes room) }
{
    let mut lists = Vec::with_capacity(alloc, nodes)?;
    for _ in 0..nodes {
        lists.push_reserved(BoundedHistory::new(alloc, room as usize)?);
    }
    Ok(lists)
}

/// One step more in the list of a node, for which there is room.
#[inline(always)]
pub(crate) fn push_step(lists: &mut Vec<BoundedHistory<Step>>, node: usize, step: Step)
    requires there { node < length lists.old.items }
    requires room { length (slice_index_or (map (λ steps. steps.items) lists.old.items) node [])
        < slice_index_or (map (λ steps. steps.room) lists.old.items) node 0 }
    ensures lists { map (λ steps. steps.items) lists.new.items
        ≡ with_more (map (λ steps. steps.items) lists.old.items) node step }
    ensures room { map (λ steps. steps.room) lists.new.items ≡ map (λ steps. steps.room) lists.old.items }
{
    lists[node].push(step);
}
