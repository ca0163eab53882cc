//! [`started_frames`]: the frames of a run.

ghost use Rattle.std.specs.Prelude.{◌≡◌, IfOk};
ghost use Rattle.std.specs.List.Sorted.{IsPermutation, IsSorted};
ghost use Rattle.text_frames.specs.FrameStories.{order, AreFrames, values_of};
ghost use Rattle.text_frames.specs.Inside.Walking.{HaveFrames};

use super::started_frame::StartedFrame;
use super::walk::put_frames;
use can_frame::OutOfMemory;
use sja_log::{NodeRun, RunLog};
use std::alloc::{AllocError, Global};

/// The frames that the nodes of a run start, by SOF, and of nodes that start frames with one bit by node.
///
/// Each node's journal is gone over once.
///
/// Error: [`OutOfMemory`] where memory was refused.
pub fn started_frames(alloc: Global, log: &RunLog) -> Result<Vec<StartedFrame>, OutOfMemory>
    ensures { IfOk result (λ found. AreFrames log.now (values_of found.items)) }
{
    let found = frames_of(alloc, log.nodes())?;
    let ordered = in_order(found)?;
    Ok(ordered)
}

/// The frames of all nodes.
fn frames_of(alloc: Global, nodes: &[NodeRun]) -> Result<Vec<StartedFrame>, AllocError>
    ensures { IfOk result (λ found. HaveFrames nodes.now found.items) }
{
    let mut found = Vec::new(alloc);
    let mut number = 0usize;
    for node in nodes {
        put_frames(alloc, &mut found, number, node.journal())?;
        number += 1;
    }
    Ok(found)
}

/// Frames by SOF, and then by node.
fn in_order(found: Vec<StartedFrame>) -> Result<Vec<StartedFrame>, AllocError>
    ensures same { IfOk result (λ ordered. IsPermutation (values_of found.items) (values_of ordered.items)) }
    ensures ordered { IfOk result (λ ordered. IsSorted order (values_of ordered.items)) }
{
    let mut found = found;
    found.sort_by_key(|frame| (frame.sof, frame.node))?;
    Ok(found)
}
