//! The frames of a node, one bit after another.

ghost use Rattle.std.specs.Prelude.{◌≡◌, ◌++◌, [], Some, OnOk, IfOk};
ghost use Rattle.text_frames.specs.Passing.{GoesShort, Walks};
ghost use Rattle.text_frames.specs.FrameStories.{values_of};
ghost use Rattle.text_frames.specs.Inside.Walking.{story_if, Keeps, Goes, PutsFrames};

use super::open_frame::OpenFrame;
use super::started_frame::StartedFrame;
use super::starts::{belongs, belongs_short, started_by};
use sja_journal::Journal;
use sja_replay::{BitEvent, Replay, ShortBit};
use std::alloc::{AllocError, Global};

/// The frames that a node starts, in their order, behind others.
pub(crate) fn put_frames(
    alloc: Global,
    found: &mut Vec<StartedFrame>,
    node: usize,
    journal: &Journal,
) -> Result<(), AllocError>
    ensures { OnOk result (PutsFrames node journal.now.entries found.old.items found.new.items) }
{
    let mut replay = Replay::of(journal);
    let mut current = pass(found, node, &mut replay, None)?;
    while let Some(bit) = replay.next() {
        let next = go_on(alloc, found, node, current, &bit)?;
        current = pass(found, node, &mut replay, next)?;
    }
    close(found, node, current)?;
    Ok(())
}

/// Goes on past bits of which nothing is told, as far as each can be passed in short: a frame may go on with them, or
/// end.
fn pass(
    found: &mut Vec<StartedFrame>,
    node: usize,
    replay: &mut Replay<'_>,
    current: Option<OpenFrame>,
) -> Result<Option<OpenFrame>, AllocError>
    ensures { IfOk result (λ next. Walks node found.old.items found.new.items current next replay.old replay.new) }
{
    let mut current = current;
    while let Some(frame) = current {
        let number = replay.bits();
        let Some(bit) = replay.pass() else {
            return Ok(Some(frame));
        };
        current = take(found, node, frame, number, &bit)?;
    }
    replay.pass_silent();
    Ok(None)
}

/// The frame with such a bit, which has this number, where it belongs to it; with any other bit it is over.
fn take(
    found: &mut Vec<StartedFrame>,
    node: usize,
    frame: OpenFrame,
    number: u32,
    bit: &ShortBit,
) -> Result<Option<OpenFrame>, AllocError>
    ensures { IfOk result (λ next. GoesShort node number bit.now found.old.items found.new.items (Some frame) next) }
{
    let mut frame = frame;
    if belongs_short(frame.paused, bit) {
        frame.take_short(number, bit)?;
        return Ok(Some(frame));
    }
    found.push(frame.closed(node))?;
    Ok(None)
}

/// Goes on past a bit, with which a frame may go on, end or start.
fn go_on(
    alloc: Global,
    found: &mut Vec<StartedFrame>,
    node: usize,
    current: Option<OpenFrame>,
    bit: &BitEvent,
) -> Result<Option<OpenFrame>, AllocError>
    ensures { IfOk result (λ next. Goes node bit.now found.old.items found.new.items current next) }
{
    let current = keep(found, node, current, bit)?;
    match started_by(bit) {
        Some(frame) => {
            close(found, node, current)?;
            Ok(Some(OpenFrame::of(alloc, frame, bit)))
        }
        None => Ok(current),
    }
}

/// The frame with a bit that belongs to it; with any other bit it is over.
fn keep(
    found: &mut Vec<StartedFrame>,
    node: usize,
    current: Option<OpenFrame>,
    bit: &BitEvent,
) -> Result<Option<OpenFrame>, AllocError>
    ensures { IfOk result (λ next. Keeps node bit.now found.old.items found.new.items current next) }
{
    let Some(mut frame) = current else {
        return Ok(None);
    };
    if belongs(frame.paused, bit) {
        frame.take(bit)?;
        return Ok(Some(frame));
    }
    found.push(frame.closed(node))?;
    Ok(None)
}

/// A frame, if there is one, is over.
fn close(
    found: &mut Vec<StartedFrame>,
    node: usize,
    current: Option<OpenFrame>,
) -> Result<(), AllocError>
    ensures { OnOk result (values_of found.new.items ≡ values_of found.old.items ++ story_if node current []) }
{
    let Some(frame) = current else {
        return Ok(());
    };
    found.push(frame.closed(node))?;
    Ok(())
}
