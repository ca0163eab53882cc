//! [`frames`]: the list of the frames of a run.

ghost use Rattle.std.specs.Prelude.{◌≡◌, ◌++◌, string_bytes, IfOk, OnOk};
ghost use Rattle.text_report.specs.ReportLines.{numbered};
ghost use Rattle.text_frames.specs.FramesText.{IsFrameList, head_text, line_text};
ghost use Rattle.text_frames.specs.FrameStories.{value_of, values_of};

use super::field_texts::{put_fields, put_last};
use super::started_frame::StartedFrame;
use super::started_list::started_frames;
use can_frame::{Frame, OutOfMemory};
use sja_log::RunLog;
use std::alloc::{AllocError, Global};
use std::fmt::Write;
use text_trace::put_frame;

/// The frames that the nodes of a run start: a line for each, with the bits of its fields and its stuff bits, in the
/// order of the bits, and of nodes that start frames with one bit in that of the nodes. With `each` it has the bits of
/// each byte of data in place of those of the data field.
///
/// Each node's journal is gone over once. The frames are kept until the last one is known.
///
/// Error: [`OutOfMemory`] where memory was refused.
pub fn frames(alloc: Global, log: &RunLog, each: bool) -> Result<String, OutOfMemory>
    ensures { IfOk result (λ text. IsFrameList each log.now (string_bytes text)) }
{
    let found = started_frames(alloc, log)?;
    let text = text_of(alloc, found.as_slice(), each)?;
    Ok(text)
}

/// The text of frames.
fn text_of(alloc: Global, found: &[StartedFrame], each: bool) -> Result<String, AllocError>
    ensures { IfOk result (λ text. string_bytes text ≡ numbered (line_text each) 1 (values_of found.now)) }
{
    let mut text = String::new(alloc);
    let mut number = 1usize;
    for frame in found {
        put_line(alloc, &mut text, number, frame, each)?;
        number += 1;
    }
    Ok(text)
}

/// The line of a frame.
fn put_line(
    alloc: Global,
    text: &mut String,
    number: usize,
    frame: &StartedFrame,
    each: bool,
) -> Result<(), AllocError>
    ensures { OnOk result (string_bytes text.new ≡ string_bytes text.old
        ++ line_text each number (value_of frame.now)) }
{
    write!(text, "frame {number}")?;
    put_head(text, frame.node, &frame.frame, frame.sof)?;
    put_fields(
        alloc,
        text,
        (each, frame.frame.ext()),
        frame.bits.as_slice(),
    )?;
    put_last(text, frame.last)?;
    text.push_str("\n")
}

/// What the line of a frame says up to SOF.
fn put_head(text: &mut String, node: usize, frame: &Frame, sof: u32) -> Result<(), AllocError>
    ensures { OnOk result (string_bytes text.new ≡ string_bytes text.old ++ head_text node frame.now sof) }
{
    write!(text, " node {node} ")?;
    put_frame(text, frame)?;
    write!(text, ": SOF {sof}")
}
