//! Refused memory: the report is whole, or it is told that memory was refused.
//!
//! Each part answers well with and without memory, so that each allocation can be made to fail under it.

use super::given::{enter, quiet, start};
use can_frame::{Message, OutOfMemory};
use sja_journal::{Entry, Journal, Recorder};
use sja_log::{End, NoLog, NodeRun, RunLog};
use std::alloc::Global;
use text_report::report;

const WHOLE: &str = "sja version 1 bits 20 end turns
node 0 tec 0 rec 0 steps 0
activation 1 stored 0 overrun 1 free 64
overrun 00 00 00
";

/// The journal of a node that lost one message.
fn journal(alloc: Global) -> Result<Journal, NoLog> {
    let mut journal = Recorder::new(alloc, 20, 1_000)?;
    enter(&mut journal, 0, start());
    enter(&mut journal, 0, Entry::Overrun(Message::default()));
    Ok(journal.into_journal()?)
}

/// That node.
fn node(alloc: Global) -> Result<NodeRun, NoLog> {
    let mut activations = Vec::with_capacity(alloc, 1)?;
    activations.push_reserved(quiet(alloc));
    let journal = journal(alloc)?;
    Ok(NodeRun::of(journal, 0, 0, Vec::new(alloc), activations))
}

/// The log of its run.
fn one_lost(alloc: Global) -> Result<RunLog, NoLog> {
    let mut nodes = Vec::with_capacity(alloc, 1)?;
    nodes.push_reserved(node(alloc)?);
    Ok(RunLog::of(1, 20, End::Turns, nodes))
}

/// Whether the report of a log is whole, where memory isn't refused.
fn is_whole(alloc: Global, log: &RunLog) -> bool {
    match report(alloc, log) {
        Ok(text) => text.as_str() == WHOLE,
        Err(refused) => refused == OutOfMemory,
    }
}

#[test]
fn refused_memory_gives_the_report_or_is_told(rt: HostRuntime) {
    match one_lost(rt.alloc()) {
        Ok(log) => assert!(rt; is_whole(rt.alloc(), &log)),
        Err(refused) => assert!(rt; refused == NoLog::Memory),
    }
}
