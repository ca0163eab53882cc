//! Nodes with several activations: what belongs to which, and messages unread and overrun; what a log gives back.

use super::given::{activation, enter, message, one, quiet, several, start};
use can_frame::Message;
use sja_journal::{Entry, Journal, Recorder, Up};
use sja_log::{ActivationLog, End, NodeRun, RunLog};
use std::alloc::Global;
use std::test::Fail;
use text_report::report;

/// The log of a run of one node without steps.
fn log_of(
    alloc: Global,
    end: End,
    journal: Journal,
    activations: Vec<ActivationLog>,
) -> Result<RunLog, Fail> {
    let node = NodeRun::of(journal, 127, 255, Vec::new(alloc), activations);
    Ok(RunLog::of(2, 171, end, one(alloc, node)?))
}

/// The report of such a run.
fn render(
    alloc: Global,
    end: End,
    journal: Journal,
    activations: Vec<ActivationLog>,
) -> Result<String, Fail> {
    let log = log_of(alloc, end, journal, activations)?;
    Ok(report(alloc, &log)?)
}

/// A message of 13 bytes, 0x88 to 0xf3.
fn long_message() -> Result<Message, Fail> {
    Ok(Message::from_bytes(&[
        0x88, 0xfe, 0xfd, 0xfc, 0xf8, 0xfa, 0xf9, 0xf8, 0xf7, 0xf6, 0xf5, 0xf4, 0xf3,
    ])?)
}

const OVERRUN: &str = "sja version 2 bits 171 end bits
node 0 tec 127 rec 255 steps 0
activation 1 stored 1 overrun 0 free 51
unread 88 fe fd fc f8 fa f9 f8 f7 f6 f5 f4 f3
activation 2 stored 5 overrun 2 free 9
released 88 fe fd fc f8 fa f9 f8 f7 f6 f5 f4 f3
unread 88 fe fd fc f8 fa f9 f8 f7 f6 f5 f4 f3
unread 88 fe fd fc f8 fa f9 f8 f7 f6 f5 f4 f3
unread 88 fe fd fc f8 fa f9 f8 f7 f6 f5 f4 f3
unread 88 fe fd fc f8 fa f9 f8 f7 f6 f5 f4 f3
overrun 88 fe fd fc f8 fa f9 f8 f7 f6 f5 f4 f3
overrun 00 00 e0
";

/// One long message in a first activation; in a second one five of six, of which one is lost, and a short one is lost.
/// A credit of 10 is none that a driver gives, and is counted as it is.
fn overrun(alloc: Global, long: &Message) -> Result<Journal, Fail> {
    let mut journal = Recorder::new(alloc, 200, 1_000)?;
    let entries = &mut journal;
    enter(entries, 0, start());
    store(entries, long, 1);
    enter(entries, 1, start());
    store(entries, long, 4);
    lose(entries, long);
    enter(entries, 2, Entry::Up(Up::Credit(10)));
    store(entries, long, 1);
    lose_short(entries)?;
    enter(entries, 0, Entry::Off);
    Ok(journal.into_journal()?)
}

/// So many messages are stored, each behind nine bits.
fn store(journal: &mut Recorder, message: &Message, count: usize) {
    for _ in 0..count {
        enter(journal, 9, Entry::Stored(message.copy()));
    }
}

/// A message is lost behind nine bits.
fn lose(journal: &mut Recorder, message: &Message) {
    enter(journal, 9, Entry::Overrun(message.copy()));
}

/// So is the short one.
fn lose_short(journal: &mut Recorder) -> Result<(), Fail> {
    lose(journal, &message(7)?);
    Ok(())
}

/// The first activation left its message unread.
fn first(alloc: Global, long: &Message) -> Result<ActivationLog, Fail> {
    Ok(activation(Vec::new(alloc), several(alloc, long, 1)?))
}

/// The second released one and left four.
fn second(alloc: Global, long: &Message) -> Result<ActivationLog, Fail> {
    let released = several(alloc, long, 1)?;
    Ok(activation(released, several(alloc, long, 4)?))
}

/// Both activations.
fn both(alloc: Global, long: &Message) -> Result<Vec<ActivationLog>, Fail> {
    let mut list = Vec::new(alloc);
    list.push(first(alloc, long)?)?;
    list.push(second(alloc, long)?)?;
    Ok(list)
}

/// The report of both.
fn overrun_told(alloc: Global) -> Result<String, Fail> {
    let long = long_message()?;
    let activations = both(alloc, &long)?;
    render(alloc, End::Bits, overrun(alloc, &long)?, activations)
}

/// Overrun messages come last, and take no bytes.
#[test]
fn overrun_messages_are_told_after_the_unread_ones(rt: HostRuntime) -> Result<(), Fail> {
    let text = overrun_told(rt.alloc())?;
    assert!(rt; text.as_str() == OVERRUN);
    Ok(())
}

const NOT_BEGUN: &str = "sja version 2 bits 171 end turns
node 0 tec 127 rec 255 steps 0
activation 1 stored 0 overrun 0 free 64
released 00 00 00
";

/// A journal in which a message is stored without a start.
fn unstarted(alloc: Global) -> Result<Journal, Fail> {
    let message = message(1)?;
    let mut journal = Recorder::new(alloc, 200, 1_000)?;
    enter(&mut journal, 40, Entry::Stored(message));
    Ok(journal.into_journal()?)
}

/// Its report, of an activation of which one message was released.
fn not_begun(alloc: Global) -> Result<String, Fail> {
    let released = several(alloc, &Message::default(), 1)?;
    let activations = one(alloc, activation(released, Vec::new(alloc)))?;
    render(alloc, End::Turns, unstarted(alloc)?, activations)
}

/// An activation whose start the journal hasn't is told as one without entries.
#[test]
fn an_activation_without_a_start_has_nothing_stored(rt: HostRuntime) -> Result<(), Fail> {
    let text = not_begun(rt.alloc())?;
    assert!(rt; text.as_str() == NOT_BEGUN);
    Ok(())
}

/// An activation of which two messages were released and one was left unread.
fn two_and_one(alloc: Global) -> Result<ActivationLog, Fail> {
    let released = several(alloc, &Message::default(), 2)?;
    Ok(ActivationLog::of(released, several(alloc, &message(5)?, 1)?))
}

/// How many messages were released, and how many left unread.
fn numbers(log: &ActivationLog) -> (usize, usize) {
    (log.released().len(), log.unread().len())
}

/// An activation gives back what it was made of.
#[test]
fn an_activation_gives_back_its_parts(rt: HostRuntime) -> Result<(), Fail> {
    let log = two_and_one(rt.alloc())?;
    assert!(rt; numbers(&log) == (2, 1));
    Ok(())
}

/// A node that started after three bits, and in whose activation nothing came.
fn started(alloc: Global) -> Result<NodeRun, Fail> {
    let mut journal = Recorder::new(alloc, 20, 1_000)?;
    enter(&mut journal, 3, start());
    let activations = one(alloc, quiet(alloc))?;
    let journal = journal.into_journal()?;
    Ok(NodeRun::of(journal, 1, 2, Vec::new(alloc), activations))
}

/// Its error counters, and how many steps and activations it has.
fn numbers_of(node: &NodeRun) -> (u8, u8, usize, usize) {
    let (steps, activations) = (node.done().len(), node.activations().len());
    (node.txerr(), node.rxerr(), steps, activations)
}

/// Whether a start is the first entry before a bit.
fn begins_with_start(journal: &Journal) -> bool {
    journal.between_bits().next() == Some(start())
}

/// So does a node.
#[test]
fn a_node_gives_back_its_parts(rt: HostRuntime) -> Result<(), Fail> {
    let node = started(rt.alloc())?;
    assert!(rt; numbers_of(&node) == (1, 2, 0, 1));
    assert!(rt; begins_with_start(node.journal()));
    Ok(())
}

/// Whether the log has these parts.
fn are_parts(run: &RunLog) -> bool {
    run.version() == 1 && run.bits() == 3 && run.end() == End::Rest && run.nodes().len() == 1
}

/// So does a run.
#[test]
fn a_log_gives_back_its_parts(rt: HostRuntime) -> Result<(), Fail> {
    let nodes = one(rt.alloc(), started(rt.alloc())?)?;
    let run = RunLog::of(1, 3, End::Rest, nodes);
    assert!(rt; are_parts(&run));
    Ok(())
}
