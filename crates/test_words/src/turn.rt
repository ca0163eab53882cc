//! A bit of the bus in words.
//!
//! Without words it is one of the first activation without events: error counters at 0, a receiver on an idle bus. A
//! word says what is otherwise: a phase, as `frame`; one of [`FLAGS`]; or a name and what it is, as `tx=60` and
//! `fault=Form/EndOfFrame`.

use super::{byte, named};
use can_levels::Segment;
use can_node_rules::{BitEvents, Cause, Outcome, Phase};
use sja_regs::BusTurn;
use test_frames::segments::SEGMENTS;

const PHASES: [(&str, Phase); 8] = [
    ("reset", Phase::Reset),
    ("waiting", Phase::Waiting),
    ("idle", Phase::Idle),
    ("frame", Phase::Frame),
    ("flag", Phase::Flag),
    ("delimiter", Phase::Delimiter),
    ("intermission", Phase::Intermission),
    ("suspension", Phase::Suspension),
];

/// Something that a bit has.
#[derive(Clone, Copy)]
enum Flag {
    Sending,
    Sent,
    Failed,
    Off,
    WentOff,
    Recovered,
    Aborted,
    Overrun,
}

const FLAGS: [(&str, Flag); 8] = [
    ("sending", Flag::Sending),
    ("sent", Flag::Sent),
    ("failed", Flag::Failed),
    ("off", Flag::Off),
    ("went_off", Flag::WentOff),
    ("recovered", Flag::Recovered),
    ("aborted", Flag::Aborted),
    ("overrun", Flag::Overrun),
];

const CAUSES: [(&str, Cause); 5] = [
    ("Bit", Cause::Bit),
    ("Stuff", Cause::Stuff),
    ("Form", Cause::Form),
    ("Crc", Cause::Crc),
    ("Ack", Cause::Ack),
];

/// The bit that these words say; none where a word says nothing.
pub fn turn_of(words: &[&str]) -> Option<BusTurn> {
    let mut turn = quiet();
    for word in words {
        match word.split_once('=') {
            Some(("fault", fault)) => turn.events.fault = Some(fault_of(fault)?),
            Some((name, value)) => set(&mut turn, name, byte(value)?)?,
            None => match named(&PHASES, word) {
                Some(phase) => turn.phase = phase,
                None => raise(&mut turn, named(&FLAGS, word)?),
            },
        }
    }
    Some(turn)
}

/// A bit of the first activation without events.
fn quiet() -> BusTurn {
    BusTurn {
        activation: 1,
        events: BitEvents {
            received: None,
            ended: None,
            lost: None,
            fault: None,
            receiving: true,
            went_off: false,
            recovered: false,
        },
        txerr: 0,
        rxerr: 0,
        off: false,
        phase: Phase::Idle,
        aborted: false,
        overrun: false,
    }
}

/// Sets what has this name; none where nothing has it.
fn set(turn: &mut BusTurn, name: &str, value: u8) -> Option<()> {
    match name {
        "activation" => turn.activation = u64::from(value),
        "lost" => turn.events.lost = Some(value),
        "rx" => turn.rxerr = value,
        "tx" => turn.txerr = value,
        _ => return None,
    }
    Some(())
}

/// Sets a flag.
fn raise(turn: &mut BusTurn, flag: Flag) {
    match flag {
        Flag::Sending => turn.events.receiving = false,
        Flag::Sent => turn.events.ended = Some(Outcome::Sent),
        Flag::Failed => turn.events.ended = Some(Outcome::Failed),
        Flag::Off => turn.off = true,
        Flag::WentOff => turn.events.went_off = true,
        Flag::Recovered => turn.events.recovered = true,
        Flag::Aborted => turn.aborted = true,
        Flag::Overrun => turn.overrun = true,
    }
}

/// A fault: its cause, and the segment that it was in.
fn fault_of(word: &str) -> Option<(Cause, Segment)> {
    let (cause, segment) = word.split_once('/')?;
    Some((named(&CAUSES, cause)?, named(&SEGMENTS, segment)?))
}
