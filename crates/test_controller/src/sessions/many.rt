//! The same calls many times.

use super::answer::Answer;
use super::calls::{number, step};
use super::receiving::received;
use sja_regs::address::SR;
use sja_session::Session;
use sja_steps::{Step, StepAnswer};

/// When a bit is run with each call.
#[derive(Clone, Copy, PartialEq, Eq)]
enum Bit {
    Never,
    Before,
    After,
}

/// How many of the same calls were done; none where these words are none of them.
///
/// `reads 0 1000`, so many reads of SR by node 0 with one value; `reads 0 1000 before`, each with a bit before it, and
/// `reads 0 1000 after`, behind it; `starts 1 8`, so many starts of node 1, each with a stop behind it; `restarts 1
/// 1000`, the same with a message of [`received`] in between; and `strikes 600 1000`, so many strikes of node 0 in one
/// bit after the other from bit 600 on, or `strikes 11 16 18`, each but the first 18 bits after the one before it.
pub fn many(session: &mut Session, name: &str, rest: &[&str]) -> Option<Answer> {
    let [first, second, more @ ..] = rest else {
        return None;
    };
    let (first, second) = (number(first)?, number(second)?);
    match name {
        "reads" => reads(session, u8::try_from(first).ok()?, second, bit_of(more)?),
        "starts" => starts(session, u8::try_from(first).ok()?, second),
        "restarts" => restarts(session, u8::try_from(first).ok()?, second),
        _ => strikes(session, first, second, apart_of(more)?),
    }
}

/// When a bit is run, as these words say.
fn bit_of(when: &[&str]) -> Option<Bit> {
    match when {
        [] => Some(Bit::Never),
        ["before"] => Some(Bit::Before),
        ["after"] => Some(Bit::After),
        _ => None,
    }
}

/// How many bits apart strikes are, as these words say.
fn apart_of(words: &[&str]) -> Option<u32> {
    match words {
        [] => Some(1),
        [apart] => number(apart),
        _ => None,
    }
}

/// So many reads of SR; how many were done, as the first one answers, before one wasn't.
fn reads(session: &mut Session, node: u8, count: u32, bit: Bit) -> Option<Answer> {
    let (mut done, mut first) = (0u32, None);
    for _ in 0..count {
        let value = read_behind(session, node, bit);
        if value.is_none() || (first.is_some() && first != value) {
            break;
        }
        first = value;
        if !is_run(session, bit, Bit::After) {
            break;
        }
        done = done.saturating_add(1);
    }
    Some(Answer::Times(done, first?))
}

/// What SR reads as, behind a bit where one is to be run before; nothing where it or the read isn't done.
fn read_behind(session: &mut Session, node: u8, bit: Bit) -> Option<u8> {
    if is_run(session, bit, Bit::Before) {
        read_one(session, node)
    } else {
        None
    }
}

/// Whether the bit that is to be run now, if one is, was run.
fn is_run(session: &mut Session, bit: Bit, now: Bit) -> bool {
    bit != now || session.bits(1) == Ok(1)
}

/// What SR reads as; nothing where the read isn't done.
fn read_one(session: &mut Session, node: u8) -> Option<u8> {
    session.read(node, SR).ok()
}

/// So many starts, each with a stop behind it; how many were done before one wasn't.
fn starts(session: &mut Session, node: u8, count: u32) -> Option<Answer> {
    let mut done = 0u32;
    for _ in 0..count {
        if !is_done(&step(session, node, Step::Start))
            || !is_done(&step(session, node, Step::Stop))
        {
            break;
        }
        done = done.saturating_add(1);
    }
    Some(Answer::Count(u64::from(done)))
}

/// So many starts with a message and a stop behind each; how many were done before one wasn't.
fn restarts(session: &mut Session, node: u8, count: u32) -> Option<Answer> {
    let mut done = 0u32;
    for number in 0..count {
        if !is_done(&step(session, node, Step::Start))
            || !received(session, node, number)
            || !is_done(&step(session, node, Step::Stop))
        {
            break;
        }
        done = done.saturating_add(1);
    }
    Some(Answer::Count(u64::from(done)))
}

/// Whether a step did what it says.
pub fn is_done(answer: &Answer) -> bool {
    matches!(answer, Answer::Step(StepAnswer::Done))
}

/// So many strikes of node 0, so many bits apart; how many were taken before one wasn't.
fn strikes(session: &mut Session, from: u32, count: u32, apart: u32) -> Option<Answer> {
    let (mut done, mut bit) = (0u32, from);
    for _ in 0..count {
        if session.strike(0, u64::from(bit)).is_err() {
            break;
        }
        done = done.saturating_add(1);
        bit = bit.saturating_add(apart);
    }
    Some(Answer::Count(u64::from(done)))
}
