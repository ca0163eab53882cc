//! Calls of a session in words.

use super::answer::Answer;
use super::bench::say_asked;
use super::many::many;
use sja_plan::Place;
use sja_plan_reading::{place_of_word, place_of_words};
use sja_session::{Session, StepOutcome};
use sja_steps::Step;
use std::alloc::{AllocError, Global};
use test_words::{address, byte, step_of};

/// The number that a word of decimal digits is.
pub fn number(word: &str) -> Option<u32> {
    word.parse::<u32>().ok()
}

/// The node, or the version, that a word of decimal digits is: 0 to 255.
pub fn node_of(word: &str) -> Option<u8> {
    word.parse::<u8>().ok()
}

/// What a call answers; none where it is none.
///
/// `bits 7`, `rest`, `watch 400 0 1` with the nodes that are watched, `rises 400 1` the same with whose line rose
/// alone, `now`, `room`, `irq 0`, `answer 0`, `place 0`, `strike 1 51`, `to 200 1 data 2.3` at most so many bits up to
/// that place of node 1, `mask 1 IR 02` a read and of it these bits, a
/// step behind its node as `0 read SR`, and those of `many`.
pub fn called(session: &mut Session, words: &[&str]) -> Option<Answer> {
    let [name, rest @ ..] = words else {
        return None;
    };
    match *name {
        "reads" | "starts" | "restarts" | "strikes" => many(session, name, rest),
        "watch" | "rises" => watched(session, name, rest),
        "irq" | "answer" | "place" => of_node(session, name, rest),
        "to" => runs_to(session, rest),
        "strike" => strike(session, rest),
        _ if rest.is_empty() => of_session(session, name),
        "mask" => masked(session, rest),
        "bits" => runs(session, rest),
        node => stepped(session, node, rest),
    }
}

/// What a call without more words answers.
fn of_session(session: &mut Session, name: &str) -> Option<Answer> {
    match name {
        "rest" => Some(match session.rest() {
            Ok(rested) => Answer::Rested(rested),
            Err(fault) => Answer::NoTurn(fault),
        }),
        "now" => Some(Answer::Count(session.now())),
        "room" => Some(Answer::Room(session.room())),
        _ => None,
    }
}

/// What a call of a node answers.
fn of_node(session: &mut Session, name: &str, rest: &[&str]) -> Option<Answer> {
    let [node] = rest else {
        return None;
    };
    let node = node_of(node)?;
    match name {
        "irq" => Some(match session.irq(node) {
            Some(active) => Answer::Said(active),
            None => Answer::Nothing,
        }),
        "place" => Some(match session.place(node) {
            Some(place) => Answer::At(place),
            None => Answer::Nothing,
        }),
        _ => Some(match session.answer(node) {
            Some(answer) => Answer::Step(answer),
            None => Answer::Nothing,
        }),
    }
}

/// Runs bits.
fn runs(session: &mut Session, rest: &[&str]) -> Option<Answer> {
    let [count] = rest else {
        return None;
    };
    Some(match session.bits(number(count)?) {
        Ok(bits) => Answer::Count(u64::from(bits)),
        Err(fault) => Answer::NoTurn(fault),
    })
}

/// Runs bits up to a place of a node.
fn runs_to(session: &mut Session, rest: &[&str]) -> Option<Answer> {
    let [limit, node, place @ ..] = rest else {
        return None;
    };
    let reached = session.to_place(node_of(node)?, place_in(place)?, number(limit)?);
    Some(match reached {
        Ok(reached) => Answer::Reached(reached),
        Err(fault) => Answer::NoWay(fault),
    })
}

/// The place of these words.
fn place_in(words: &[&str]) -> Option<Place> {
    match words {
        [name] => place_of_word(name),
        [name, more] => place_of_words(name, more),
        _ => None,
    }
}

/// Runs bits until the line of one of these nodes rises.
fn watched(session: &mut Session, name: &str, rest: &[&str]) -> Option<Answer> {
    let [count, nodes @ ..] = rest else {
        return None;
    };
    match session.watch(number(count)?, flags_of(nodes)?) {
        Ok(watched) if name == "rises" => Some(Answer::Rose(watched.rose)),
        Ok(watched) => Some(Answer::Watched(watched)),
        Err(fault) => Some(Answer::NoTurn(fault)),
    }
}

/// The nodes of these words, by node.
fn flags_of(nodes: &[&str]) -> Option<[bool; 8]> {
    let mut flags = [false; 8];
    for node in nodes {
        let flag = flags.get_mut(usize::from(node_of(node)?))?;
        *flag = true;
    }
    Some(flags)
}

/// Strikes a bit.
fn strike(session: &mut Session, rest: &[&str]) -> Option<Answer> {
    let [node, bit] = rest else {
        return None;
    };
    Some(
        match session.strike(node_of(node)?, bit.parse::<u64>().ok()?) {
            Ok(()) => Answer::Done,
            Err(fault) => Answer::NoStrike(fault),
        },
    )
}

/// Does a step of a node, whose last answer is its answer then.
fn stepped(session: &mut Session, node: &str, words: &[&str]) -> Option<Answer> {
    let node = node_of(node)?;
    Some(step(session, node, step_of(words)?))
}

/// Does a step.
pub fn step(session: &mut Session, node: u8, step: Step) -> Answer {
    match session.step(node, step) {
        Ok(StepOutcome::Answer(answer)) if session.answer(node).as_ref() == Some(&answer) => {
            Answer::Step(answer)
        }
        Ok(StepOutcome::Answer(answer)) => Answer::OtherLast(answer),
        Ok(StepOutcome::Waits) => Answer::Waits,
        Err(fault) => Answer::NoStep(fault),
    }
}

/// `read 0 SR IR ..` and `write 0 IER 01 MOD 00 ..`: bytes at addresses of a node, one after the other.
pub fn byte_by_byte(
    alloc: Global,
    text: &mut String,
    session: &mut Session,
    words: &[&str],
) -> Result<(), AllocError> {
    match words {
        ["read", node, addresses @ ..] => reads(alloc, text, session, node, addresses),
        [_, node, words @ ..] => writes(alloc, text, session, node, words),
        _ => text.push_str(" ?"),
    }
}

/// Reads addresses of a node, one after the other.
fn reads(
    alloc: Global,
    text: &mut String,
    session: &mut Session,
    node: &str,
    addresses: &[&str],
) -> Result<(), AllocError> {
    for word in addresses {
        say_asked(alloc, text, read(session, node, word))?;
    }
    Ok(())
}

/// Writes values behind their addresses, one after the other.
fn writes(
    alloc: Global,
    text: &mut String,
    session: &mut Session,
    node: &str,
    words: &[&str],
) -> Result<(), AllocError> {
    for pair in words.chunks(2) {
        say_asked(alloc, text, write_register(session, node, pair))?;
    }
    Ok(())
}

/// What an address of a node reads as.
fn read(session: &mut Session, node: &str, word: &str) -> Option<Answer> {
    Some(read_at(session, node_of(node)?, address(word)?))
}

/// What this address of a node reads as.
pub fn read_at(session: &mut Session, node: u8, address: u8) -> Answer {
    match session.read(node, address) {
        Ok(value) => Answer::Byte(value),
        Err(fault) => Answer::NoStep(fault),
    }
}

/// What an address of a node reads as, and of that these bits alone.
fn masked(session: &mut Session, rest: &[&str]) -> Option<Answer> {
    let [node, addr, mask] = rest else {
        return None;
    };
    let mask = byte(mask)?;
    Some(match session.read(node_of(node)?, address(addr)?) {
        Ok(value) => Answer::Byte(value & mask),
        Err(fault) => Answer::NoStep(fault),
    })
}

/// What a write of a value behind its address answers.
fn write_register(session: &mut Session, node: &str, pair: &[&str]) -> Option<Answer> {
    let [addr, value] = pair else {
        return None;
    };
    let value = byte(value)?;
    Some(write_at(session, node_of(node)?, address(addr)?, value))
}

/// What a write of this value to an address of a node answers.
pub fn write_at(session: &mut Session, node: u8, address: u8, value: u8) -> Answer {
    match session.write(node, address, value) {
        Ok(()) => Answer::Done,
        Err(fault) => Answer::NoStep(fault),
    }
}
