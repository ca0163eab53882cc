//! Each address of a node, one after the other, and reset mode left and entered again.

use super::bench::say;
use super::calls::{node_of, number, read_at, write_at};
use sja_regs::address::MOD;
use sja_session::Session;
use std::alloc::{AllocError, Global};
use test_words::byte;

/// `all 0`, a read of each address of node 0, from 00 to ff; `fill 0 55`, a write of 55 to each, from ff down to 00;
/// and `cycle 0 8`, so often reset mode is left and entered again, and MOD is read behind each write.
pub fn swept(
    alloc: Global,
    text: &mut String,
    session: &mut Session,
    words: &[&str],
) -> Result<(), AllocError> {
    match words {
        ["all", node] => reads_all(alloc, text, session, node_of(node)),
        ["fill", node, value] => fills(alloc, text, session, node_of(node), byte(value)),
        ["cycle", node, count] => cycles(alloc, text, session, node_of(node), number(count)),
        _ => text.push_str(" ?"),
    }
}

/// Reads each address of a node.
fn reads_all(
    alloc: Global,
    text: &mut String,
    session: &mut Session,
    node: Option<u8>,
) -> Result<(), AllocError> {
    let Some(node) = node else {
        return text.push_str(" ?");
    };
    for address in 0..=255u8 {
        say(alloc, text, read_at(session, node, address))?;
    }
    Ok(())
}

/// Writes a value to each address of a node.
fn fills(
    alloc: Global,
    text: &mut String,
    session: &mut Session,
    node: Option<u8>,
    value: Option<u8>,
) -> Result<(), AllocError> {
    let (Some(node), Some(value)) = (node, value) else {
        return text.push_str(" ?");
    };
    for address in 0..=255u8 {
        say(alloc, text, write_at(session, node, 255 - address, value))?;
    }
    Ok(())
}

/// Leaves reset mode and enters it again so often, and reads MOD behind each write.
fn cycles(
    alloc: Global,
    text: &mut String,
    session: &mut Session,
    node: Option<u8>,
    count: Option<u32>,
) -> Result<(), AllocError> {
    let (Some(node), Some(count)) = (node, count) else {
        return text.push_str(" ?");
    };
    for _ in 0..count {
        for mode in [0x00, 0x01] {
            say(alloc, text, write_at(session, node, MOD, mode))?;
            say(alloc, text, read_at(session, node, MOD))?;
        }
    }
    Ok(())
}
