//! [`Document`]: what is read in the figures of plans.

use super::long::{filled, list};
use sja_plan::MOST_STRIKES;
use sja_plan_reading::MOST_BYTES;
use std::alloc::{AllocError, Global};

/// What a document of 65,536 bytes has most of.
#[derive(Clone, Copy)]
pub enum Document {
    /// Steps, turns and strikes.
    Steps,
    /// Comment lines.
    Comments,
    /// Numbers, in the place of turns.
    Numbers,
    /// Words, in one turn.
    Words,
    /// Tables, in the place of nodes.
    Tables,
}

impl Document {
    /// The document as it is written.
    pub fn text(self, alloc: Global) -> Result<String, AllocError> {
        let mut text = String::from_str(alloc, "version = 2\nbits = 200000\n")?;
        match self {
            Document::Steps => push_plan(alloc, &mut text)?,
            Document::Comments => text.push_str(ONE_NODE)?,
            Document::Numbers => push_turns(alloc, &mut text, &["7"], 32_700)?,
            Document::Words => push_words(&mut text, 32_700)?,
            Document::Tables => push_list(alloc, &mut text, "node", &["{a=7}"], 10_900)?,
        }
        filled(text, MOST_BYTES)
    }
}

/// The line of one node with one step.
const ONE_NODE: &str = "node = [{ steps = [\"start\"] }]\n";

/// Writes a key whose value is the list of so many items, by turns of these.
fn push_list(
    alloc: Global,
    text: &mut String,
    key: &str,
    items: &[&str],
    count: u32,
) -> Result<(), AllocError> {
    text.push_str(key)?;
    text.push_str(" = [")?;
    text.push_str(list(alloc, items, count)?.as_str())?;
    text.push_str("]\n")
}

/// Writes one node, and as its turns so many items.
fn push_turns(
    alloc: Global,
    text: &mut String,
    items: &[&str],
    count: u32,
) -> Result<(), AllocError> {
    text.push_str(ONE_NODE)?;
    push_list(alloc, text, "turns", items, count)
}

/// Writes one node, and one turn of so many words.
fn push_words(text: &mut String, count: u32) -> Result<(), AllocError> {
    text.push_str(ONE_NODE)?;
    text.push_str("turns = [\"")?;
    for _ in 0..count {
        text.push_str("x ")?;
    }
    text.push_str("\"]\n")
}

/// Writes eight nodes with 900 steps each, 1,000 turns and 1,000 strikes: as many texts as there is room for.
fn push_plan(alloc: Global, text: &mut String) -> Result<(), AllocError> {
    push_list(alloc, text, "turns", &["\"rest\""], 1_000)?;
    push_list(alloc, text, "faults", &["\"0 1\""], MOST_STRIKES)?;
    for _ in 0..8u32 {
        text.push_str("[[node]]\n")?;
        push_list(alloc, text, "steps", &["\"stop\"", "\"sent\""], 900)?;
    }
    Ok(())
}
