//! Texts of strikes.

ghost use Rattle.std.specs.Prelude.{◌≡◌, ◌≤◌, IfOk, IfErr, map};
ghost use Rattle.sja_plan_reading.specs.Words.{words};
ghost use Rattle.sja_plan_reading.specs.StrikeTexts.{AreRepeated, AreStrikeWords};

use super::document_limits::GREATEST_NUMBER;
use super::plan_text::PlanText;
use super::text_fault::TextFault;
use super::within::Within;
use super::word::{find_words, node_within, number_within};
use sja_steps::Strike;
use std::alloc::Global;

impl PlanText for Strike {
    ghost says = { λ within text s. AreStrikeWords within.nodes (words text) s };

    fn plan_text<'a>(
        alloc: Global,
        within: Within,
        text: &'a str,
        room: &mut Vec<&'a str>,
    ) -> Result<Strike, TextFault> {
        let _ = alloc;
        find_words(room, text)?;
        strike_of(within.nodes, room.as_slice())
    }
}

/// The strike of these words: of two words as of four of which the last two are 1.
pub(crate) fn strike_of(nodes: usize, words: &[&str]) -> Result<Strike, TextFault>
    requires { nodes ≤ 8 }
    ensures ok { IfOk result (λ s. AreStrikeWords nodes (map (λ w. w.now) words.now) s) }
    ensures err { IfErr result (λ e. (e ≡ TextFault.Bad)
        × ((s : Strike) → ¬ AreStrikeWords nodes (map (λ w. w.now) words.now) s)) }
{
    match *words {
        [node, bit] => strike_at(nodes, node, bit, "1", "1"),
        [node, bit, every, times] => strike_at(nodes, node, bit, every, times),
        _ => Err(TextFault::Bad),
    }
}

/// A strike of a node at a bit, every so many bits, so many times in all.
fn strike_at(
    nodes: usize,
    node: &str,
    bit: &str,
    every: &str,
    times: &str,
) -> Result<Strike, TextFault>
    requires { nodes ≤ 8 }
    ensures ok { IfOk result (λ s. AreRepeated nodes node.now bit.now every.now times.now s) }
    ensures err { IfErr result (λ e. (e ≡ TextFault.Bad)
        × ((s : Strike) → ¬ AreRepeated nodes node.now bit.now every.now times.now s)) }
{
    match (
        node_within(nodes, node),
        number_within(bit, 0, GREATEST_NUMBER),
        number_within(every, 1, GREATEST_NUMBER),
        number_within(times, 1, GREATEST_NUMBER),
    ) {
        (Ok(node), Ok(bit), Ok(every), Ok(times)) => Ok(Strike {
            node,
            bit: bit as u64,
            every,
            times,
        }),
        _ => Err(TextFault::Bad),
    }
}
