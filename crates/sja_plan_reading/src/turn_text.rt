//! Texts of turns.

ghost use Rattle.std.specs.Prelude.{◌≡◌, ◌≤◌, IfOk, IfErr, map, [], ◌∷◌};
ghost use Rattle.sja_plan_reading.specs.Words.{words};
ghost use Rattle.sja_plan_reading.specs.TurnTexts.{AreTurnWords};

use super::document_limits::GREATEST_NUMBER;
use super::plan_text::PlanText;
use super::text_fault::TextFault;
use super::within::Within;
use super::word::{find_words, node_within, number_within};
use sja_plan::{FIRST_BY_BYTES, Turn};
use std::alloc::Global;

impl PlanText for Turn {
    ghost says = { λ within text t. AreTurnWords within.version within.nodes (words text) t };

    fn plan_text<'a>(
        alloc: Global,
        within: Within,
        text: &'a str,
        room: &mut Vec<&'a str>,
    ) -> Result<Turn, TextFault> {
        let _ = alloc;
        find_words(room, text)?;
        turn_of(within.version, within.nodes, room.as_slice())
    }
}

/// The turn of these words.
fn turn_of(version: usize, nodes: usize, words: &[&str]) -> Result<Turn, TextFault>
    requires { nodes ≤ 8 }
    ensures ok { IfOk result (λ t. AreTurnWords version nodes (map (λ w. w.now) words.now) t) }
    ensures err { IfErr result (λ e. (e ≡ TextFault.Bad)
        × ((t : Turn) → ¬ AreTurnWords version nodes (map (λ w. w.now) words.now) t)) }
{
    match *words {
        [name] => of_one_word(version, nodes, name),
        [name, number] => of_two_words(version, nodes, name, number),
        [name, node, count] => of_three_words(version, nodes, name, node, count),
        _ => Err(TextFault::Bad),
    }
}

/// The turn of one word.
fn of_one_word(version: usize, nodes: usize, name: &str) -> Result<Turn, TextFault>
    ensures ok { IfOk result (λ t. AreTurnWords version nodes (name.now ∷ []) t) }
    ensures err { IfErr result (λ e. (e ≡ TextFault.Bad)
        × ((t : Turn) → ¬ AreTurnWords version nodes (name.now ∷ []) t)) }
{
    let _ = nodes;
    match name {
        "rest" => Ok(Turn::Rest),
        "go" if version >= usize::from(FIRST_BY_BYTES) => Ok(Turn::Go),
        _ => Err(TextFault::Bad),
    }
}

/// The turn of a name and a number: of bits, or of a node.
fn of_two_words(version: usize, nodes: usize, name: &str, number: &str) -> Result<Turn, TextFault>
    requires { nodes ≤ 8 }
    ensures ok { IfOk result (λ t. AreTurnWords version nodes (name.now ∷ number.now ∷ []) t) }
    ensures err { IfErr result (λ e. (e ≡ TextFault.Bad)
        × ((t : Turn) → ¬ AreTurnWords version nodes (name.now ∷ number.now ∷ []) t)) }
{
    match name {
        "bus" => Ok(Turn::Bus(number_within(number, 1, GREATEST_NUMBER)?)),
        "node" if version >= usize::from(FIRST_BY_BYTES) => Ok(Turn::All(node_within(
            nodes, number,
        )?)),
        _ => Err(TextFault::Bad),
    }
}

/// The turn of a name, a node and a number of steps or bits.
fn of_three_words(
    version: usize,
    nodes: usize,
    name: &str,
    node: &str,
    count: &str,
) -> Result<Turn, TextFault>
    requires { nodes ≤ 8 }
    ensures ok { IfOk result (λ t. AreTurnWords version nodes (name.now ∷ node.now ∷ count.now ∷ []) t) }
    ensures err { IfErr result (λ e. (e ≡ TextFault.Bad)
        × ((t : Turn) → ¬ AreTurnWords version nodes (name.now ∷ node.now ∷ count.now ∷ []) t)) }
{
    match name {
        "node" => Ok(Turn::Node(
            node_within(nodes, node)?,
            number_within(count, 0, GREATEST_NUMBER)?,
        )),
        "irq" if version >= usize::from(FIRST_BY_BYTES) => Ok(Turn::Irq(
            node_within(nodes, node)?,
            number_within(count, 1, GREATEST_NUMBER)?,
        )),
        _ => Err(TextFault::Bad),
    }
}
