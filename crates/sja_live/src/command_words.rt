//! What the words of a line ask for.

ghost use Rattle.std.specs.Prelude.{◌≡◌, ◌≤◌, ℕ, Bool, [], ◌∷◌, map, codes, IfOk, IfErr};
ghost use Rattle.sja_live.specs.Commands.{AreCommandWords};
ghost use Rattle.sja_live.specs.Inside.Reading.{IsCommandRefusal};

use super::bit_word::bit_of;
use super::command_refusal::CommandRefusal;
use super::line_fault::LineFault;
use super::live_command::LiveCommand;
use super::place_words::to_place_of;
use sja_plan_reading::{
    GREATEST_NUMBER, TextFault, address_of, node_within, number_within, step_of, value_of,
};
use std::alloc::Global;

/// What the words ask for, by this version of the rules, of a session without an end or with one, of so many nodes.
///
/// Errors: the first mistake in them; or memory was refused.
pub(crate) fn command_of(
    alloc: Global,
    version: usize,
    endless: bool,
    nodes: usize,
    words: &[&str],
) -> Result<LiveCommand, CommandRefusal>
    requires { nodes ≤ 8 }
    ensures ok { IfOk result (λ c. AreCommandWords version endless nodes (map (λ w. w.now) words.now) c) }
    ensures err { IfErr result (IsCommandRefusal version endless nodes (map (λ w. w.now) words.now)) }
{
    if words.len() >= 2 && words[0] == "step" {
        return step_of_node(alloc, version, nodes, words[1], &words[2..]);
    }
    if words.len() >= 2 && words[0] == "to" {
        return to_place_of(nodes, words[1], &words[2..]);
    }
    match *words {
        [name] => of_one_word(name),
        [name, word] => of_two_words(nodes, name, word),
        [name, node, word] => of_three_words(version, endless, nodes, name, node, word),
        [name, node, address, value] => of_four_words(version, nodes, name, node, address, value),
        _ => Err(CommandRefusal::Mistaken(LineFault::Command)),
    }
}

/// The step of a node: the words behind it.
fn step_of_node(
    alloc: Global,
    version: usize,
    nodes: usize,
    node: &str,
    rest: &[&str],
) -> Result<LiveCommand, CommandRefusal>
    requires { nodes ≤ 8 }
    ensures ok { (endless : Bool) → IfOk result (λ c.
        AreCommandWords version endless nodes (codes "step" ∷ node.now ∷ map (λ w. w.now) rest.now) c) }
    ensures err { (endless : Bool) → IfErr result
        (IsCommandRefusal version endless nodes (codes "step" ∷ node.now ∷ map (λ w. w.now) rest.now)) }
{
    let Ok(node) = node_within(nodes, node) else {
        return Err(CommandRefusal::Mistaken(LineFault::Node));
    };
    match step_of(alloc, version, rest) {
        Ok(step) => Ok(LiveCommand::Step(node, step)),
        Err(TextFault::NoMemory) => Err(CommandRefusal::Memory),
        Err(TextFault::Bad) => Err(CommandRefusal::Mistaken(LineFault::Step)),
    }
}

/// The command of one word.
fn of_one_word(name: &str) -> Result<LiveCommand, CommandRefusal>
    ensures ok { (version : ℕ) (endless : Bool) (nodes : ℕ) → IfOk result (λ c.
        AreCommandWords version endless nodes (name.now ∷ []) c) }
    ensures err { (version : ℕ) (endless : Bool) (nodes : ℕ) → IfErr result
        (IsCommandRefusal version endless nodes (name.now ∷ [])) }
{
    match name {
        "rest" => Ok(LiveCommand::Rest),
        "line" => Ok(LiveCommand::Line),
        "bits" => Ok(LiveCommand::Bits),
        "plan" => Ok(LiveCommand::Plan),
        "end" => Ok(LiveCommand::End),
        _ => Err(CommandRefusal::Mistaken(LineFault::Command)),
    }
}

/// The command of a name and the word behind it.
fn of_two_words(nodes: usize, name: &str, word: &str) -> Result<LiveCommand, CommandRefusal>
    requires few { nodes ≤ 8 }
    requires other { name.now ≡ codes "step" → ⊥ }
    requires no_way { name.now ≡ codes "to" → ⊥ }
    ensures ok { (version : ℕ) (endless : Bool) → IfOk result (λ c.
        AreCommandWords version endless nodes (name.now ∷ word.now ∷ []) c) }
    ensures err { (version : ℕ) (endless : Bool) → IfErr result
        (IsCommandRefusal version endless nodes (name.now ∷ word.now ∷ [])) }
{
    match name {
        "run" => match number_within(word, 0, GREATEST_NUMBER) {
            Ok(count) => Ok(LiveCommand::Run(count)),
            Err(_) => Err(CommandRefusal::Mistaken(LineFault::Number)),
        },
        "answer" => match node_within(nodes, word) {
            Ok(node) => Ok(LiveCommand::Answer(node)),
            Err(_) => Err(CommandRefusal::Mistaken(LineFault::Node)),
        },
        "place" => match node_within(nodes, word) {
            Ok(node) => Ok(LiveCommand::PlaceOf(node)),
            Err(_) => Err(CommandRefusal::Mistaken(LineFault::Node)),
        },
        _ => Err(CommandRefusal::Mistaken(LineFault::Command)),
    }
}

/// The command of a name, a node and the word behind it.
fn of_three_words(
    version: usize,
    endless: bool,
    nodes: usize,
    name: &str,
    node: &str,
    word: &str,
) -> Result<LiveCommand, CommandRefusal>
    requires few { nodes ≤ 8 }
    requires other { name.now ≡ codes "step" → ⊥ }
    requires no_way { name.now ≡ codes "to" → ⊥ }
    ensures ok { IfOk result (λ c. AreCommandWords version endless nodes (name.now ∷ node.now ∷ word.now ∷ []) c) }
    ensures err { IfErr result (IsCommandRefusal version endless nodes (name.now ∷ node.now ∷ word.now ∷ [])) }
{
    let is_read = name == "read";
    if !is_read && name != "strike" {
        return Err(CommandRefusal::Mistaken(LineFault::Command));
    }
    let Ok(node) = node_within(nodes, node) else {
        return Err(CommandRefusal::Mistaken(LineFault::Node));
    };
    if is_read {
        match address_of(version, word) {
            Ok(address) => Ok(LiveCommand::Read(node, address)),
            Err(_) => Err(CommandRefusal::Mistaken(LineFault::Address)),
        }
    } else {
        match bit_of(endless, word) {
            Some(bit) => Ok(LiveCommand::Strike(node, bit)),
            None => Err(CommandRefusal::Mistaken(LineFault::Number)),
        }
    }
}

/// The command of a name, a node, an address and a value.
fn of_four_words(
    version: usize,
    nodes: usize,
    name: &str,
    node: &str,
    address: &str,
    value: &str,
) -> Result<LiveCommand, CommandRefusal>
    requires few { nodes ≤ 8 }
    requires other { name.now ≡ codes "step" → ⊥ }
    requires no_way { name.now ≡ codes "to" → ⊥ }
    ensures ok { (endless : Bool) → IfOk result (λ c.
        AreCommandWords version endless nodes (name.now ∷ node.now ∷ address.now ∷ value.now ∷ []) c) }
    ensures err { (endless : Bool) → IfErr result
        (IsCommandRefusal version endless nodes (name.now ∷ node.now ∷ address.now ∷ value.now ∷ [])) }
{
    if name != "write" {
        return Err(CommandRefusal::Mistaken(LineFault::Command));
    }
    let Ok(node) = node_within(nodes, node) else {
        return Err(CommandRefusal::Mistaken(LineFault::Node));
    };
    let Ok(address) = address_of(version, address) else {
        return Err(CommandRefusal::Mistaken(LineFault::Address));
    };
    match value_of(version, address, value) {
        Ok(value) => Ok(LiveCommand::Write(node, address, value)),
        Err(_) => Err(CommandRefusal::Mistaken(LineFault::Byte)),
    }
}
