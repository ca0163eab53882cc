//! The texts of steps, turns and strikes.

ghost use Rattle.std.specs.Prelude.{◌≡◌, IfOk, string_bytes};
ghost use Rattle.sja_plan_text.specs.Texts.{named_text, turn_text, strike_text};

use super::names::{address_word, message_word, read_name, value_word, written_name};
use can_frame::OutOfMemory;
use sja_plan::Turn;
use sja_steps::{Step, Strike, step_text};
use std::alloc::Global;

/// The address of CMR, which a `command` writes (SJA1000 data sheet, 6.4.4).
const COMMAND: u8 = 1;

/// The text of a driver's step with names, as a plan of version 3 spells it: an address as the name of its register, a
/// value as those of its bits, a message in can-utils' notation. What has no name is written as
/// [`step_text`](sja_steps::step_text) does.
///
/// In version 3 it says the step where a text can, by [`has_step_text`](crate::has_step_text). Error: memory was
/// refused (this project's own rule).
pub fn named_text(alloc: Global, step: &Step) -> Result<String, OutOfMemory>
    ensures { IfOk result (λ t. string_bytes t ≡ named_text step.now) }
{
    match step {
        Step::Read(address) => {
            let address = address_word(alloc, read_name(*address), *address)?;
            Ok(format!(in alloc; "read {address}")?)
        }
        Step::Write(address, value) => {
            let value = value_word(alloc, *address, *value)?;
            let address = address_word(alloc, written_name(*address), *address)?;
            Ok(format!(in alloc; "write {address} {value}")?)
        }
        Step::Load(message) => {
            let message = message_word(alloc, message)?;
            Ok(format!(in alloc; "load {message}")?)
        }
        Step::Command(value) => {
            let value = value_word(alloc, COMMAND, *value)?;
            Ok(format!(in alloc; "command {value}")?)
        }
        _ => step_text(alloc, step),
    }
}

/// The text of a serial run's turn, as a plan spells it.
///
/// It says the turn where a text can, by [`has_turn_text`](crate::has_turn_text), in each plan that has its node. The
/// text of another turn says nothing. Error: memory was refused (this project's own rule).
pub fn turn_text(alloc: Global, turn: &Turn) -> Result<String, OutOfMemory>
    ensures { IfOk result (λ t. string_bytes t ≡ turn_text turn.now) }
{
    match turn {
        Turn::Bus(bits) => Ok(format!(in alloc; "bus {bits}")?),
        Turn::Rest => Ok(String::from_str(alloc, "rest")?),
        Turn::Node(node, steps) => Ok(format!(in alloc; "node {node} {steps}")?),
        Turn::All(node) => Ok(format!(in alloc; "node {node}")?),
        Turn::Irq(node, bits) => Ok(format!(in alloc; "irq {node} {bits}")?),
        Turn::Go => Ok(String::from_str(alloc, "go")?),
    }
}

/// The text of a strike, as a plan spells it: two numbers where it strikes one bit, at a distance of 1, and else four.
///
/// It says the strike where a text can, by [`has_strike_text`](crate::has_strike_text), in each plan that has its node.
/// The text of another strike says nothing. Error: memory was refused (this project's own rule).
pub fn strike_text(alloc: Global, strike: &Strike) -> Result<String, OutOfMemory>
    ensures { IfOk result (λ t. string_bytes t ≡ strike_text strike.now) }
{
    let Strike {
        node,
        bit,
        every,
        times,
    } = *strike;
    if every == 1 && times == 1 {
        Ok(format!(in alloc; "{node} {bit}")?)
    } else {
        Ok(format!(in alloc; "{node} {bit} {every} {times}")?)
    }
}
