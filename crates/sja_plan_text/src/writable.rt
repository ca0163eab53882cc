//! Whether a plan can be written at all.

ghost use Rattle.std.specs.Prelude.{◌↔◌, ◌≤◌, IsTrue, All, length};
ghost use Rattle.sja_plan.specs.Limits.{most_steps};
ghost use Rattle.sja_plan_text.specs.HasTexts.{HasStepText, HasTurnText, HasStrikeText, HasTexts};

use sja_plan::{FIRST_BY_BYTES, MOST_BITS_BY_BYTES, Plan, Turn, most_steps};
use sja_plan_reading::GREATEST_NUMBER;
use sja_steps::{Step, Strike};

/// Whether no node of a plan has more steps than a document may have, and each of its steps, turns and strikes has a
/// text that says it. So it is for each plan that was read ([`a_plan_has_texts`](crate::a_plan_has_texts)), and for
/// each other one whose numbers texts can spell (this project's own rule).
pub fn has_texts(plan: &Plan) -> bool
    ensures { IsTrue result ↔ HasTexts plan.now }
{
    for node in 0..plan.nodes() {
        if !steps_have_texts(plan.version(), plan.steps(node)) {
            return false;
        }
    }
    turns_have_texts(plan.version(), plan.turns()) && strikes_have_texts(plan.strikes())
}

/// Whether in this version a document may have so many steps of a node, and a text says each of them.
fn steps_have_texts(version: u8, steps: &[Step]) -> bool
    ensures { IsTrue result ↔ ((length steps.now ≤ most_steps version) × All (HasStepText version) steps.now) }
{
    if steps.len() > most_steps(version) {
        return false;
    }
    for step in steps {
        if !has_step_text(version, step) {
            return false;
        }
    }
    true
}

/// Whether in this version a text says each of these turns.
fn turns_have_texts(version: u8, turns: &[Turn]) -> bool
    ensures { IsTrue result ↔ All (HasTurnText version) turns.now }
{
    for turn in turns {
        if !has_turn_text(version, turn) {
            return false;
        }
    }
    true
}

/// Whether a text says each of these strikes.
fn strikes_have_texts(strikes: &[Strike]) -> bool
    ensures { IsTrue result ↔ All HasStrikeText strikes.now }
{
    for strike in strikes {
        if !has_strike_text(strike) {
            return false;
        }
    }
    true
}

/// Whether in this version a text says this step: all but an `Await` of 0 or of more than 21 messages, an `At` of more
/// bits than a run has, and an `Interrupt` and an `At` before version 3 (this project's own rule).
pub fn has_step_text(version: u8, step: &Step) -> bool
    ensures { IsTrue result ↔ HasStepText version step.now }
{
    // Bytes and messages are read, and not judged: what their types say of them is known by that.
    match step {
        Step::Start | Step::Stop | Step::Window | Step::Release | Step::Sent => true,
        Step::Read(address) => {
            let _address = *address;
            true
        }
        Step::Write(address, value) => {
            let (_address, _value) = (*address, *value);
            true
        }
        Step::Load(message) => {
            let _frame = message.frame();
            true
        }
        Step::Command(value) => {
            let _value = *value;
            true
        }
        Step::Await(count) => 1 <= *count && *count <= 21,
        Step::Interrupt => version >= FIRST_BY_BYTES,
        Step::At(bits) => version >= FIRST_BY_BYTES && *bits <= MOST_BITS_BY_BYTES,
    }
}

/// Whether in this version a text says this turn: its numbers have seven digits at most, the bus runs a bit, and before
/// version 3 it is one of `Bus`, `Rest` and `Node` (this project's own rule).
pub fn has_turn_text(version: u8, turn: &Turn) -> bool
    ensures { IsTrue result ↔ HasTurnText version turn.now }
{
    match turn {
        Turn::Bus(bits) => 1 <= *bits && *bits <= GREATEST_NUMBER,
        Turn::Rest => true,
        Turn::Node(node, steps) => {
            let _node = *node;
            *steps <= GREATEST_NUMBER
        }
        Turn::All(node) => {
            let _node = *node;
            version >= FIRST_BY_BYTES
        }
        Turn::Irq(node, bits) => {
            let _node = *node;
            version >= FIRST_BY_BYTES && 1 <= *bits && *bits <= GREATEST_NUMBER
        }
        Turn::Go => version >= FIRST_BY_BYTES,
    }
}

/// Whether a text says this strike: its numbers have seven digits at most (this project's own rule).
pub fn has_strike_text(strike: &Strike) -> bool
    ensures { IsTrue result ↔ HasStrikeText strike.now }
{
    let Strike {
        node: _node,
        bit,
        every,
        times,
    } = *strike;
    bit <= (GREATEST_NUMBER as u64) && every <= GREATEST_NUMBER && times <= GREATEST_NUMBER
}
