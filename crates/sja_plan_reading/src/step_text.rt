//! Texts of steps.

ghost use Rattle.std.specs.Prelude.{◌≡◌, ◌⊎◌, IfOk, IfErr, map, [], ◌∷◌};
ghost use Rattle.sja_plan_reading.specs.Words.{words};
ghost use Rattle.sja_plan_reading.specs.StepTexts.{AreStepWords};

use super::access_words::{address_of, value_of};
use super::message_word::message;
use super::plan_text::PlanText;
use super::text_fault::TextFault;
use super::within::Within;
use super::word::{find_words, number_within};
use sja_plan::{FIRST_BY_BYTES, MOST_BITS_BY_BYTES};
use sja_steps::Step;
use std::alloc::Global;

/// The address of CMR, which a `command` writes (SJA1000 data sheet, 6.4.4).
const COMMAND: u8 = 1;

impl PlanText for Step {
    ghost says = { λ within text s. AreStepWords within.version (words text) s };

    fn plan_text<'a>(
        alloc: Global,
        within: Within,
        text: &'a str,
        room: &mut Vec<&'a str>,
    ) -> Result<Step, TextFault> {
        find_words(room, text)?;
        step_of(alloc, within.version, room.as_slice())
    }
}

/// The step that these words spell in this version of the rules, 1 to 3 (this project's own rule).
///
/// Errors: [`TextFault::Bad`] where they spell none; [`TextFault::NoMemory`] where memory was refused.
pub fn step_of(alloc: Global, version: usize, words: &[&str]) -> Result<Step, TextFault>
    ensures ok { IfOk result (λ s. AreStepWords version (map (λ w. w.now) words.now) s) }
    ensures err { IfErr result (λ e. (e ≡ TextFault.NoMemory)
        ⊎ ((e ≡ TextFault.Bad) × ((s : Step) → ¬ AreStepWords version (map (λ w. w.now) words.now) s))) }
{
    match *words {
        [name] => of_one_word(version, name),
        [name, word] => of_two_words(alloc, version, name, word),
        [name, at, word] => of_three_words(version, name, at, word),
        _ => Err(TextFault::Bad),
    }
}

/// The step of one word.
fn of_one_word(version: usize, name: &str) -> Result<Step, TextFault>
    ensures ok { IfOk result (λ s. AreStepWords version (name.now ∷ []) s) }
    ensures err { IfErr result (λ e. (e ≡ TextFault.Bad) × ((s : Step) → ¬ AreStepWords version (name.now ∷ []) s)) }
{
    match name {
        "start" => Ok(Step::Start),
        "stop" => Ok(Step::Stop),
        "window" => Ok(Step::Window),
        "release" => Ok(Step::Release),
        "sent" => Ok(Step::Sent),
        "interrupt" if version >= usize::from(FIRST_BY_BYTES) => Ok(Step::Interrupt),
        _ => Err(TextFault::Bad),
    }
}

/// The step of a name and the word behind it.
fn of_two_words(alloc: Global, version: usize, name: &str, word: &str) -> Result<Step, TextFault>
    ensures ok { IfOk result (λ s. AreStepWords version (name.now ∷ word.now ∷ []) s) }
    ensures err { IfErr result (λ e. (e ≡ TextFault.NoMemory)
        ⊎ ((e ≡ TextFault.Bad) × ((s : Step) → ¬ AreStepWords version (name.now ∷ word.now ∷ []) s))) }
{
    match name {
        "read" => Ok(Step::Read(address_of(version, word)?)),
        "load" => Ok(Step::Load(message(alloc, version, word)?)),
        "command" => Ok(Step::Command(value_of(version, COMMAND, word)?)),
        "await" => Ok(Step::Await(number_within(word, 1, 21)? as u8)),
        "at" if version >= usize::from(FIRST_BY_BYTES) => Ok(Step::At(number_within(
            word,
            0,
            MOST_BITS_BY_BYTES,
        )?)),
        _ => Err(TextFault::Bad),
    }
}

/// The step of a name, an address and a value.
fn of_three_words(version: usize, name: &str, at: &str, word: &str) -> Result<Step, TextFault>
    ensures ok { IfOk result (λ s. AreStepWords version (name.now ∷ at.now ∷ word.now ∷ []) s) }
    ensures err { IfErr result (λ e. (e ≡ TextFault.Bad)
        × ((s : Step) → ¬ AreStepWords version (name.now ∷ at.now ∷ word.now ∷ []) s)) }
{
    match name {
        "write" => {
            let address = address_of(version, at)?;
            Ok(Step::Write(address, value_of(version, address, word)?))
        }
        _ => Err(TextFault::Bad),
    }
}
