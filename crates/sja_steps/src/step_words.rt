//! The text of a driver's step.

ghost use Rattle.std.specs.Prelude.{◌≡◌, IfOk, string_bytes};
ghost use Rattle.hex.specs.Hex.{encode_lower};
ghost use Rattle.sja_steps.specs.StepText.{step_text};

use super::step::Step;
use can_frame::OutOfMemory;
use std::alloc::Global;

/// The text of a driver's step, as plans and traces spell it: numbers in decimal, bytes as two hexadecimal digits in
/// lower case.
///
/// Error: memory was refused (this project's own rule).
pub fn step_text(alloc: Global, step: &Step) -> Result<String, OutOfMemory>
    ensures { IfOk result (λ t. string_bytes t ≡ step_text step.now) }
{
    match step {
        Step::Start => word(alloc, "start"),
        Step::Stop => word(alloc, "stop"),
        Step::Window => word(alloc, "window"),
        Step::Release => word(alloc, "release"),
        Step::Read(address) => Ok(format!(in alloc; "read {address}")?),
        Step::Write(address, value) => {
            let value = digits(alloc, &[*value])?;
            Ok(format!(in alloc; "write {address} {value}")?)
        }
        Step::Load(message) => {
            let message = digits(alloc, message.bytes())?;
            Ok(format!(in alloc; "load {message}")?)
        }
        Step::Command(value) => {
            let value = digits(alloc, &[*value])?;
            Ok(format!(in alloc; "command {value}")?)
        }
        Step::Await(count) => Ok(format!(in alloc; "await {count}")?),
        Step::Sent => word(alloc, "sent"),
        Step::Interrupt => word(alloc, "interrupt"),
        Step::At(bits) => Ok(format!(in alloc; "at {bits}")?),
    }
}

/// This word.
fn word(alloc: Global, word: &str) -> Result<String, OutOfMemory>
    ensures { IfOk result (λ t. string_bytes t ≡ word.now) }
{
    Ok(String::from_str(alloc, word)?)
}

/// Bytes, two hexadecimal digits each.
fn digits(alloc: Global, bytes: &[u8]) -> Result<String, OutOfMemory>
    ensures { IfOk result (λ t. string_bytes t ≡ encode_lower bytes.now) }
{
    Ok(hex::encode(alloc, bytes)?)
}
