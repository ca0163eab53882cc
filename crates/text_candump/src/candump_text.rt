//! [`candump`]: what the driver of each node could have received.

ghost use Rattle.std.specs.Prelude.{◌≡◌, ◌++◌, string_bytes, IfOk, OnOk};
ghost use Rattle.text_candump.specs.CandumpText.{IsCandump};
ghost use Rattle.text_candump.specs.Inside.CandumpProgress.{bit_text};

use super::all_bits::{bits_of, finish_all, pass_on_all, rest_on};
use super::bit_lines::put_node;
use super::driver_bits::DriverBits;
use can_frame::OutOfMemory;
use sja_log::RunLog;
use std::alloc::{AllocError, Global};

/// What the driver of each node could have received in a run, in the log format of can-utils (`candump -l`): a line for
/// each frame that was received and stored, and with `errors` one for each error frame that Linux's driver of the
/// SJA1000 sends with berr-reporting on, in the order of bits and of nodes. The time of a line is its bit in
/// microseconds, and its device `canK` for node K.
///
/// A node's own frames have no line, unless it receives them itself under self reception. Each node's journal is gone
/// over once, all of them together. Beside the text no more is kept than one bit of each node.
///
/// Error: [`OutOfMemory`] where memory was refused.
pub fn candump(alloc: Global, log: &RunLog, errors: bool) -> Result<String, OutOfMemory>
    ensures { IfOk result (λ text. IsCandump log.now errors (string_bytes text)) }
{
    let mut all = bits_of(alloc, log.nodes())?;
    let mut text = String::new(alloc);
    let mut bit = 0;
    while bit < log.bits() {
        bit += rest_on(all.as_mut_slice(), log.bits() - bit);
        if bit < log.bits() {
            pass_on_all(all.as_mut_slice());
            put_bit(&mut text, errors, all.as_slice(), bit)?;
            bit += 1;
        }
    }
    finish_all(all.as_mut_slice());
    Ok(text)
}

/// The lines of all nodes in the bit at hand.
fn put_bit(
    text: &mut String,
    errors: bool,
    all: &[DriverBits<'_>],
    bit: u32,
) -> Result<(), AllocError>
    ensures { OnOk result (string_bytes text.new ≡ string_bytes text.old ++ bit_text errors bit all.now) }
{
    let mut number = 0usize;
    for bits in all {
        put_node(text, errors, bit, number, bits)?;
        number += 1;
    }
    Ok(())
}
