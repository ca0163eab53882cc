//! The words of first errors, which lines and rows have in common.

ghost use Rattle.std.specs.Prelude.{◌≡◌, ◌++◌, string_bytes, OnOk};
ghost use Rattle.sja_sweep.specs.SweepText.{cause_word, error_words, errors_words, place_words, same_error};

use super::first_error::FirstError;
use can_node_rules::Cause;
use std::alloc::AllocError;
use std::fmt::Write;

/// The first error of the first one of several runs, and that of the last one where it is another.
pub(crate) fn put_errors(
    text: &mut String,
    from: Option<FirstError>,
    to: Option<FirstError>,
) -> Result<(), AllocError>
    ensures { OnOk result (string_bytes text.new ≡ string_bytes text.old ++ errors_words from to) }
{
    text.push_str(": ")?;
    put_error(text, from)?;
    if !same_error(from, to) {
        text.push_str(" to ")?;
        put_error(text, to)?;
    }
    Ok(())
}

/// The first error of a run.
fn put_error(text: &mut String, error: Option<FirstError>) -> Result<(), AllocError>
    ensures { OnOk result (string_bytes text.new ≡ string_bytes text.old ++ error_words error) }
{
    match error {
        None => text.push_str("no error"),
        Some(error) => {
            text.push_str(cause_word(error.cause))?;
            put_place(text, error)
        }
    }
}

/// Where an error is.
fn put_place(text: &mut String, error: FirstError) -> Result<(), AllocError>
    ensures { OnOk result (string_bytes text.new ≡ string_bytes text.old ++ place_words error) }
{
    let (node, bit) = (error.node, error.bit);
    write!(text, " error at node {node} bit {bit}")
}

/// Whether both are the same.
fn same_error(first: Option<FirstError>, second: Option<FirstError>) -> bool
    ensures { result ≡ same_error first second }
{
    match (first, second) {
        (None, None) => true,
        (Some(p), Some(q)) => {
            (p.node == q.node && p.bit == q.bit)
                && cause_word(p.cause).as_bytes() == cause_word(q.cause).as_bytes()
        }
        _ => false,
    }
}

/// The kind of error.
fn cause_word(cause: Cause) -> &'static str
    ensures { result.now ≡ cause_word cause }
{
    match cause {
        Cause::Bit => "bit",
        Cause::Stuff => "stuff",
        Cause::Form => "form",
        Cause::Crc => "CRC",
        Cause::Ack => "acknowledgement",
    }
}
