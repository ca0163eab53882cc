//! Lines of at most 100 printable ASCII characters.

ghost use Rattle.std.specs.Prelude.{OnOk, IfOk, string_bytes};
ghost use Rattle.sja_check.specs.Lines.{IsLine, IsPlain, IsBrief, AreHints};
ghost use Rattle.sja_check.specs.Inside.Lines.{AddsLine};

use std::alloc::{AllocError, Global};

/// How many characters a line has at most, its line feed left out (this project's own rule).
pub(crate) const LINE_CHARACTERS: usize = 100;

/// How many hints are written out; a line behind them says how many more there are (this project's own rule).
pub(crate) const MOST_HINTS: usize = 20;

/// The text of what is said of a mistake: one line or two.
///
/// Error: memory was refused.
#[tactic(auto, using(crate::proofs::Growing::brief_one, crate::proofs::Growing::brief_two))]
pub(crate) fn text_of(alloc: Global, said: &[String]) -> Result<String, AllocError>
    ensures { IfOk result (λ text. IsBrief (string_bytes text)) }
{
    let mut text = String::new(alloc);
    push_line(alloc, &mut text, line_in(said, 0))?;
    if said.len() > 1 {
        push_line(alloc, &mut text, line_in(said, 1))?;
    }
    Ok(text)
}

/// The line at this place.
fn line_in(said: &[String], place: usize) -> &str {
    match said.get(place) {
        Some(line) => line.as_str(),
        None => "",
    }
}

/// The text of these hints, a line each, of which there are at most 21.
///
/// Error: memory was refused.
#[tactic(auto, using(crate::proofs::Growing::no_lines, crate::proofs::Growing::one_more))]
pub(crate) fn text_of_hints(alloc: Global, found: &[String]) -> Result<String, AllocError>
    ensures { IfOk result (λ text. AreHints (string_bytes text)) }
{
    let mut text = String::new(alloc);
    let mut count = 0;
    for hint in found {
        if count > MOST_HINTS {
            break;
        }
        push_line(alloc, &mut text, hint.as_str())?;
        count += 1;
    }
    Ok(text)
}

/// Writes a line of these words behind a text.
#[tactic(auto, using(crate::proofs::Growing::adds_line))]
fn push_line(alloc: Global, text: &mut String, words: &str) -> Result<(), AllocError>
    ensures { OnOk result (AddsLine (string_bytes text.old) (string_bytes text.new)) }
{
    let line = line_of(alloc, words)?;
    text.push_str(line.as_str())?;
    text.push('\n')
}

/// The words as a line: cut where they have more than 100 characters, and with `?` for each that isn't printable
/// ASCII.
#[tactic(auto, using(crate::proofs::Growing::plain_more, crate::proofs::Growing::plain_none))]
fn line_of(alloc: Global, words: &str) -> Result<String, AllocError>
    ensures { IfOk result (λ line. IsLine (string_bytes line)) }
{
    let mut line = String::new(alloc);
    let mut room = LINE_CHARACTERS;
    for byte in words.as_bytes() {
        if room == 0 {
            break;
        }
        line.push(plain(*byte))?;
        room -= 1;
    }
    Ok(line)
}

/// The character of a byte, or `?` where it isn't printable ASCII.
fn plain(byte: u8) -> char
    ensures { IsPlain result }
{
    if 32 <= byte && byte <= 126 {
        char::from(byte)
    } else {
        '?'
    }
}
