//! `sja_page`: the program without threads, for a page.

ghost use Rattle.std.specs.Prelude.{map};
ghost use Rattle.sja_page.specs.Answers.{AnswersRow, AnswersWords};

use super::answer::PageAnswer;
use super::outcome::Outcome;
use super::put_texts::put_texts;
use super::words::words_of;
use sja_program::{Output, sja_alone};
use std::alloc::Global;

/// What the program says of an argument that is no text.
const NO_TEXT: &str = "error: invalid UTF-8 was detected in one or more arguments\n";

/// Does what the words ask for with a plan, and puts what the program prints and what it tells into a room.
#[unsafe(no_mangle)]
pub extern "C" fn sja_page(alloc: Global, words: &[u8], plan: &[u8], room: &mut [u8]) -> PageAnswer
    ensures { AnswersRow words.now plan.now room.old room.new result }
{
    match words_of(alloc, words) {
        Ok(Some(words)) => answered(alloc, words.as_slice(), plan, room),
        Ok(None) => put_texts(2, b"", NO_TEXT.as_bytes(), room),
        Err(_) => PageAnswer::plain(Outcome::NoMemory),
    }
}

/// What the program answers to these words, the program's name first.
fn answered(alloc: Global, words: &[&str], plan: &[u8], room: &mut [u8]) -> PageAnswer
    ensures { AnswersWords (map (λ word. word.now) words.now) plan.now room.old room.new result }
{
    let mut input = plan;
    let mut out = Output::new(Vec::new(alloc));
    let mut err = Output::new(Vec::new(alloc));
    let Ok(status) = sja_alone(alloc, words, &mut input, &mut out, &mut err) else {
        return PageAnswer::plain(Outcome::LeftOver);
    };
    if out.failed || err.failed {
        return PageAnswer::plain(Outcome::NoMemory);
    }
    put_texts(status, out.writer.as_slice(), err.writer.as_slice(), room)
}
