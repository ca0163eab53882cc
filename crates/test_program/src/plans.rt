//! Plans: a row is made a plan's document, and what is made of that is printed behind it or below it.
//!
//! Of what is made of it a [`Kind`] is named: what reading the document answers (`plan`) or writing the plan of it
//! (`plan_text`), what is said of its mistake or of its run (`check`), or a text of its run (`trace`, `frames`,
//! `picture`, `drawing`, `candump`), of which `++ ` says which bits are drawn. A row of `candump` begins with `frames `
//! or, where error frames are asked for too, with `errors `.

mod answer;
mod kind;
mod reading;
mod row_options;
mod run_text;
mod said;
mod writing;

use answer::answer;
use kind::Kind;
use std::alloc::Global;
use std::io;
use test_rows::GivenLines;

/// What is made of the row's document; nothing where this names no kind.
pub(crate) fn answered(
    alloc: Global,
    kind: &str,
    given: &GivenLines,
    row: &str,
) -> io::Result<String> {
    match Kind::named(kind) {
        Some(kind) => answer(alloc, kind, given, row),
        None => Ok(String::new(alloc)),
    }
}
