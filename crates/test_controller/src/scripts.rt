//! Scripts of drivers: a row is what lies on a driver's link and how its port stands, and then the steps of its script;
//! what its log says of them is the answer.
//!
//! Numbers are hexadecimal; [`script`] and `test_words` say what each part is. A wait that isn't met isn't logged.

mod answer;
mod driven;
mod script;

use answer::answers;
use script::Script;
use std::alloc::Global;
use std::io;

/// What the steps of a row answer, each behind a blank, and what is asked of the log.
pub fn answered(alloc: Global, row: &str) -> io::Result<String> {
    let mut script = Script::new(alloc);
    for part in row.split("; ") {
        let words = part.split(' ').collect::<Vec<&str>>(alloc)?;
        if script.reads(words.as_slice())?.is_none() {
            return Ok(String::from_str(alloc, " ?")?);
        }
    }
    let asked = script.asked;
    match script.driven(alloc)? {
        Some(driver) => Ok(answers(alloc, &driver, asked)?),
        None => Ok(String::from_str(alloc, " too long")?),
    }
}
