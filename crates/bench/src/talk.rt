//! The figure of talks: a session is asked for a register, line by line.

use sja_live::{LiveSessionEnd, talk};
use std::alloc::{AllocError, Global};

/// Has a talk of so many lines, each a read of SR, over bytes in memory.
pub fn run(alloc: Global, count: u32) -> Option<String> {
    let said = lines(alloc, count).ok()?;
    let mut input = said.as_bytes();
    let mut answers = Vec::new(alloc);
    match talk(alloc, &mut input, &mut answers) {
        Ok(LiveSessionEnd::Reported) => {
            let bytes = answers.len();
            format!(in alloc; "lines {count} bytes {bytes}").ok()
        }
        _ => None,
    }
}

/// The first line, and so many reads.
fn lines(alloc: Global, count: u32) -> Result<String, AllocError> {
    let mut said = String::new(alloc);
    said.push_str("live 3 100 1\n")?;
    for _ in 0..count {
        said.push_str("read 0 2\n")?;
    }
    Ok(said)
}
