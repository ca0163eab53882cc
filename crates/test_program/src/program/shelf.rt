//! [`Shelf`]: plans and a report under names, in place of files.

use sja_run::{SourceFault, Sources, read_input};
use std::alloc::Global;

/// The report under the name `a.report`, of a plan with one node, which reads MOD and SR before it is started.
const REPORT: &str = "sja version 3 bits 20 end turns
node 0 tec 0 rec 0 steps 2
step 1 01
step 2 3c
";

/// Plans under the names `a.toml`, `b.toml` and `bad.toml`.
#[derive(Clone, Copy)]
pub(crate) struct Shelf<'a> {
    /// The plan under the first two.
    pub(crate) good: &'a str,
    /// The plan under the third.
    pub(crate) bad: &'a str,
}

impl Sources for Shelf<'_> {
    ghost use Rattle.std.specs.Prelude.{⊤};

    ghost holds = { λ shelf name what. ⊤ };

    fn read(&self, alloc: Global, name: &str) -> Result<Vec<u8>, SourceFault> {
        let Some(plan) = plan_of(*self, name) else {
            return Err(SourceFault::Unreadable);
        };
        let mut rest = plan.as_bytes();
        match read_input(alloc, &mut rest) {
            Ok(bytes) => Ok(bytes),
            Err(_) => Err(SourceFault::OutOfMemory),
        }
    }

    fn whole(&self, alloc: Global, name: &str) -> Result<Vec<u8>, SourceFault> {
        let text = if name == "a.report" {
            REPORT
        } else {
            plan_of(*self, name).unwrap_or("")
        };
        if text.is_empty() {
            return Err(SourceFault::Unreadable);
        }
        Ok(Vec::from_slice(alloc, text.as_bytes())?)
    }
}

/// The plan under this name; nothing where none is.
fn plan_of<'a>(shelf: Shelf<'a>, name: &str) -> Option<&'a str> {
    match name {
        "a.toml" => Some(shelf.good),
        "b.toml" => Some(shelf.good),
        "bad.toml" => Some(shelf.bad),
        _ => None,
    }
}
