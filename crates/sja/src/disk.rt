//! [`Disk`]: plans in files.

use sja_run::{CommandRefusal, SourceFault, Sources, read_input};
use std::alloc::Global;
use std::fs;
use std::io::{Error, ErrorKind, Read};

/// Plans in files. No contract says what a file holds.
#[derive(Clone, Copy)]
pub struct Disk<'a> {
    /// Who opens files.
    pub rt: &'a HostRuntime,
}

impl Sources for Disk<'_> {
    ghost use Rattle.std.specs.Prelude.{⊤};

    ghost holds = { λ _ _ _. ⊤ };

    fn read(&self, alloc: Global, name: &str) -> Result<Vec<u8>, SourceFault> {
        match fs::open(self.rt, name) {
            Ok(mut file) => match read_input(alloc, &mut file) {
                Ok(bytes) => Ok(bytes),
                Err(CommandRefusal::OutOfMemory) => Err(SourceFault::OutOfMemory),
                Err(_) => Err(SourceFault::Unreadable),
            },
            Err(error) => Err(fault_of(&error)),
        }
    }

    fn whole(&self, alloc: Global, name: &str) -> Result<Vec<u8>, SourceFault> {
        let mut bytes = Vec::new(alloc);
        match fs::open(self.rt, name) {
            Ok(mut file) => match file.read_to_end(&mut bytes) {
                Ok(_) => Ok(bytes),
                Err(error) => Err(fault_of(&error)),
            },
            Err(error) => Err(fault_of(&error)),
        }
    }
}

/// Why a file wasn't opened, or not read to its end.
fn fault_of(error: &Error) -> SourceFault {
    match error.kind() {
        ErrorKind::OutOfMemory => SourceFault::OutOfMemory,
        _ => SourceFault::Unreadable,
    }
}
