//! The figure `shift`: a reader of one level at a time is given the received line of one frame again and again.

use super::long_frame::long_line;
use can_bits::Shift;
use can_levels::{Level, ShiftEvent};
use std::alloc::Global;
use std::fmt::{Display, Error, Formatter, Write};

/// Reads the line so many times, and tells how many levels and frames there were.
pub fn run(alloc: Global, count: u32) -> Option<String> {
    let line = long_line(alloc)?;
    let mut reading = Reading::new();
    for _ in 0..count {
        reading.read(&line);
    }
    format!(in alloc; "{reading}").ok()
}

/// What a reader told of all levels.
#[derive(Drop)]
struct Reading {
    levels: u64,
    frames: u64,
    checksum: u64,
}

impl Reading {
    /// Nothing was read.
    fn new() -> Reading {
        Reading {
            levels: 0,
            frames: 0,
            checksum: 0,
        }
    }

    /// Steps a new reader through a line.
    fn read(&mut self, line: &[Level]) {
        let mut shift = Shift::new();
        for level in line {
            let event = shift.step(*level);
            self.add(&event);
        }
    }

    /// Counts an event.
    fn add(&mut self, event: &ShiftEvent) {
        let code = u64::from(event.segment.code());
        self.levels = self.levels.wrapping_add(1);
        self.checksum = self
            .checksum
            .wrapping_mul(31)
            .wrapping_add(2 * code + u64::from(event.stuff));
        if let Some(frame) = &event.frame {
            self.frames = self.frames.wrapping_add(1);
            self.checksum = self.checksum.wrapping_add(u64::from(frame.id()));
        }
    }
}

impl Display for Reading {
    fn fmt<W: Write>(&self, f: &mut Formatter<W>) -> Result<(), Error> {
        write!(
            f,
            "levels {} frames {} checksum {:016x}",
            self.levels, self.frames, self.checksum
        )
    }
}
