//! [`Narrow`]: a writer that takes so much and no more, and counts the writes that it refuses.

use std::alloc::Global;
use std::io::{ErrorKind, Result, Write};

/// How much a writer takes.
#[derive(Clone, Copy)]
pub(crate) struct Room {
    /// So many writes.
    pub(crate) writes: usize,
    /// So many bytes.
    pub(crate) bytes: usize,
    /// At most so many bytes a write.
    pub(crate) most: usize,
    /// A write past that takes nothing, and doesn't fail.
    pub(crate) is_full: bool,
}

/// All that is written.
pub(crate) const ALL: Room = Room {
    writes: usize::MAX,
    bytes: usize::MAX,
    most: usize::MAX,
    is_full: false,
};

/// A writer that takes so much.
#[derive(Drop)]
pub(crate) struct Narrow {
    /// How much it still takes.
    room: Room,
    /// What it took.
    pub(crate) taken: Vec<u8>,
    /// How many writes it refused.
    pub(crate) refused: u32,
}

impl Narrow {
    /// A writer that took nothing yet.
    pub(crate) fn new(alloc: Global, room: Room) -> Narrow {
        Narrow {
            room,
            taken: Vec::new(alloc),
            refused: 0,
        }
    }
}

impl Write for Narrow {
    fn write(&mut self, buf: &[u8]) -> Result<usize> {
        if self.room.writes == 0 || self.room.bytes == 0 {
            self.refused = self.refused.saturating_add(1);
            return if self.room.is_full {
                Ok(0)
            } else {
                Err(ErrorKind::BrokenPipe.into())
            };
        }
        let count = self.room.most.min(self.room.bytes);
        let part = buf.get(..count).unwrap_or(buf);
        self.taken.extend_from_slice(part)?;
        self.room.writes = self.room.writes.saturating_sub(1);
        self.room.bytes = self.room.bytes.saturating_sub(part.len());
        Ok(part.len())
    }

    fn flush(&mut self) -> Result<()> {
        Ok(())
    }
}
