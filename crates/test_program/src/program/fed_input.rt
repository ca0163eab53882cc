//! [`FedInput`]: an input that gives so many bytes a read, and counts the reads.

use std::io::{ErrorKind, Read, Result};

/// What comes behind the last byte of an input.
#[derive(Clone, Copy)]
pub(crate) enum Behind {
    /// Nothing.
    End,
    /// Reads fail.
    Fault,
    /// Reads are interrupted.
    Interrupted,
    /// The byte `#`, without end.
    More,
}

/// An input that gives at most so many bytes a read.
#[derive(Drop)]
pub(crate) struct FedInput<'a> {
    /// What is still to be read.
    pub(crate) left: &'a [u8],
    /// How many bytes it had.
    pub(crate) length: usize,
    /// How many bytes a read gives at most.
    most: usize,
    /// What comes behind them.
    behind: Behind,
    /// How many reads were made.
    pub(crate) reads: u32,
    /// How many bytes they gave.
    pub(crate) bytes: usize,
}

impl<'a> FedInput<'a> {
    /// An input of these bytes.
    pub(crate) fn new(bytes: &'a [u8], most: usize, behind: Behind) -> FedInput<'a> {
        FedInput {
            left: bytes,
            length: bytes.len(),
            most,
            behind,
            reads: 0,
            bytes: 0,
        }
    }

    /// An input of these bytes, as many a read as are asked for.
    pub(crate) fn whole(bytes: &'a [u8]) -> FedInput<'a> {
        FedInput::new(bytes, usize::MAX, Behind::End)
    }
}

impl Read for FedInput<'_> {
    fn read(&mut self, buf: &mut [u8]) -> Result<usize> {
        self.reads = self.reads.saturating_add(1);
        let room = buf.len().min(self.most);
        let count = if self.left.is_empty() {
            match self.behind {
                Behind::End => return Ok(0),
                Behind::Fault => return Err(ErrorKind::Other.into()),
                Behind::Interrupted => return Err(ErrorKind::Interrupted.into()),
                Behind::More => {
                    buf[..room].fill(b'#');
                    room
                }
            }
        } else {
            let count = room.min(self.left.len());
            buf[..count].copy_from_slice(&self.left[..count]);
            self.left = &self.left[count..];
            count
        };
        self.bytes = self.bytes.saturating_add(count);
        Ok(count)
    }
}
