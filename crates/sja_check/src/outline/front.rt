//! [`Front`]: where a long document may be cut off.

use super::pieces::{depth_behind, end_of_piece};

/// Where the front of a document may end so that it is a document too. Each is 0 where there is no such place.
#[derive(Clone, Copy)]
pub(crate) struct Front {
    /// Before a line outside all brackets.
    pub(crate) line: usize,
    /// Before a header.
    header: usize,
    /// Behind a comma of the list of a key, which is to be closed then.
    item: usize,
}

impl Front {
    /// The last places among so many bytes.
    pub(crate) fn of(bytes: &[u8], most: usize) -> Front {
        let mut front = Front {
            line: 0,
            header: 0,
            item: 0,
        };
        let mut end = 0;
        let (mut depth, mut opener) = (0usize, 0);
        for (start, first) in bytes.iter().enumerate() {
            let first = *first;
            if start >= most {
                return front;
            }
            if start >= end {
                end = end_of_piece(bytes, start, first);
                if depth == 0 {
                    opener = first;
                }
                depth = depth_behind(depth, first);
                front.add(bytes, end, first, depth, opener);
            }
        }
        front
    }

    /// Takes in a piece that ends there and begins so, behind which so many brackets are open, the first of them this.
    fn add(&mut self, bytes: &[u8], end: usize, first: u8, depth: usize, opener: u8) {
        if first == b'\n' && depth == 0 {
            self.line = end;
            if bytes.get(end) == Some(&b'[') {
                self.header = end;
            }
        } else if first == b',' && depth == 1 && opener == b'[' {
            self.item = end;
        }
    }

    /// Where to end so that no node loses a key but behind its list, and what closes the list.
    pub(crate) fn end(&self) -> (usize, &'static [u8]) {
        if self.item > self.header {
            (self.item, b"]\n")
        } else if self.header > 0 {
            (self.header, b"")
        } else {
            (self.line, b"")
        }
    }
}
