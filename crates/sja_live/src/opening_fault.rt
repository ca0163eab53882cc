//! Why the first line opens no session.

/// Why the first line opens no session (this project's own rule): the first mistake in it.
#[derive(Clone, Copy, Debug, PartialEq, Eq)]
pub enum OpeningFault {
    /// The line has more than 64 bytes.
    Long,
    /// It is no text: its bytes are no UTF-8.
    Text,
    /// Its words aren't `live` and three more.
    Command,
    /// The version isn't 1, 2 or 3.
    Version,
    /// The number of bits isn't one of this version: 1 to 200,000, or 0 to 2,000,000 in
    /// version 3.
    Bits,
    /// The number of nodes isn't one from 1 to 8.
    Nodes,
}
