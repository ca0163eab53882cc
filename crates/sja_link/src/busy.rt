//! An item that an end gave back.

/// The end gave the item back: no room was free on the link.
#[derive(Clone, Copy, Debug, PartialEq, Eq)]
pub struct Busy;
