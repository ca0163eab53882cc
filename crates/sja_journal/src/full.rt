//! A journal without room.

/// The reserved entries of a journal are used.
#[derive(Clone, Copy, Debug, PartialEq, Eq)]
pub struct Full;
