//! [`RegisterRow`]: what a register of a node reads as.

/// What a register of a node reads as (this project's own rule).
#[derive(Clone, Copy)]
pub struct RegisterRow {
    /// The node, counted from 0.
    pub node: u8,
    /// Whether it is in reset mode: there the acceptance filter stands from 16 on, and out of it the receive buffer.
    pub reset: bool,
    /// The register's address.
    pub address: u8,
    /// What a read of it answers.
    pub value: u8,
}
