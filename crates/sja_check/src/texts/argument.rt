//! [`Argument`]: what a word of a text is to be.

/// What a word of a text is to be.
#[derive(Clone, Copy)]
pub(crate) enum Argument {
    /// The number of a node.
    Node,
    /// The address of a register.
    Address,
    /// The value of a register.
    Value,
    /// The bytes of the transmit buffer.
    Message,
    /// The address of a register, or its name.
    Register,
    /// The value of the register before it, or names of its bits.
    Bits,
    /// The bytes of the transmit buffer, or can-utils' notation.
    Frame,
    /// A number with this name, from where to where.
    Number(&'static str, u32, u32),
}
