//! [`CommandRow`]: a command in the table of commands.

use super::argument_row::ArgumentRow;

/// A command in the table of commands.
#[derive(Clone, Copy)]
pub(crate) struct CommandRow<'a> {
    /// Its name.
    pub(crate) name: &'a str,
    /// The line that help has for it.
    pub(crate) about: &'a str,
    /// Its arguments, in order.
    pub(crate) arguments: &'a [ArgumentRow<'a>],
}
