//! [`ArgumentRow`]: an argument in the table of commands.

use super::takes::Takes;

/// An argument in the table of commands.
#[derive(Clone, Copy)]
pub(crate) struct ArgumentRow<'a> {
    /// Its name: that of the flag or of the option, and what usage calls it where it is neither.
    pub(crate) name: &'a str,
    /// What it takes.
    pub(crate) takes: Takes<'a>,
    /// The line that help has for it.
    pub(crate) help: &'a str,
}
