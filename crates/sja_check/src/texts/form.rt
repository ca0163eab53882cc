//! [`Form`]: how a step or a turn is written.

use super::argument::Argument;

/// How a step or a turn is written.
pub(crate) struct Form {
    /// The word that it begins with.
    pub(crate) name: &'static str,
    /// The first version that has it.
    pub(crate) since: u8,
    /// What the words behind it are to be.
    pub(crate) arguments: &'static [Argument],
    /// What is said where it has more words or fewer; `{0}` is the name.
    pub(crate) usage: &'static str,
}

/// The form of this name with so many words in a version, or the first one of this name.
pub(crate) fn form_of(
    forms: &'static [Form],
    version: u8,
    name: &str,
    words: usize,
) -> Option<&'static Form> {
    let mut found = None;
    for form in forms {
        if form.name == name && form.since <= version {
            if form.arguments.len().saturating_add(1) == words {
                return Some(form);
            }
            found = found.or(Some(form));
        }
    }
    found
}
