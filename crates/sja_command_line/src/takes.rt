//! [`Takes`]: what an argument of a command takes.

/// What an argument of a command takes (this project's own rule).
#[derive(Clone, Copy)]
pub(crate) enum Takes<'a> {
    /// A text, which must be given.
    Text,
    /// One to eight texts, of which one must be given.
    Texts,
    /// The name of a file, or none.
    File,
    /// Any number of names of files, or none.
    Files,
    /// The number of a bit, or none.
    Bit,
    /// Nothing: it is a flag, which stands or doesn't.
    Nothing,
    /// It is an option, behind which stands a text, which help calls by this name.
    Named(&'a [&'a str]),
    /// It is an option, behind which stand as many numbers as there are names here, which help calls them by. Each is
    /// from the first to the second of these two.
    Numbers(&'a [&'a str], u32, u32),
}
