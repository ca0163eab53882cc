//! [`RowOptions`]: what is asked for beside a run's text.

use test_rows::Bits;

/// What is asked for beside a run's text.
#[derive(Clone, Copy)]
pub(crate) struct RowOptions {
    /// The bits of a picture or a drawing.
    pub(crate) bits: Bits,
    /// Whether the error frames that drivers could have received are told too.
    pub(crate) errors: bool,
}

impl RowOptions {
    /// What a row asks for with these bits, and the rest of it, which is made a document: one that begins with
    /// `errors ` asks for error frames, and one that begins with `frames ` doesn't.
    pub(crate) fn by(bits: Bits, row: &str) -> (RowOptions, &str) {
        let (errors, rest) = match row.strip_prefix("errors ") {
            Some(rest) => (true, rest),
            None => (false, row.strip_prefix("frames ").unwrap_or(row)),
        };
        (RowOptions { bits, errors }, rest)
    }
}
