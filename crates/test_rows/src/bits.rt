//! [`Bits`]: which bits of a run are drawn.

/// Which bits of a run are drawn.
#[derive(Clone, Copy, Debug)]
pub struct Bits {
    /// The first one.
    pub first: u32,
    /// The last one; none for the run's last.
    pub last: Option<u32>,
}

impl Bits {
    /// The bits that a line names by the first and the last of them, or by the first alone. What is no number is 0, so
    /// that no words name all bits.
    pub(crate) fn of(words: &str) -> Bits {
        match words.split_once(' ') {
            Some((first, last)) => Bits {
                first: number(first),
                last: Some(number(last)),
            },
            None => Bits {
                first: number(words),
                last: None,
            },
        }
    }
}

/// The number that a word is, or 0.
fn number(word: &str) -> u32 {
    word.parse::<u32>().unwrap_or(0)
}
