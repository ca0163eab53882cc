//! [`SweepRefusal`]: why there is no sweep of a plan that was read, no plan with a strike more, or no such bit.

use std::fmt;

/// Why there is no sweep of a plan that was read, no plan with a strike more, or no such bit. It shows as the text that
/// the program writes of it (this project's own rule).
#[derive(Clone, Copy, Debug, PartialEq, Eq)]
pub enum SweepRefusal {
    /// The plan doesn't have the node that is named.
    NoNode,
    /// There are more runs than 20,000, or they may come to more than 2,000,000,000 bits, and it isn't said that so
    /// many are meant: how many runs, and how many bits they may come to.
    TooMany(u128, u128),
    /// The strikes of the plan strike as many bits already as those of a plan of its version may.
    StrikeCount,
    /// No strike's text says the bit, which is past 9,999,999.
    Bit,
    /// The document of the plan with a strike more has more bytes than one of its version may.
    TooLong,
    /// Of `registers`: the plan has no bit of this number, but so many bits.
    NoBit(u32),
}

impl fmt::Display for SweepRefusal {
    ghost use Rattle.std.specs.Prelude.{Some};
    ghost use Rattle.text_codec.specs.Refusal.{sweep_refusal_text};

    ghost output = { λ refusal. Some (sweep_refusal_text refusal) };

    fn fmt<W: fmt::Write>(&self, f: &mut fmt::Formatter<W>) -> fmt::Result {
        match *self {
            SweepRefusal::NoNode => f.write_str("sweep fault 1 NoNode"),
            SweepRefusal::TooMany(runs, bits) => write!(
                f,
                "sweep fault 2 TooMany: {runs} runs, {bits} bits, which --yes makes"
            ),
            SweepRefusal::StrikeCount => f.write_str("sweep fault 3 StrikeCount"),
            SweepRefusal::Bit => f.write_str("sweep fault 4 Bit"),
            SweepRefusal::TooLong => f.write_str("sweep fault 5 TooLong"),
            SweepRefusal::NoBit(bits) => write!(
                f,
                "registers fault 1 NoBit: the plan has {bits} bits"
            ),
        }
    }
}
