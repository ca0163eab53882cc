//! The codes of a journal, one byte an entry.

ghost use Rattle.std.specs.Prelude.{◌≡◌, [], ◌∷◌, length};
ghost use Rattle.sja_journal.specs.declared.entry.Entry.TheVariants.{Bit};
ghost use Rattle.sja_journal.specs.Inside.Codes.{code_of};
ghost use Rattle.std.specs.Simd.Lanes.{zip2};

use can_levels::Level;
use std::mem::size_of;

/// How many codes are compared at once.
pub(crate) const BLOCK: usize = 32;

// A journal keeps one byte an entry.
const _: () = prove!(size_of::<Code>() == 1);

/// What an entry of a journal is, in one byte. An entry that is no bit lies in a list of its own.
#[derive(Clone, Copy, Debug, PartialEq, Eq)]
pub(crate) enum Code {
    /// A bit, driven and seen dominant.
    DominantAsDriven,
    /// A bit, driven dominant and seen recessive.
    DominantSeenRecessive,
    /// A bit, driven recessive and seen dominant.
    RecessiveSeenDominant,
    /// A bit, driven and seen recessive.
    RecessiveAsDriven,
    /// An entry that is no bit.
    Other,
}

impl Code {
    ghost use Rattle.sja_journal.specs.Inside.Codes.{code_of, decoded, has_other, is_rest};

    /// The code of a bit: the level driven, and the level seen.
    pub(crate) fn of_bit(driven: Level, seen: Level) -> Code
        ensures code { result ≡ code_of driven seen }
        ensures bit { decoded (result ∷ []) [] ≡ Bit driven seen ∷ [] }
        ensures alone { has_other result ≡ 0 }
    {
        // The codes of bits are numbered by the two levels. There are four: the mask says so to the compiler.
        match (2 * (driven as u8) + seen as u8) & 3 {
            0 => Code::DominantAsDriven,
            1 => Code::DominantSeenRecessive,
            2 => Code::RecessiveSeenDominant,
            _ => Code::RecessiveAsDriven,
        }
    }

    /// Whether it is a bit that was driven and seen recessive.
    pub(crate) fn is_rest(self) -> bool
        ensures { result ≡ is_rest self }
    {
        matches!(self, Code::RecessiveAsDriven)
    }
}

/// Writes the codes of bits, of each the level driven and the level seen. It does so for each of them alike, so that
/// many can be written at once.
pub(crate) fn write_bits(codes: &mut [Code], driven: &[Level], seen: &[Level])
    requires driven { length driven.now ≡ length codes.old }
    requires seen { length seen.now ≡ length codes.old }
    ensures { codes.new ≡ zip2 code_of driven.now seen.now }
{
    for k in 0..codes.len() {
        codes[k] = Code::of_bit(driven[k], seen[k]);
    }
}
