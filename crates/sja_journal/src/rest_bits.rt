//! The bits at rest that come next among the entries of a journal, passed over at once.

ghost use Rattle.std.specs.Prelude.{◌≡◌, ◌≤◌, length};
ghost use Rattle.std.specs.List.{list_all};
ghost use Rattle.sja_journal.specs.Inside.Codes.{is_rest, leading};

use super::code::{BLOCK, Code};
use super::entries::Entries;

impl<'a> Entries<'a> {
    ghost use Rattle.std.specs.Prelude.{◌≡◌, ◌≤◌, drop};
    ghost use Rattle.sja_journal.specs.RestBits.{rest_before};

    /// How many of the next entries are bits in which the node drove and saw recessive, at most so many.
    pub fn rest_bits(&self, most: usize) -> usize
        ensures most { result ≤ most }
        ensures rest { result ≤ rest_before self.now }
    {
        match self.codes.get(..most) {
            Some(front) => leading_rest(front),
            None => leading_rest(self.codes),
        }
    }

    /// Goes on past so many of these bits.
    pub fn skip_rest_bits(&mut self, count: usize)
        requires { count ≤ rest_before self.old }
        ensures { self.new ≡ drop count self.old }
    {
        self.codes = &self.codes[count..];
    }
}

/// How many of these codes stand before the first one that is no bit at rest. Whole blocks are passed over first.
fn leading_rest(codes: &[Code]) -> usize
    ensures count { result ≡ leading is_rest codes.now }
    ensures few { result ≤ length codes.now }
{
    let mut bits = 0;
    while codes.len() - bits >= BLOCK && are_rest(&codes[bits..bits + BLOCK]) {
        bits += BLOCK;
    }
    bits + rest_one_by_one(&codes[bits..])
}

/// Whether all of these codes are bits at rest. It looks at each of them, so that many can be compared at once.
fn are_rest(codes: &[Code]) -> bool
    ensures { result ≡ list_all is_rest codes.now }
{
    let mut all = true;
    for code in codes {
        all &= code.is_rest();
    }
    all
}

/// How many of these codes stand before the first one that is no bit at rest.
fn rest_one_by_one(codes: &[Code]) -> usize
    ensures count { result ≡ leading is_rest codes.now }
    ensures few { result ≤ length codes.now }
{
    let mut bits = 0;
    for code in codes {
        if !code.is_rest() {
            return bits;
        }
        bits += 1;
    }
    bits
}
