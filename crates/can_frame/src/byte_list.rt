//! A bounded list of bytes.

ghost use Rattle.std.specs.Prelude.{◌≡◌, ◌+◌, ◌≤◌, ◌++◌, length, nat_eq};
ghost use Rattle.std.specs.Cmp.{on_equiv, on_per, partial_equiv_from_equiv};
ghost use Rattle.std.specs.Cmp.Lexicographic.{pointwise, nat_list_eq_equiv};

use std::fmt;
use std::marker::Model;

/// At most `N` bytes, and at most 255, that lie in the value itself: it takes one byte more than they do.
///
/// Contracts see it as their list.
#[derive(Drop)]
pub(crate) struct ByteList<const N: usize> {
    places: [u8; N],
    count: u8,
}

impl<const N: usize> Model for ByteList<N> {
    ghost use Rattle.std.specs.Prelude.{◌≡◌, ◌≤◌, ℕ, List, length, take};

    ghost Value = { List ℕ };

    ghost view = { λ b. take b.count b.places };

    ghost invariant = { λ b. (b.count ≤ N) × (length b.places ≡ N) };
}

impl<const N: usize> ByteList<N> {
    /// The list of these bytes.
    pub(crate) fn of(bytes: &[u8]) -> ByteList<N>
        requires fits { length bytes.now ≤ N }
        requires few { N ≤ 255 }
        ensures { result ≡ bytes.now }
    {
        let mut places = [0; N];
        places[..bytes.len()].copy_from_slice(bytes);
        ByteList {
            places,
            count: bytes.len() as u8,
        }
    }

    /// The list with these bytes at its end.
    pub(crate) fn followed_by(&self, bytes: &[u8]) -> ByteList<N>
        requires fits { length self.now + length bytes.now ≤ N }
        requires few { N ≤ 255 }
        ensures { result ≡ self.now ++ bytes.now }
    {
        let first = usize::from(self.count);
        let mut places = self.places;
        places[..first + bytes.len()][first..].copy_from_slice(bytes);
        ByteList {
            places,
            count: self.count + bytes.len() as u8,
        }
    }

    /// An equal list.
    pub(crate) fn copy(&self) -> ByteList<N>
        ensures { result ≡ self.now }
    {
        ByteList {
            places: self.places,
            count: self.count,
        }
    }

    /// The bytes.
    #[inline]
    pub(crate) fn as_slice(&self) -> &[u8]
        ensures value { result.now ≡ self.now }
        ensures fits { length result.now ≤ N }
    {
        &self.places[..usize::from(self.count)]
    }

    /// How many bytes there are.
    pub(crate) fn len(&self) -> usize
        ensures { result ≡ length self.now }
    {
        usize::from(self.count)
    }
}

impl<const N: usize> PartialEq for ByteList<N> {
    ghost eq = { λ a b. pointwise nat_eq a b };

    ghost laws = { on_per (λ b. b) (partial_equiv_from_equiv nat_list_eq_equiv) };

    fn eq(&self, other: &Self) -> bool {
        self.as_slice() == other.as_slice()
    }
}

impl<const N: usize> Eq for ByteList<N> {
    ghost laws = { on_equiv (λ b. b) nat_list_eq_equiv };
}

impl<const N: usize> fmt::Debug for ByteList<N> {
    fn fmt<W: fmt::Write>(&self, f: &mut fmt::Formatter<W>) -> fmt::Result {
        f.debug_list().entries(self.as_slice()).finish()
    }
}
