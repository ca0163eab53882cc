//! [`KnownHalf`]: the half of a list that is with who adds to it.

ghost use Rattle.std.specs.Prelude.{ℕ, List};
ghost use base.Stored.{coded_list};
ghost use Rattle.sja_threads.specs.Inside.Halves.{known_owns};

use std::marker::{Model, PhantomData};

/// The half of a list that is with who adds to it (this project's own rule). The list is known to contracts alone: this
/// half has no bytes, and nothing is done with it. Its other half is a [`KeptHalf`](super::kept_half::KeptHalf) of the
/// same name.
pub struct KnownHalf<V> {
    pub(crate) marker: PhantomData<V>,
    pub(crate) ghost name: { ℕ },
    pub(crate) ghost list: { List V } by { coded_list V.code },
}

impl<V> Model for KnownHalf<V> {
    ghost also_owns = { λ k. known_owns V.row.coded k.name k.list };
}

impl<V> Drop for KnownHalf<V> {
    fn drop(self) {
        let Self { marker: _ } = self;
    }
}

unsafe impl<V> Send for KnownHalf<V> {}
