//! [`KeptHalf`]: the half of a list that lies under a lock.

ghost use Rattle.std.specs.Prelude.{ℕ, List};
ghost use base.Stored.{coded_list};
ghost use Rattle.sja_threads.specs.Inside.Halves.{kept_owns};

use std::marker::{Model, PhantomData};

/// The half of a list that lies under a lock (this project's own rule). The list is known to contracts alone: this half
/// has no bytes, and nothing is done with it. Its other half is a [`KnownHalf`](super::known_half::KnownHalf) of the
/// same name.
pub struct KeptHalf<V> {
    pub(crate) marker: PhantomData<V>,
    pub(crate) ghost name: { ℕ },
    pub(crate) ghost list: { List V } by { coded_list V.code },
}

impl<V> Model for KeptHalf<V> {
    ghost also_owns = { λ k. kept_owns V.row.coded k.name k.list };
}

impl<V> Drop for KeptHalf<V> {
    fn drop(self) {
        let Self { marker: _ } = self;
    }
}

unsafe impl<V> Send for KeptHalf<V> {}
