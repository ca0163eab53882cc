//! [`TurnsOfNode`]: the list of what the port of a node was told.

ghost use Rattle.std.specs.Prelude.{◌≡◌};
ghost use Rattle.sja_thread_promises.specs.Ordering.{abort_told, ended_told};
ghost use Rattle.sja_threads.specs.Inside.Names.{IsNamed};

use super::known_half::KnownHalf;
use super::order::Order;
use sja_thread_promises::PortUpdate;
use std::marker::PhantomData;

/// The list of what the port of a node was told, as the bus has it; whether its driver was found to have ended, and for
/// how many bits to wait; and whether an abort was found to stand as it was told how many bits have run, and nothing
/// was told since (this project's own rule).
#[derive(Drop)]
pub struct TurnsOfNode<N: Order> {
    pub(crate) node: u8,
    pub(crate) known: KnownHalf<PortUpdate>,
    pub(crate) ended: bool,
    pub(crate) abort: bool,
    pub(crate) awaited: u32,
    pub(crate) order: PhantomData<N>,
    ghost named: { IsNamed N.turns node known.name },
    ghost ended_is: { ended ≡ ended_told known.list },
    ghost abort_is: { abort ≡ abort_told known.list },
}
