//! [`ActsOfNode`]: the list of what a driver did at its port.

ghost use Rattle.std.specs.Prelude.{◌≡◌};
ghost use Rattle.sja_threads.specs.Inside.Names.{IsNamed};

use super::known_half::KnownHalf;
use super::order::Order;
use sja_thread_promises::PortAct;
use std::marker::PhantomData;

/// The list of what the driver of a node did at its port, as the driver has it, and the port's version (this project's
/// own rule).
#[derive(Drop)]
pub struct ActsOfNode<N: Order> {
    pub(crate) node: u8,
    pub(crate) version: u8,
    pub(crate) known: KnownHalf<PortAct>,
    pub(crate) order: PhantomData<N>,
    ghost named: { IsNamed N.acts node known.name },
    ghost version_is: { version ≡ N.version },
}

impl<N: Order> ActsOfNode<N> {
    /// That list of this node, at a port of this version.
    pub fn new(node: u8, version: u8, known: KnownHalf<PortAct>) -> ActsOfNode<N>
        requires named { IsNamed N.acts node known.name }
        requires version { version ≡ N.version }
        ensures node { result.node ≡ node }
        ensures version { result.version ≡ version }
        ensures known { result.known ≡ known }
    {
        ActsOfNode {
            node,
            version,
            known,
            order: PhantomData,
        }
    }
}
