//! The links of a bus: those of one in one thread, and whether given ends are of its nodes.

ghost use Rattle.std.specs.Prelude.{◌≡◌, ◌<◌, ◌≤◌, ◌^◌, true, false, IfOk};
ghost use Rattle.sja_journal.specs.Links.{AreEnds, HaveLinks};
ghost use Rattle.sja_link.specs.NewLinks.{AreNewLinks};

use can_frame::OutOfMemory;
use sja_link::{BusEnd, DequeLinks};
use std::alloc::Global;

/// The links of so many nodes in order, each for so many activations, with nothing on them. All their room is made
/// here.
///
/// Error: [`OutOfMemory`] where memory was refused.
pub fn serial_links(alloc: Global, nodes: u8, starts: u64) -> Result<Vec<DequeLinks>, OutOfMemory>
    requires { starts ≤ 2 ^ 58 }
    ensures { IfOk result (λ links. AreNewLinks nodes starts links.items) }
{
    let mut links = Vec::with_capacity(alloc, usize::from(nodes))?;
    for node in 0..nodes {
        links.push_reserved(DequeLinks::new(alloc, node, starts)?);
    }
    Ok(links)
}

/// Whether these are the ends of the links of so many nodes, as each call of a bus asks of its caller: one a node, in
/// order, each with links for so many activations (this project's own rule). It serves tests and benches: links that
/// [`serial_links`] made, or that were made in this order, need no test.
pub fn are_links_of<E: BusEnd>(links: &[E], nodes: u8, starts: u64) -> bool
    ensures yes { result ≡ true → AreEnds E.node nodes links.now }
    ensures links { result ≡ true → HaveLinks E.links starts links.now }
    ensures no { result ≡ false → AreEnds E.node nodes links.now → HaveLinks E.links starts links.now → ⊥ }
{
    if links.len() != usize::from(nodes) {
        return false;
    }
    for node in 0..nodes {
        let end = &links[node as usize];
        if end.node() != node || end.links() != starts {
            return false;
        }
    }
    true
}
