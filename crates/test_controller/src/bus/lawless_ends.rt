//! Bus's ends of links that do what no lawful link does, and a bus over them.

use super::wired_bus::WiredBus;
use sja_journal::{Down, Up};
use sja_link::BusEnd;
use sja_steps::FaultScript;
use std::alloc::Global;

/// The end of a node's links that shows up to two items on the first one, and then one more again and again. It gives
/// back its first puts there.
#[derive(Drop)]
pub struct LawlessEnds {
    node: u8,
    first: Option<Up>,
    second: Option<Up>,
    endless: Option<Up>,
    /// It shows the third item only once bus-off was put.
    waits: bool,
    /// How many puts it still gives back.
    back: u32,
    /// How many puts were tried.
    tries: u32,
    /// Bus-off was put.
    off: bool,
}

impl LawlessEnds {
    /// An end that shows nothing, and takes every put.
    fn silent(node: u8) -> LawlessEnds {
        LawlessEnds {
            node,
            first: None,
            second: None,
            endless: None,
            waits: false,
            back: 0,
            tries: 0,
            off: false,
        }
    }
}

impl BusEnd for LawlessEnds {
    ghost use Rattle.std.specs.Prelude.{◌≡◌, ⊤, refl};
    ghost use Rattle.std.proofs.Common.{◌∙◌};

    ghost node = { λ e. e.node };

    ghost links = { λ e. 1 };

    ghost stands = { λ e a l. ⊤ };

    ghost same = { λ a b. b.node ≡ a.node };

    ghost full = { λ e a. ⊤ };

    ghost dry = { λ e a. ⊤ };

    fn node(&self) -> u8 {
        self.node
    }

    fn links(&self) -> u64 {
        1
    }

    fn put(&mut self, activation: u64, item: Down) -> Result<(), Down> {
        if activation > 1 {
            return Ok(());
        }
        self.tries = self.tries.saturating_add(1);
        if self.back > 0 {
            self.back -= 1;
            return Err(item);
        }
        if item == Down::Off {
            self.off = true;
        }
        Ok(())
    }

    fn take(&mut self, activation: u64) -> Option<Up> {
        if activation > 1 {
            return None;
        }
        if let Some(item) = self.first.take() {
            return Some(item);
        }
        if let Some(item) = self.second.take() {
            return Some(item);
        }
        match &self.endless {
            Some(item) if self.off || !self.waits => Some(item.copy()),
            _ => None,
        }
    }

    ghost same_refl = { λ e. refl };

    ghost same_trans = { λ a b c p q. q ∙ p };

    ghost same_node = { λ a b p. p };

    ghost same_links = { λ a b p. refl };
}

/// A bus of two nodes after power-on over such links, which show nothing at first, for 1,000 bits, with these strikes.
pub fn over_lawless_ends(alloc: Global, strikes: FaultScript) -> Option<WiredBus<LawlessEnds>> {
    let mut links = Vec::new(alloc);
    for node in 0..2 {
        links.push(LawlessEnds::silent(node)).ok()?;
    }
    WiredBus::new(alloc, 1, 2, 1_000, strikes, links)
}

/// The end of a node's links.
fn end_of(rig: &mut WiredBus<LawlessEnds>, node: u8) -> Option<&mut LawlessEnds> {
    rig.links.get_mut(usize::from(node))
}

/// The end of a node's links shows these two items, and then the third without end.
pub fn shows(
    rig: &mut WiredBus<LawlessEnds>,
    node: u8,
    first: Option<Up>,
    second: Option<Up>,
    endless: Option<Up>,
) -> Option<()> {
    let end = end_of(rig, node)?;
    end.first = first;
    end.second = second;
    end.endless = endless;
    Some(())
}

/// It waits with the third one until bus-off is put.
pub fn waits(rig: &mut WiredBus<LawlessEnds>, node: u8) -> Option<()> {
    end_of(rig, node)?.waits = true;
    Some(())
}

/// It gives back so many puts.
pub fn gives_back(rig: &mut WiredBus<LawlessEnds>, node: u8, puts: u32) -> Option<()> {
    end_of(rig, node)?.back = puts;
    Some(())
}

/// How many puts were tried at it.
pub fn tries(rig: &mut WiredBus<LawlessEnds>, node: u8) -> Option<u32> {
    Some(end_of(rig, node)?.tries)
}
