//! [`LeftDown`]: what lies on the links of a node at the end of a run.

ghost use Rattle.std.specs.Prelude.{◌≡◌, IfOk};

use can_frame::OutOfMemory;
use sja_journal::Down;
use sja_link::{DequeLink, DequeLinks, OlderDown};
use sja_log::NoLog;
use std::alloc::Global;
use std::marker::Model;

/// The items that lay downward on the links of a node at the end of a run, in order on each link (this project's own
/// rule). Contracts see it as the list of them, each with the activation on whose link it lay.
#[derive(Debug, Drop)]
pub struct LeftDown {
    items: Vec<OlderDown>,
}

impl Model for LeftDown {
    ghost use Rattle.std.specs.Prelude.{List};
    ghost use Rattle.sja_link.specs.declared.older_down.OlderDown.{OlderDown as Item};

    ghost Value = { List Item };

    ghost view = { λ s. s.items.items };
}

impl LeftDown {
    ghost use Rattle.std.specs.Prelude.{◌≡◌, ◌≤◌, ◌+◌, ◌^◌, ◌++◌, ℕ, [], length, IfOk, OnOk, OnErr, Err};
    ghost use Rattle.sja_link.specs.Deques.{on_link, all_down, left_on, down_on, KeepsOlder};
    ghost use Rattle.sja_log.specs.declared.no_log.NoLog.TheVariants.{Endless};

    /// Nothing on any link.
    pub fn new(alloc: Global) -> LeftDown
        ensures { result ≡ [] }
    {
        LeftDown {
            items: Vec::new(alloc),
        }
    }

    /// What lies on the links of a node in one thread: what was left on those that have no queues any more, then what
    /// lies on those that have them, and that on the link at hand last.
    ///
    /// Errors: [`NoLog::Endless`] where more may be left on links without queues than is kept; [`NoLog::Memory`] where
    /// memory was refused.
    pub fn on(alloc: Global, links: &DequeLinks) -> Result<LeftDown, NoLog>
        ensures whole { IfOk result (λ left.
            left ≡ (links.now.older ++ all_down links.now.first links.now.others)
            ++ on_link links.now.at links.now.here.down) }
        ensures each { IfOk result (λ left. (a : ℕ) → left_on left a ≡ down_on links.now a) }
        ensures kept { OnOk result (KeepsOlder links.now) }
        ensures endless { result ≡ Err Endless → KeepsOlder links.now → ⊥ }
    {
        let older = links.older()?;
        let mut left = LeftDown {
            items: copies(alloc, older)?,
        };
        let (first, last) = links.others().as_slices();
        left.push_all(links.first(), first)?;
        left.push_all(links.first() + first.len() as u64, last)?;
        let (front, back) = links.here().down().as_slices();
        left.push(links.at(), front)?;
        left.push(links.at(), back)?;
        Ok(left)
    }

    /// Adds what lies downward on links in order, the first of which is that of this activation.
    ///
    /// Error: [`OutOfMemory`] where memory was refused.
    fn push_all(&mut self, first: u64, links: &[DequeLink]) -> Result<(), OutOfMemory>
        requires few { first + length links.now ≤ 2 ^ 58 + 1 }
        ensures { OnOk result (self.new ≡ self.old ++ all_down first links.now) }
    {
        let mut activation = first;
        for link in links {
            let (front, back) = link.down().as_slices();
            self.push(activation, front)?;
            self.push(activation, back)?;
            activation += 1;
        }
        Ok(())
    }

    /// Adds these items, on the link of an activation.
    ///
    /// Error: [`OutOfMemory`] where memory was refused; then there is what was.
    pub fn push(&mut self, activation: u64, down: &[Down]) -> Result<(), OutOfMemory>
        ensures pushed { OnOk result (self.new ≡ self.old ++ on_link activation down.now) }
        ensures kept { OnErr result (self.new ≡ self.old) }
    {
        self.items.reserve(down.len())?;
        for item in down {
            let item = item.copy();
            self.items.push_reserved(OlderDown { activation, item });
        }
        Ok(())
    }

    /// The items, each with the activation on whose link it lay.
    pub fn items(&self) -> &[OlderDown]
        ensures { result.now ≡ self.now }
    {
        self.items.as_slice()
    }
}

/// The same items.
///
/// Error: [`OutOfMemory`] where memory was refused.
fn copies(alloc: Global, items: &[OlderDown]) -> Result<Vec<OlderDown>, OutOfMemory>
    ensures { IfOk result (λ list. list.items ≡ items.now) }
{
    let mut list = Vec::with_capacity(alloc, items.len())?;
    for left in items {
        let item = left.item.copy();
        list.push_reserved(OlderDown {
            activation: left.activation,
            item,
        });
    }
    Ok(list)
}
