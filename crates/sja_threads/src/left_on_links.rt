//! What is left on the links of a run that is over.

ghost use Rattle.std.specs.Prelude.{◌≡◌, ◌⊎◌, ◌<◌, ◌++◌, ℕ, true, false, List, length, slice_index_or, IfOk, IfErr};
ghost use Rattle.std.specs.Prelude.{OnOk};
ghost use Rattle.sja_journal.specs.declared.down.Down.{Down};
ghost use Rattle.sja_link.specs.Deques.{left_on};
ghost use Rattle.sja_rings.specs.declared.node_bus.NodeBus.{NodeBus as Bus};
ghost use Rattle.sja_rings.specs.declared.node_driver.NodeDriver.{NodeDriver as Driver};
ghost use Rattle.sja_rings.specs.Ends.{OneLink};
ghost use Rattle.sja_rings.specs.NodeRings.{OneNode};
ghost use Rattle.sja_log.specs.declared.run_fault.RunFault.TheVariants.{Memory, Unsettled};
ghost use Rattle.sja_promises.specs.LeftDown.{on_link};
ghost use Rattle.sja_thread_promises.specs.Stopping.{IsUnsettledBy};
ghost use Rattle.sja_threads.specs.Inside.Settling.{CameFrom, IsLeftOn, AllCameFrom, IsLeftOnAll, LeavesUnsettled};
ghost use Rattle.sja_threads.specs.Inside.Settling.{AreLeftOn, SomeUnsettled};

use sja_log::RunFault;
use sja_promises::LeftDown;
use sja_rings::{NodeBus, NodeDriver, RingBus, RingDriver, end_bus, end_driver, settle};
use std::alloc::Global;

/// Ends both ends of each of these nodes' links, and says whether each gave an account. Then what came out upward at
/// each is a front of what went in there.
pub(crate) fn all_account(links: Vec<NodeBus>, ends: Vec<NodeDriver>) -> bool
    requires count { length links.items ≡ length ends.items }
    requires pairs { (node : ℕ) (b : Bus) (d : Driver) → node < length links.items →
        OneNode (slice_index_or links.items node b) (slice_index_or ends.items node d) }
    ensures yes { result ≡ true → (node : ℕ) (b : Bus) (d : Driver) → node < length links.items →
        AllCameFrom (slice_index_or links.items node b) (slice_index_or ends.items node d) }
    ensures no { result ≡ false → SomeUnsettled links.items ends.items }
{
    let mut ends = ends.into_iter();
    for link in links {
        let Some(end) = ends.next() else {
            unreachable!()
        };
        if !node_accounts(link, end) {
            return false;
        }
    }
    true
}

/// The same of one node.
fn node_accounts(bus: NodeBus, driver: NodeDriver) -> bool
    requires { OneNode bus driver }
    ensures yes { result ≡ true → AllCameFrom bus driver }
    ensures no { result ≡ false → LeavesUnsettled bus driver }
{
    let mut ends = driver.into_rings().into_iter();
    for link in bus.into_rings() {
        let Some(end) = ends.next() else {
            unreachable!()
        };
        if !accounts(link, end) {
            return false;
        }
    }
    true
}

/// The same of one link.
fn accounts(bus: RingBus, driver: RingDriver) -> bool
    requires { OneLink bus driver }
    ensures yes { result ≡ true → CameFrom bus driver }
    ensures no { result ≡ false → IsUnsettledBy bus driver }
{
    match settle(end_bus(bus), end_driver(driver)) {
        Ok(_) => true,
        Err(_) => false,
    }
}

/// What lies downward on the links of each of these nodes.
///
/// Error: [`RunFault::Unsettled`] where something lies upward on a link, or one of its ends gave no account;
/// [`RunFault::Memory`] where memory was refused.
pub(crate) fn settle_all(
    alloc: Global,
    links: Vec<NodeBus>,
    ends: Vec<NodeDriver>,
) -> Result<Vec<LeftDown>, RunFault>
    requires count { length links.items ≡ length ends.items }
    requires pairs { (node : ℕ) (b : Bus) (d : Driver) → node < length links.items →
        OneNode (slice_index_or links.items node b) (slice_index_or ends.items node d) }
    ensures left { IfOk result (λ lists. AreLeftOn links.items ends.items (length links.items) lists.items) }
    ensures fault { IfErr result (λ f. (f ≡ Memory) ⊎ ((f ≡ Unsettled)
        × SomeUnsettled links.items ends.items)) }
{
    let mut lists = Vec::new(alloc);
    let mut ends = ends.into_iter();
    for link in links {
        let Some(end) = ends.next() else {
            unreachable!()
        };
        lists.push(settle_node(alloc, link, end)?)?;
    }
    Ok(lists)
}

/// The same of one node.
///
/// Errors: as [`settle_all`].
fn settle_node(alloc: Global, bus: NodeBus, driver: NodeDriver) -> Result<LeftDown, RunFault>
    requires { OneNode bus driver }
    ensures left { IfOk result (λ left. IsLeftOnAll bus driver (λ a. left_on left a)) }
    ensures fault { IfErr result (λ f. (f ≡ Memory) ⊎ ((f ≡ Unsettled) × LeavesUnsettled bus driver)) }
{
    let mut left = LeftDown::new(alloc);
    let mut activation = 0u64;
    let mut ends = driver.into_rings().into_iter();
    for link in bus.into_rings() {
        let Some(end) = ends.next() else {
            unreachable!()
        };
        activation += 1;
        settle_link(link, end, activation, &mut left)?;
    }
    Ok(left)
}

/// Ends both ends of an activation's link, and adds what lies there downward: all that was put and not got. Nothing
/// lies there upward: all that was given was taken.
///
/// Errors: as [`settle_all`].
fn settle_link(
    bus: RingBus,
    driver: RingDriver,
    activation: u64,
    left: &mut LeftDown,
) -> Result<(), RunFault>
    requires { OneLink bus driver }
    ensures left { OnOk result ((down : List Down) × IsLeftOn bus driver down
        × (left.new ≡ left.old ++ on_link activation down)) }
    ensures fault { IfErr result (λ f. (f ≡ Memory) ⊎ ((f ≡ Unsettled) × IsUnsettledBy bus driver)) }
{
    let Ok(settled) = settle(end_bus(bus), end_driver(driver)) else {
        return Err(RunFault::Unsettled);
    };
    if !settled.up.is_empty() {
        return Err(RunFault::Unsettled);
    }
    left.push(activation, settled.down.as_slice())?;
    Ok(())
}
