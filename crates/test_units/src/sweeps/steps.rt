//! The sweep of a plan of version 3 whose node has as many steps as there may be.

use sja_plan::Plan;
use sja_sweep::{Sweeping, sweep, sweep_jobs};
use std::test::Fail;

/// There is a sweep, of no runs, since no bit is run.
#[test]
fn a_node_with_all_its_steps_is_swept(rt: HostRuntime) -> Result<(), Fail> {
    let plan = Plan::blank(rt.alloc(), 3, 400, 1, 65_535)?;
    let alone = sweep(rt.alloc(), &plan, &Sweeping::all()).err();
    assert!(rt; alone == None);
    let among = sweep_jobs(&rt, rt.alloc(), &plan, &Sweeping::all(), 3).err();
    assert!(rt; among == None);
    Ok(())
}
