//! Plans of given parts, and blank ones.

ghost use Rattle.std.specs.Prelude.{◌≡◌, ◌≤◌, map, replicate, IfOk};
ghost use Rattle.sja_plan.specs.Plan.{times_in};
ghost use Rattle.sja_steps.specs.declared.step.Step.TheVariants.{Window};

use super::plan::Plan;
use super::turn::Turn;
use can_frame::OutOfMemory;
use sja_steps::{Step, Strike};
use std::alloc::Global;

/// Of so many nodes, each so many steps that look at the window.
///
/// Error: [`OutOfMemory`] where memory was refused.
fn blank_nodes(alloc: Global, nodes: usize, steps: u32) -> Result<Vec<Vec<Step>>, OutOfMemory>
    ensures { IfOk result (λ lists. map (λ steps. steps.items) lists.items
        ≡ replicate nodes (replicate steps Window)) }
{
    let mut lists = Vec::with_capacity(alloc, nodes)?;
    for _ in 0..nodes {
        lists.push_reserved(blank_steps(alloc, steps)?);
    }
    Ok(lists)
}

/// So many steps that look at the window.
///
/// Error: [`OutOfMemory`] where memory was refused.
fn blank_steps(alloc: Global, steps: u32) -> Result<Vec<Step>, OutOfMemory>
    ensures { IfOk result (λ list. list.items ≡ replicate steps Window) }
{
    let mut list = Vec::with_capacity(alloc, steps as usize)?;
    for _ in 0..steps {
        list.push_reserved(Step::Window);
    }
    Ok(list)
}

/// How many bits these strikes strike.
fn times(strikes: &[Strike]) -> u32
    requires { times_in strikes.now ≤ 100000 }
    ensures { result ≡ times_in strikes.now }
{
    strikes.iter().map(|strike| strike.times).sum()
}

impl Plan {
    ghost use Rattle.std.specs.Prelude.{◌≡◌, ◌≤◌, map, IfOk};
    ghost use Rattle.sja_plan.specs.Plan.{IsInLimits};
    ghost use Rattle.sja_plan.specs.Limits.{most_bits, most_steps};
    ghost use Rattle.sja_plan.specs.Growing.{plan_of, blank_plan};

    /// The plan of these five: its version, its bits, of each node its steps, its turns and its strikes.
    pub fn of(
        version: u8,
        bits: u32,
        nodes: Vec<Vec<Step>>,
        turns: Vec<Turn>,
        strikes: Vec<Strike>,
    ) -> Plan
        requires { IsInLimits (plan_of version bits (map (λ steps. steps.items) nodes.items) turns.items
            strikes.items) }
        ensures { result ≡ plan_of version bits (map (λ steps. steps.items) nodes.items) turns.items strikes.items }
    {
        let struck = times(strikes.as_slice());
        Plan {
            version,
            bits,
            nodes,
            turns,
            strikes,
            struck,
        }
    }

    /// A plan of so many nodes, each with so many steps that look at the window, with no turn and no strike.
    ///
    /// Error: [`OutOfMemory`] where memory was refused.
    pub fn blank(
        alloc: Global,
        version: u8,
        bits: u32,
        nodes: u8,
        steps: u32,
    ) -> Result<Plan, OutOfMemory>
        requires version { (1 ≤ version) × (version ≤ 3) }
        requires bits { (1 ≤ bits) × (bits ≤ most_bits version) }
        requires nodes { (1 ≤ nodes) × (nodes ≤ 8) }
        requires steps { steps ≤ most_steps version }
        ensures { IfOk result (λ p. p ≡ blank_plan version bits nodes steps) }
    {
        Ok(Plan {
            version,
            bits,
            nodes: blank_nodes(alloc, usize::from(nodes), steps)?,
            turns: Vec::new(alloc),
            strikes: Vec::new(alloc),
            struck: 0,
        })
    }
}
