//! The tables that a plan's document is made of.

ghost use Rattle.std.specs.Prelude.{◌≡◌, IfOk};
ghost use Rattle.toml.specs.Data.{member, no_members};
ghost use Rattle.toml.specs.View.{view, table_view};
ghost use Rattle.sja_plan_text.specs.Inside.Table.{node_data, nodes_data};

use super::text_form::text_list;
use can_frame::OutOfMemory;
use sja_plan::Plan;
use sja_steps::Step;
use std::alloc::Global;
use toml::{Table, Value};

/// The table with this value at this key alone.
pub(crate) fn one_member(alloc: Global, key: &str, value: Value) -> Result<Table, OutOfMemory>
    ensures { IfOk result (λ t. table_view t ≡ member key.now (view value) no_members) }
{
    let mut table = Table::new(alloc);
    table.insert(String::from_str(alloc, key)?, value)?;
    Ok(table)
}

/// A table for each node of a plan, with names or without.
pub(crate) fn node_list(alloc: Global, named: bool, plan: &Plan) -> Result<Value, OutOfMemory>
    ensures { IfOk result (λ v. view v ≡ nodes_data named plan.now.nodes) }
{
    let mut nodes = Vec::new(alloc);
    for node in 0..plan.nodes() {
        nodes.push(node_table(alloc, named, plan.steps(node))?)?;
    }
    Ok(Value::from(nodes))
}

/// The table of a node.
fn node_table(alloc: Global, named: bool, steps: &[Step]) -> Result<Value, OutOfMemory>
    ensures { IfOk result (λ v. view v ≡ node_data named steps.now) }
{
    let steps = text_list(alloc, named, steps)?;
    Ok(Value::from(one_member(alloc, "steps", steps)?))
}
