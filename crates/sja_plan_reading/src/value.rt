//! Values that are lists of texts, or of nodes.

ghost use Rattle.std.specs.Prelude.{◌≡◌, ◌⊎◌, Some, None, map, codes, option_and_then, IfOk, IfErr};
ghost use Rattle.toml.specs.Data.{get_member};
ghost use Rattle.toml.specs.View.{view, table_view, items_view};
ghost use Rattle.sja_plan_reading.specs.Document.{texts_of, texts_in, optional_texts, turn_texts, turns_left_out};
ghost use Rattle.sja_plan_reading.specs.Document.{node_of, nodes_of, nodes_in};

use super::members::{has_only, value_at};
use super::plan_fault::PlanFault;
use sja_plan::FIRST_BY_BYTES;
use std::alloc::Global;
use toml::{Table, Value};

/// The steps of each node of the list at the key `node`.
pub(crate) fn node_list<'a>(alloc: Global, table: &'a Table) -> Result<Vec<Vec<&'a str>>, PlanFault>
    ensures ok { IfOk result (λ v. option_and_then nodes_in (get_member (codes "node") (table_view table.entry.now))
        ≡ Some (map (λ steps. map (λ s. s.now) steps.items) v.items)) }
    ensures err { IfErr result (λ e. (e ≡ PlanFault.Memory) ⊎ ((e ≡ PlanFault.Key)
        × (option_and_then nodes_in (get_member (codes "node") (table_view table.entry.now)) ≡ None))) }
{
    let Some(value) = value_at(table, "node") else {
        return Err(PlanFault::Key);
    };
    match value.as_array() {
        Some(values) => nodes(alloc, values.as_slice()),
        None => Err(PlanFault::Key),
    }
}

/// The texts of the list at a key, and none where the key is absent.
pub(crate) fn optional_list<'a>(
    alloc: Global,
    table: &'a Table,
    key: &str,
) -> Result<Vec<&'a str>, PlanFault>
    ensures ok { IfOk result (λ v. optional_texts (get_member key.now (table_view table.entry.now))
        ≡ Some (map (λ s. s.now) v.items)) }
    ensures err { IfErr result (λ e. (e ≡ PlanFault.Memory)
        ⊎ ((e ≡ PlanFault.Key) × (optional_texts (get_member key.now (table_view table.entry.now)) ≡ None))) }
{
    match value_at(table, key) {
        Some(value) => text_list(alloc, value),
        None => Ok(Vec::new(alloc)),
    }
}

/// The texts of the turns; where the key is absent, in version 3 that by which drivers go by themselves, and else none.
pub(crate) fn turn_list<'a>(
    alloc: Global,
    table: &'a Table,
    version: i64,
) -> Result<Vec<&'a str>, PlanFault>
    ensures ok { IfOk result (λ v. turn_texts version (get_member (codes "turns") (table_view table.entry.now))
        ≡ Some (map (λ s. s.now) v.items)) }
    ensures err { IfErr result (λ e. (e ≡ PlanFault.Memory) ⊎ ((e ≡ PlanFault.Key)
        × (turn_texts version (get_member (codes "turns") (table_view table.entry.now)) ≡ None))) }
{
    match value_at(table, "turns") {
        Some(value) => text_list(alloc, value),
        None => left_out(alloc, version),
    }
}

/// The texts of the turns of a plan without the key.
fn left_out<'a>(alloc: Global, version: i64) -> Result<Vec<&'a str>, PlanFault>
    ensures ok { IfOk result (λ v. turns_left_out version ≡ map (λ s. s.now) v.items) }
    ensures err { IfErr result (λ e. e ≡ PlanFault.Memory) }
{
    let mut texts = Vec::new(alloc);
    if version == i64::from(FIRST_BY_BYTES) && texts.push("go").is_err() {
        return Err(PlanFault::Memory);
    }
    Ok(texts)
}

/// The texts of a list.
fn text_list<'a>(alloc: Global, value: &'a Value) -> Result<Vec<&'a str>, PlanFault>
    ensures ok { IfOk result (λ v. texts_in (view value.entry.now) ≡ Some (map (λ s. s.now) v.items)) }
    ensures err { IfErr result (λ e. (e ≡ PlanFault.Memory)
        ⊎ ((e ≡ PlanFault.Key) × (texts_in (view value.entry.now) ≡ None))) }
{
    match value.as_array() {
        Some(values) => texts(alloc, values.as_slice()),
        None => Err(PlanFault::Key),
    }
}

/// These values as texts, where each is one.
fn texts<'a>(alloc: Global, values: &'a [Value]) -> Result<Vec<&'a str>, PlanFault>
    ensures ok { IfOk result (λ v. texts_of (items_view values.entry.now) ≡ Some (map (λ s. s.now) v.items)) }
    ensures err { IfErr result (λ e. (e ≡ PlanFault.Memory)
        ⊎ ((e ≡ PlanFault.Key) × (texts_of (items_view values.entry.now) ≡ None))) }
{
    let Ok(mut found) = Vec::with_capacity(alloc, values.len()) else {
        return Err(PlanFault::Memory);
    };
    for value in values {
        match value.as_str() {
            Some(text) => found.push_reserved(text),
            None => return Err(PlanFault::Key),
        }
    }
    Ok(found)
}

/// The steps of each node.
fn nodes<'a>(alloc: Global, values: &'a [Value]) -> Result<Vec<Vec<&'a str>>, PlanFault>
    ensures ok { IfOk result (λ v. nodes_of (items_view values.entry.now)
        ≡ Some (map (λ steps. map (λ s. s.now) steps.items) v.items)) }
    ensures err { IfErr result (λ e. (e ≡ PlanFault.Memory)
        ⊎ ((e ≡ PlanFault.Key) × (nodes_of (items_view values.entry.now) ≡ None))) }
{
    let Ok(mut found) = Vec::with_capacity(alloc, values.len()) else {
        return Err(PlanFault::Memory);
    };
    for value in values {
        match steps(alloc, value) {
            Ok(texts) => found.push_reserved(texts),
            Err(fault) => return Err(fault),
        }
    }
    Ok(found)
}

/// The steps of a node's table.
fn steps<'a>(alloc: Global, value: &'a Value) -> Result<Vec<&'a str>, PlanFault>
    ensures ok { IfOk result (λ v. node_of (view value.entry.now) ≡ Some (map (λ s. s.now) v.items)) }
    ensures err { IfErr result (λ e. (e ≡ PlanFault.Memory)
        ⊎ ((e ≡ PlanFault.Key) × (node_of (view value.entry.now) ≡ None))) }
{
    let Some(table) = value.as_table() else {
        return Err(PlanFault::Key);
    };
    if !has_only(table, &["steps"]) {
        return Err(PlanFault::Key);
    }
    match value_at(table, "steps") {
        Some(value) => text_list(alloc, value),
        None => Err(PlanFault::Key),
    }
}
