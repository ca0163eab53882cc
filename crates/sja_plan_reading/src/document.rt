//! What a plan's document says, before it is judged.

ghost use Rattle.std.specs.Prelude.{◌≡◌, ◌⊎◌, Some, None, codes, map, IfOk, IfErr};
ghost use Rattle.toml.specs.Data.{get_member};
ghost use Rattle.toml.specs.View.{table_view};
ghost use Rattle.sja_plan_reading.specs.Document.{DocumentValue, HasShape, IsMisshapen};
ghost use Rattle.sja_plan_reading.specs.Document.{knows, plan_keys, strike_texts};
ghost use Rattle.sja_plan_reading.specs.Inside.Views.{document_view, HasLists};

use super::members::{has_only, integer_at, value_at};
use super::plan_fault::PlanFault;
use super::value::{node_list, optional_list, turn_list};
use sja_plan::FIRST_BY_BYTES;
use std::alloc::Global;
use toml::Table;

/// The keys of a plan, the last of them in version 3 alone.
pub(crate) const KEYS: [&str; 6] = ["version", "bits", "node", "turns", "faults", "strikes"];

/// What a document with a plan's keys says. Its texts stay where the document has them.
#[derive(Drop)]
pub(crate) struct Document<'a> {
    pub(crate) version: i64,
    pub(crate) bits: i64,
    pub(crate) nodes: Vec<Vec<&'a str>>,
    pub(crate) turns: Vec<&'a str>,
    pub(crate) faults: Vec<&'a str>,
}

/// What the table says, where it has a plan's keys and each value is of its kind.
pub(crate) fn read_document<'a>(alloc: Global, table: &'a Table) -> Result<Document<'a>, PlanFault>
    ensures ok { IfOk result (λ d. HasShape (table_view table.entry.now) (document_view d)) }
    ensures err { IfErr result (λ e. (e ≡ PlanFault.Memory)
        ⊎ ((e ≡ PlanFault.Key) × IsMisshapen (table_view table.entry.now))) }
{
    match (integer_at(table, "version"), integer_at(table, "bits")) {
        (Some(version), Some(bits)) if has_keys(table, version) => {
            lists_of(alloc, table, version, bits)
        }
        _ => Err(PlanFault::Key),
    }
}

/// Whether each key of the table is one that a plan of this version has.
fn has_keys(table: &Table, version: i64) -> bool
    ensures { result ≡ knows (plan_keys version) (table_view table.now) }
{
    if version == i64::from(FIRST_BY_BYTES) {
        has_only(table, &KEYS)
    } else {
        has_only(table, &KEYS[..5])
    }
}

/// What the table says beside these two numbers, where each list is of its kind.
fn lists_of<'a>(
    alloc: Global,
    table: &'a Table,
    version: i64,
    bits: i64,
) -> Result<Document<'a>, PlanFault>
    ensures ok { IfOk result (λ d. HasLists (table_view table.entry.now) version bits (document_view d)) }
    ensures err { IfErr result (λ e. (e ≡ PlanFault.Memory)
        ⊎ ((e ≡ PlanFault.Key) × ((d : DocumentValue) → ¬ HasLists (table_view table.entry.now) version bits d))) }
{
    Ok(Document {
        version,
        bits,
        nodes: node_list(alloc, table)?,
        turns: turn_list(alloc, table, version)?,
        faults: strike_list(alloc, table)?,
    })
}

/// The texts of the strikes, at one of their two keys.
fn strike_list<'a>(alloc: Global, table: &'a Table) -> Result<Vec<&'a str>, PlanFault>
    ensures ok { IfOk result (λ v. strike_texts (get_member (codes "faults") (table_view table.entry.now))
        (get_member (codes "strikes") (table_view table.entry.now)) ≡ Some (map (λ s. s.now) v.items)) }
    ensures err { IfErr result (λ e. (e ≡ PlanFault.Memory)
        ⊎ ((e ≡ PlanFault.Key) × (strike_texts (get_member (codes "faults") (table_view table.entry.now))
        (get_member (codes "strikes") (table_view table.entry.now)) ≡ None))) }
{
    if value_at(table, "strikes").is_none() {
        return optional_list(alloc, table, "faults");
    }
    if value_at(table, "faults").is_some() {
        return Err(PlanFault::Key);
    }
    optional_list(alloc, table, "strikes")
}
