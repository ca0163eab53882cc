//! Plans read from bytes.

ghost use Rattle.std.specs.Prelude.{◌≡◌, ◌<◌, Some, length, All, IfOk, IfErr};
ghost use Rattle.toml.specs.Parse.{parse_document};
ghost use Rattle.toml.specs.View.{table_view};
ghost use Rattle.sja_plan_reading.specs.Faults.{IsText, IsPlanOf, IsFirstFault};
ghost use Rattle.sja_plan_reading.specs.Inside.Views.{IsEarlyFault};
ghost use Rattle.sja_plan.specs.declared.placed_strike.PlacedStrike.{PlacedStrike as Placed};
ghost use Rattle.sja_plan_reading.specs.PlacedPlans.{ArePlacedPlan, IsFirstPlacedFault};

use super::checks::judge;
use super::document::read_document;
use super::document_limits::most_bytes;
use super::plan_fault::PlanFault;
use super::tables::{Look, look_at};
use sja_plan::{PlacedPlan, Plan};
use std::alloc::Global;
use toml::{Table, table_from_str};

/// The plan that these bytes are.
///
/// Errors: the first check that fails, in the order of [`PlanFault`]'s variants. Where the bytes are more than
/// [`most_bytes`] no more is looked at than their number and what stands before the first key.
#[tactic(auto, using(crate::proofs::OneReading::PassedOn::passed_on))]
pub fn read_plan(alloc: Global, bytes: &[u8]) -> Result<Plan, PlanFault>
    ensures ok { IfOk result (IsPlanOf bytes.now) }
    ensures err { IfErr result (IsFirstFault bytes.now) }
{
    let table = table_of(alloc, bytes)?;
    let document = read_document(alloc, &table)?;
    match judge(alloc, &document, false) {
        Ok(read) => Ok(read.plan),
        Err(fault) => Err(fault),
    }
}

/// The plan that these bytes are, where in version 3 strikes may name places: with its strikes by bits, and beside it
/// those by place, in the order of the document.
///
/// Errors: as those of [`read_plan`], but that a text that names a place is no fault in version 3.
pub fn read_placed_plan(alloc: Global, bytes: &[u8]) -> Result<PlacedPlan, PlanFault>
    ensures ok { IfOk result (λ p. ArePlacedPlan bytes.now p.plan p.placed.items) }
    ensures there { IfOk result (λ p. All (λ (s : Placed). s.node < length p.plan.nodes) p.placed.items) }
    ensures err { IfErr result (IsFirstPlacedFault bytes.now) }
{
    let table = table_of(alloc, bytes)?;
    let document = read_document(alloc, &table)?;
    judge(alloc, &document, true)
}

/// The TOML document that these bytes are.
fn table_of(alloc: Global, bytes: &[u8]) -> Result<Table, PlanFault>
    ensures ok { IfOk result (λ table. IsText bytes.now × (parse_document bytes.now ≡ Some (table_view table))) }
    ensures err { IfErr result (IsEarlyFault bytes.now) }
{
    if bytes.len() > most_bytes(bytes) {
        return Err(PlanFault::TooLong);
    }
    let Ok(text) = str::from_utf8(bytes) else {
        return Err(PlanFault::NotText);
    };
    match look_at(alloc, text)? {
        Look::Strange => return Err(PlanFault::Key),
        Look::NoToml => return Err(PlanFault::Toml),
        Look::Open => {}
    }
    match table_from_str(alloc, text) {
        Ok(table) => Ok(table),
        Err(error) if error.is_memory() => Err(PlanFault::Memory),
        Err(_) => Err(PlanFault::Toml),
    }
}
