//! The checks of what a document says, in their order.

ghost use Rattle.std.specs.Prelude.{◌≡◌, ◌==◌, ◌&&◌, ◌≤◌, ◌<◌, ◌++◌, length, map, All, IfOk, IfErr, OnOk};
ghost use Rattle.std.specs.List.{AllZip};
ghost use Rattle.sja_plan_reading.specs.Inside.Views.{document_view, step_fault, IsOther};
ghost use Rattle.sja_plan_reading.specs.StepTexts.{SaysStep};
ghost use Rattle.sja_plan_reading.specs.TurnTexts.{SaysTurn};
ghost use Rattle.sja_plan_reading.specs.PlacedTexts.{SaysItem, bits_in, item_bits, item_placed, placed_from};
ghost use Rattle.sja_plan_reading.specs.PlacedPlans.{has_places, SaysPlacedPlan, IsPlacedFault};
ghost use Rattle.sja_plan_reading.specs.Checks.{version_of, HasNodes, HasFewTurns, HasFewStrikes};
ghost use Rattle.sja_plan_reading.specs.Checks.{BeforeSteps, BeforeTurnCount, BeforeStrikeCount};
ghost use Rattle.sja_plan_reading.specs.Faults.{IsDocumentFault};
ghost use Rattle.sja_plan.specs.declared.placed_strike.PlacedStrike.{PlacedStrike as Placed};

use super::document::Document;
use super::list_fault::ListFault;
use super::plan_fault::PlanFault;
use super::plan_text::read_all;
use super::settings::settings_of;
use super::strike_count::strikes_are_few;
use super::strike_item::StrikeItem;
use super::within::Within;
use sja_plan::{FIRST_BY_BYTES, PlacedPlan, PlacedStrike, Plan, Turn, most_strikes, most_turns};
use sja_steps::{Step, Strike};
use std::alloc::{AllocError, Global};

/// The plan that a document is, with its strikes by place, where these may be.
#[tactic(auto, using(crate::proofs::PlanLimits::OfDocuments::version_is, crate::proofs::Parts::Items::other_fault))]
pub(crate) fn judge(alloc: Global, document: &Document, may: bool) -> Result<PlacedPlan, PlanFault>
    ensures ok { IfOk result (λ p. SaysPlacedPlan may (document_view document.now) p.plan p.placed.items) }
    ensures there { IfOk result (λ p. All (λ (s : Placed). s.node < length p.plan.nodes) p.placed.items) }
    ensures err { IfErr result (IsPlacedFault may (document_view document.now)) }
{
    let settings = settings_of(document)?;
    let version = settings.version;
    let steps = steps(alloc, document, version)?;
    let turns = turns(alloc, document, version)?;
    let items = items(alloc, document, version, may)?;
    let strikes = bits_in(alloc, items.as_slice())?;
    let placed = placed_in(alloc, items.as_slice())?;
    Ok(PlacedPlan {
        plan: Plan::of(version, settings.bits, steps, turns, strikes),
        placed,
    })
}

/// Within what the texts of a document of this version are read, where strikes may name places or not.
fn within_of(document: &Document, version: u8, places: bool) -> Within
    ensures { result ≡ record {
      version = version;
      nodes = length (document_view document.now).nodes;
      places = places;
    } }
{
    Within {
        version: usize::from(version),
        nodes: document.nodes.len(),
        places,
    }
}

/// Each node's steps.
fn steps(alloc: Global, document: &Document, version: u8) -> Result<Vec<Vec<Step>>, PlanFault>
    requires version { version_of (document_view document.now) ≡ version }
    requires known { version ≤ 3 }
    requires nodes { HasNodes (document_view document.now) }
    ensures ok { IfOk result (λ v. AllZip (AllZip (SaysStep version)) (document_view document.now).nodes
        (map (λ steps. steps.items) v.items)) }
    ensures err { IfErr result (λ e. BeforeSteps (document_view document.now)
        → IsDocumentFault (document_view document.now) e) }
    ensures other { IfErr result IsOther }
{
    let Ok(mut found) = Vec::with_capacity(alloc, document.nodes.len()) else {
        return Err(PlanFault::Memory);
    };
    let within = within_of(document, version, false);
    for texts in document.nodes.as_slice() {
        match read_all::<Step>(alloc, within, texts.as_slice()) {
            Ok(steps) => found.push_reserved(steps),
            Err(fault) => return Err(step_fault(found.len(), fault)),
        }
    }
    Ok(found)
}

/// The fault of this node's steps.
fn step_fault(node: usize, fault: ListFault) -> PlanFault
    ensures is { result ≡ step_fault node fault }
    ensures other { IsOther result }
{
    match fault {
        ListFault::NoMemory => PlanFault::Memory,
        ListFault::Bad(number) => PlanFault::Step(node, number),
    }
}

/// The turns.
fn turns(alloc: Global, document: &Document, version: u8) -> Result<Vec<Turn>, PlanFault>
    requires version { version_of (document_view document.now) ≡ version }
    requires nodes { HasNodes (document_view document.now) }
    ensures few { OnOk result (HasFewTurns (document_view document.now)) }
    ensures ok { IfOk result (λ v. AllZip (SaysTurn version (length (document_view document.now).nodes))
        (document_view document.now).turns v.items) }
    ensures err { IfErr result (λ e. BeforeTurnCount (document_view document.now)
        → IsDocumentFault (document_view document.now) e) }
    ensures other { IfErr result IsOther }
{
    if document.turns.len() > most_turns(version) {
        return Err(PlanFault::TurnCount);
    }
    match read_all(
        alloc,
        within_of(document, version, false),
        document.turns.as_slice(),
    ) {
        Ok(turns) => Ok(turns),
        Err(ListFault::NoMemory) => Err(PlanFault::Memory),
        Err(ListFault::Bad(number)) => Err(PlanFault::Turn(number)),
    }
}

/// What the texts of the strikes say, which in version 3 may name places where that is allowed.
fn items(
    alloc: Global,
    document: &Document,
    version: u8,
    may: bool,
) -> Result<Vec<StrikeItem>, PlanFault>
    requires version { version_of (document_view document.now) ≡ version }
    requires nodes { HasNodes (document_view document.now) }
    ensures few { OnOk result (HasFewStrikes (document_view document.now)) }
    ensures ok { IfOk result (λ v. AllZip (SaysItem (has_places may (document_view document.now))
        (length (document_view document.now).nodes)) (document_view document.now).faults v.items) }
    ensures err { IfErr result (λ e. BeforeStrikeCount (document_view document.now)
        → IsPlacedFault may (document_view document.now) e) }
{
    if !strikes_are_few(alloc, document.faults.as_slice(), most_strikes(version))? {
        return Err(PlanFault::StrikeCount);
    }
    match read_all(
        alloc,
        within_of(document, version, has_places(may, version)),
        document.faults.as_slice(),
    ) {
        Ok(items) => Ok(items),
        Err(ListFault::NoMemory) => Err(PlanFault::Memory),
        Err(ListFault::Bad(number)) => Err(PlanFault::Strike(number)),
    }
}

/// Whether strikes may name places in this version, where that is allowed.
fn has_places(may: bool, version: u8) -> bool
    ensures { result ≡ (may && (version == 3)) }
{
    may && version == FIRST_BY_BYTES
}

/// The strikes by bits.
fn bits_in(alloc: Global, items: &[StrikeItem]) -> Result<Vec<Strike>, AllocError>
    ensures { IfOk result (λ v. v.items ≡ bits_in items.now) }
{
    let mut strikes = Vec::new(alloc);
    for item in items {
        push_bits(&mut strikes, item)?;
    }
    Ok(strikes)
}

/// That of an item, if it is one.
fn push_bits(strikes: &mut Vec<Strike>, item: &StrikeItem) -> Result<(), AllocError>
    ensures { OnOk result (strikes.new.items ≡ strikes.old.items ++ item_bits item.now) }
{
    if let StrikeItem::AtBits(strike) = *item {
        strikes.push(strike)?;
    }
    Ok(())
}

/// The strikes by place.
fn placed_in(alloc: Global, items: &[StrikeItem]) -> Result<Vec<PlacedStrike>, AllocError>
    ensures { IfOk result (λ v. v.items ≡ placed_from 1 items.now) }
{
    let mut placed = Vec::new(alloc);
    let mut number = 1usize;
    for item in items {
        push_placed(&mut placed, number, item)?;
        number += 1;
    }
    Ok(placed)
}

/// That of an item of this number, if it is one.
fn push_placed(
    placed: &mut Vec<PlacedStrike>,
    number: usize,
    item: &StrikeItem,
) -> Result<(), AllocError>
    ensures { OnOk result (placed.new.items ≡ placed.old.items ++ item_placed number item.now) }
{
    if let StrikeItem::AtPlace(node, frames, place) = *item {
        placed.push(PlacedStrike {
            item: number,
            node,
            frames,
            place,
        })?;
    }
    Ok(())
}
