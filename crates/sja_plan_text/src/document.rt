//! A plan written as a document.

ghost use Rattle.std.specs.Prelude.{◌≡◌, ◌⊎◌, IfOk, IfErr, OnOk, string_bytes};
ghost use Rattle.toml.specs.Data.{member, no_members};
ghost use Rattle.toml.specs.View.{view};
ghost use Rattle.sja_plan_text.specs.HasTexts.{HasTexts};
ghost use Rattle.sja_plan_text.specs.Document.{IsDocumentOf};
ghost use Rattle.sja_plan_text.specs.Written.{IsWritten, IsPlanText, IsTooLong, has_names, strikes_key};
ghost use Rattle.sja_plan_text.specs.Inside.Table.{with_strikes, Adds};
ghost use Rattle.sja_plan_text.specs.declared.plan_text_fault.PlanTextFault.TheVariants.{NoMemory, TooLong};

use super::plan_text_fault::PlanTextFault;
use super::table::{node_list, one_member};
use super::text_form::text_list;
use can_frame::OutOfMemory;
use sja_plan::{FIRST_BY_BYTES, Plan};
use sja_plan_reading::most_bytes;
use sja_steps::Strike;
use std::alloc::Global;
use toml::{Value, table_to_string, table_to_string_pretty};

/// The plan as a TOML document, which `read_plan` reads as this plan. The plan has to have texts, by
/// [`has_texts`](crate::has_texts), as each one that was read has.
///
/// The keys come in the order `version`, `bits`, `turns`, `faults` where there are strikes, and the nodes. Of a list
/// with two items or more each has a line of its own, or all have one line where the document would be too long. In
/// version 3 the first of these has names: `strikes` for `faults`, and steps as [`named_text`](crate::named_text).
///
/// Errors: [`PlanTextFault::NoMemory`] where memory was refused; [`PlanTextFault::TooLong`] where the document has more
/// than 65,536 bytes, or than 16 MiB in version 3, which is the first thing that it says (this project's own rule).
pub fn plan_text(alloc: Global, plan: &Plan) -> Result<String, PlanTextFault>
    requires { HasTexts plan.now }
    ensures ok { IfOk result (λ text. IsPlanText plan.now (string_bytes text)) }
    ensures err { IfErr result (λ e. (e ≡ NoMemory) ⊎ ((e ≡ TooLong) × IsTooLong plan.now)) }
{
    let text = document(alloc, plan, true)?;
    if text.len() <= most_bytes(text.as_bytes()) {
        return Ok(text);
    }
    let text = document(alloc, plan, false)?;
    if text.len() <= most_bytes(text.as_bytes()) {
        return Ok(text);
    }
    Err(PlanTextFault::TooLong)
}

/// The document of a plan, however long it is. Where it is pretty, each item of a list has a line of its own, and in
/// version 3 there are names.
fn document(alloc: Global, plan: &Plan, pretty: bool) -> Result<String, OutOfMemory>
    requires { HasTexts plan.now }
    ensures { IfOk result (λ text. IsWritten pretty plan.now (string_bytes text)
        × IsDocumentOf (string_bytes text) plan.now) }
{
    let named = has_names(pretty, plan.version());
    let mut text = String::new(alloc);
    add(
        alloc,
        &mut text,
        pretty,
        "version",
        Value::from(plan.version()),
    )?;
    add(alloc, &mut text, pretty, "bits", Value::from(plan.bits()))?;
    let turns = text_list(alloc, named, plan.turns())?;
    add(alloc, &mut text, pretty, "turns", turns)?;
    add_strikes(alloc, &mut text, pretty, named, plan.strikes())?;
    text.push_str("\n")?;
    let nodes = node_list(alloc, named, plan)?;
    add(alloc, &mut text, pretty, "node", nodes)?;
    Ok(text)
}

/// Whether a document of this version has names.
fn has_names(pretty: bool, version: u8) -> bool
    ensures { result ≡ has_names pretty version }
{
    pretty && version >= FIRST_BY_BYTES
}

/// Writes the strikes, where there are some.
fn add_strikes(
    alloc: Global,
    text: &mut String,
    pretty: bool,
    named: bool,
    strikes: &[Strike],
) -> Result<(), OutOfMemory>
    ensures { OnOk result (Adds pretty (with_strikes named strikes.now no_members)
        (string_bytes text.old) (string_bytes text.new)) }
{
    if strikes.is_empty() {
        return Ok(());
    }
    let strikes = text_list(alloc, named, strikes)?;
    add(alloc, text, pretty, strikes_key(named), strikes)
}

/// The key of the strikes, with names or without.
fn strikes_key(named: bool) -> &'static str
    ensures { result.now ≡ strikes_key named }
{
    if named { "strikes" } else { "faults" }
}

/// Writes a value with its key.
fn add(
    alloc: Global,
    text: &mut String,
    pretty: bool,
    key: &str,
    value: Value,
) -> Result<(), OutOfMemory>
    ensures { OnOk result (Adds pretty (member key.now (view value) no_members)
        (string_bytes text.old) (string_bytes text.new)) }
{
    let table = one_member(alloc, key, value)?;
    let more = if pretty {
        table_to_string_pretty(alloc, &table)
    } else {
        table_to_string(alloc, &table)
    };
    match more {
        Ok(more) => Ok(text.push_str(more.as_str())?),
        Err(_) => Err(OutOfMemory),
    }
}
