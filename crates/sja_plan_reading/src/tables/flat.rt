//! Values of a document that a plan may have where they stand.

ghost use Rattle.std.specs.Prelude.{◌≡◌, true, false, List, IfOk};
ghost use Rattle.sja_plan_reading.specs.Words.{Text};
ghost use Rattle.sja_plan_reading.specs.Inside.Judging.{ends, below};
ghost use Rattle.sja_plan_reading.specs.Inside.Names.{texts_of};
ghost use Rattle.sja_plan_reading.specs.Inside.Definitions.{item_of};
ghost use Rattle.sja_plan_reading.specs.Inside.Reading.{Refuses};
ghost use Rattle.sja_plan_reading.specs.Inside.Values.{HoldsTexts, HoldsNodes, IsOddAt, IsOddValue, Begins};

use super::definition::Definition;
use super::names::{Names, is_among};
use super::node_list::are_nodes;
use super::refusal::Refusal;
use super::values::pass_value;
use std::alloc::Global;
use toml_parser::text::first;

/// Whether a plan may have the value with which a text begins where this definition stands, as far as it is looked at.
pub(crate) fn may_hold(
    alloc: Global,
    names: &Names,
    definition: Definition,
    text: &str,
) -> Result<bool, Refusal>
    ensures no { IfOk result (λ may. may ≡ false
        → Begins (IsOddAt (item_of (texts_of names.now) definition)) text.now) }
    ensures never { Refuses result ⊥ }
{
    if holds_texts(names, definition) {
        let flat = is_flat(alloc, text)?;
        Ok(flat)
    } else if holds_nodes(names, definition) {
        let nodes = are_nodes(alloc, text)?;
        Ok(nodes)
    } else {
        Ok(true)
    }
}

/// Whether this definition stands at the list of the nodes.
fn holds_nodes(names: &Names, definition: Definition) -> bool
    ensures { result ≡ true → HoldsNodes (item_of (texts_of names.now) definition) }
{
    definition.ends() && is_among(&["node"], names.part(definition.first()))
}

/// Whether all that a plan has where this definition stands is a text, a number, or a list of texts.
fn holds_texts(names: &Names, definition: Definition) -> bool
    ensures { result ≡ true → HoldsTexts (item_of (texts_of names.now) definition) }
{
    let nodes = is_among(&["node"], names.part(definition.first()));
    if definition.ends() {
        return !nodes;
    }
    nodes && ends_below(definition)
}

/// Whether the same below the table of its first part ends there.
fn ends_below(definition: Definition) -> bool
    ensures { (ts : List Text) → result ≡ true → ends (below (item_of ts definition)) ≡ true }
{
    match definition.below() {
        Ok(inner) => inner.ends(),
        Err(_) => false,
    }
}

/// Whether the value with which a text begins is no list in a list, and no table, where it is a value.
fn is_flat(alloc: Global, text: &str) -> Result<bool, Refusal>
    ensures no { IfOk result (λ flat. flat ≡ false → Begins IsOddValue text.now) }
    ensures never { Refuses result ⊥ }
{
    if first(text) == b'{' {
        return Ok(false);
    }
    match pass_value(alloc, text, 1) {
        Ok(_) => Ok(true),
        Err(Refusal::NoToml) => Ok(false),
        Err(refusal) => Err(refusal),
    }
}
