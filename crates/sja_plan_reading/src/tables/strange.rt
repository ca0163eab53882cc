//! Whether a long text is no document, or one with a definition that no plan has.

ghost use Rattle.std.specs.Prelude.{◌≡◌, ◌⊎◌, true, false, None, IfOk};
ghost use Rattle.toml.specs.Parse.{parse_document};
ghost use Rattle.sja_plan_reading.specs.Inside.Names.{texts_of};
ghost use Rattle.sja_plan_reading.specs.Inside.Definitions.{item_of, items_of};
ghost use Rattle.sja_plan_reading.specs.Inside.Reading.{Refuses};
ghost use Rattle.sja_plan_reading.specs.Inside.Rooms.{items_in};
ghost use Rattle.sja_plan_reading.specs.Inside.Judging.{ends, below};
ghost use Rattle.sja_plan_reading.specs.Inside.Strange.{IsStrange, IsStrangeIn, IsStrangeItem, HasStrange, IsSeen};
ghost use Rattle.sja_plan_reading.specs.Inside.Strange.{is_odd};

use super::definition::Definition;
use super::look::Look;
use super::many::has_many_keys;
use super::names::{Names, is_among};
use super::reading::read;
use super::refusal::Refusal;
use super::room::Room;
use super::what::What;
use crate::document::KEYS;
use crate::document_limits::MOST_BYTES;
use std::alloc::{AllocError, Global};

/// What is seen of a text without its tables: nothing where it is short, or they wouldn't take many times its bytes.
pub(crate) fn look_at(alloc: Global, text: &str) -> Result<Look, AllocError>
    ensures { IfOk result (IsSeen text.now) }
{
    if text.len() <= MOST_BYTES || !has_many_keys(text) {
        return Ok(Look::Open);
    }
    match is_strange(alloc, text) {
        Ok(true) => Ok(Look::Strange),
        Ok(false) | Err(Refusal::Open) => Ok(Look::Open),
        Err(Refusal::NoToml) => Ok(Look::NoToml),
        Err(Refusal::NoMemory) => Err(AllocError),
    }
}

/// Whether this is a document with a definition that no plan has.
fn is_strange(alloc: Global, text: &str) -> Result<bool, Refusal>
    ensures strange { IfOk result (λ strange. strange ≡ true → IsStrange text.now) }
    ensures bad { Refuses result (parse_document text.now ≡ None) }
{
    let mut room = read(alloc, text)?;
    let strange = is_off(&room);
    room.judge(alloc)?;
    Ok(strange)
}

/// Whether there is a definition that no plan has, by its keys or by its value.
fn is_off(room: &Room) -> bool
    ensures { result ≡ true → HasStrange (items_in room.now) ⊎ (room.now.odd ≡ true) }
{
    if room.odd {
        return true;
    }
    has_strange(&room.names, &room.definitions)
}

/// Whether there is a definition that no plan has.
fn has_strange(names: &Names, definitions: &[Definition]) -> bool
    ensures { result ≡ true → HasStrange (items_of (texts_of names.now) definitions.now) }
{
    for place in 0..definitions.len() {
        if is_strange_one(names, definitions[place]) {
            return true;
        }
    }
    false
}

/// Whether no plan has this definition.
fn is_strange_one(names: &Names, definition: Definition) -> bool
    ensures { result ≡ true → IsStrangeItem (item_of (texts_of names.now) definition) }
{
    let key = names.part(definition.first());
    let known = is_among(&KEYS, key);
    if !known {
        return true;
    }
    let nodes = is_among(&["node"], key);
    let odd = is_odd(nodes, definition.comes(), definition.ends());
    if odd || !nodes {
        return odd;
    }
    is_strange_below(names, definition)
}

/// Whether no node's table has what this definition makes of it.
fn is_strange_below(names: &Names, definition: Definition) -> bool
    ensures { result ≡ true → (ends (item_of (texts_of names.now) definition) ≡ false)
        × IsStrangeIn (below (item_of (texts_of names.now) definition)) }
{
    if definition.ends() {
        return false;
    }
    match definition.below() {
        Ok(inner) => is_strange_in(names, inner),
        Err(_) => false,
    }
}

/// Whether no node's table has this.
fn is_strange_in(names: &Names, definition: Definition) -> bool
    ensures { result ≡ true → IsStrangeIn (item_of (texts_of names.now) definition) }
{
    let known = is_among(&["steps"], names.part(definition.first()));
    if !known {
        return true;
    }
    is_odd(false, definition.comes(), definition.ends())
}

/// Whether no plan has this at the key of its nodes, or else at another key of a plan.
fn is_odd(nodes: bool, comes: What, ends: bool) -> bool
    ensures { result ≡ is_odd nodes comes ends }
{
    match (comes, ends) {
        (What::Pair, ends) => !ends,
        (What::Table, true) => true,
        (What::Table, false) | (What::Array, _) => !nodes,
    }
}
