//! Lists in which something is seen that is no node of a plan.

ghost use Rattle.std.specs.Prelude.{◌≡◌, ◌-◌, ◌<◌, ℕ, List, [], Some, None, false, length, IfOk};
ghost use Rattle.toml_parser.specs.Reading.{key_view};
ghost use Rattle.toml_parser.specs.Strings.{recursion_limit};
ghost use Rattle.toml.specs.Data.{Data};
ghost use Rattle.toml.specs.Parse as spec;
ghost use Rattle.sja_plan_reading.specs.Document.{nodes_in, node_of};
ghost use Rattle.sja_plan_reading.specs.Inside.Reading.{Refuses};
ghost use Rattle.sja_plan_reading.specs.Inside.Rooms.{pair_item};
ghost use Rattle.sja_plan_reading.specs.Inside.Strange.{IsStrangeIn};
ghost use Rattle.sja_plan_reading.specs.Inside.Values.{Begins};

use super::grammar::{after_element, key_equals};
use super::names::is_among;
use super::refusal::Refusal;
use super::values::pass_value;
use std::alloc::Global;
use toml_parser::text::{first, skip, skip_blank};
use toml_parser::{Key, RECURSION_LIMIT};

/// Whether nothing is seen in the value with which a text begins by which it is no list of nodes.
pub(crate) fn are_nodes(alloc: Global, text: &str) -> Result<bool, Refusal>
    ensures no { IfOk result (λ nodes. nodes ≡ false → Begins (λ d. nodes_in d ≡ None) text.now) }
    ensures never { Refuses result ⊥ }
{
    if first(text) != b'[' {
        return Ok(false);
    }
    let mut rest = skip(text, 1);
    'items: loop {
        let start = skip_blank(rest, true);
        if first(start) == b']' {
            return Ok(true);
        }
        let node = is_node(alloc, start)?;
        if !node {
            return Ok(false);
        }
        match behind_item(alloc, start) {
            Ok(after) => rest = after,
            Err(Refusal::NoToml) => return Ok(true),
            Err(refusal) => return Err(refusal),
        }
    }
}

/// What stands behind an item of a list, and its comma.
fn behind_item(alloc: Global, text: &str) -> Result<&str, Refusal>
    ensures value { IfOk result (λ rest. (d : Data) × (after : List ℕ)
        × (spec.val (recursion_limit - 1) text.now ≡ Some (d, after))
        × (spec.after_element 93 after ≡ Some rest.now)) }
    ensures shorter { IfOk result (λ rest. length rest.now < length text.now) }
{
    let after = pass_value(alloc, text, RECURSION_LIMIT - 1)?;
    let rest = after_element(after, b']')?;
    Ok(rest)
}

/// Whether nothing is seen in the item with which a text begins by which it is no node: it is a table, and the first
/// of its keys is `steps`.
fn is_node(alloc: Global, text: &str) -> Result<bool, Refusal>
    ensures no { IfOk result (λ node. node ≡ false → (d : Data) → (rest : List ℕ)
        → spec.val (recursion_limit - 1) text.now ≡ Some (d, rest) → node_of d ≡ None) }
    ensures never { Refuses result ⊥ }
{
    if first(text) != b'{' {
        return Ok(false);
    }
    let start = skip_blank(skip(text, 1), true);
    if first(start) == b'}' {
        return Ok(false);
    }
    match key_equals(alloc, start) {
        Ok((key, _)) => Ok(is_of_steps(&key)),
        Err(Refusal::NoToml) => Ok(true),
        Err(refusal) => Err(refusal),
    }
}

/// Whether this is the key of a node's steps.
fn is_of_steps(key: &Key) -> bool
    ensures { result ≡ false → (d : Data) → IsStrangeIn (pair_item [] (key_view key.now) d) }
{
    key.path.is_empty() && is_among(&["steps"], key.last.as_bytes())
}
