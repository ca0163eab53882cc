//! What is said of the activations of a node.

ghost use Rattle.std.specs.Prelude.{◌≡◌, ◌++◌, codes, string_bytes, map, OnOk, IfOk};
ghost use Rattle.sja_sweep.specs.Nodes.{activation_at};
ghost use Rattle.sja_sweep.specs.Changes.{of_activation, activation_items, activations_items};

use super::message_changes::put_list;
use can_frame::Message;
use sja_log::ActivationLog;
use std::alloc::{AllocError, Global};

/// The messages that were released or left unread otherwise, activation after activation.
pub(crate) fn put_activations(
    alloc: Global,
    text: &mut String,
    node: usize,
    without: &[ActivationLog],
    now: &[ActivationLog],
) -> Result<(), AllocError>
    ensures { OnOk result (string_bytes text.new ≡ string_bytes text.old
        ++ activations_items node without.now now.now) }
{
    for place in 0..without.len().max(now.len()) {
        put_activation(alloc, text, node, place, without, now)?;
    }
    Ok(())
}

/// Those of the activation at a place.
fn put_activation(
    alloc: Global,
    text: &mut String,
    node: usize,
    place: usize,
    without: &[ActivationLog],
    now: &[ActivationLog],
) -> Result<(), AllocError>
    ensures { OnOk result (string_bytes text.new ≡ string_bytes text.old
        ++ activation_items node place (activation_at without.now place) (activation_at now.now place)) }
{
    let released = of_activation(alloc, node, place, " released")?;
    put_list(
        alloc,
        text,
        released.as_str(),
        released_at(without, place),
        released_at(now, place),
    )?;
    let unread = of_activation(alloc, node, place, " unread")?;
    put_list(
        alloc,
        text,
        unread.as_str(),
        unread_at(without, place),
        unread_at(now, place),
    )
}

/// What a list of messages is of: an activation of a node.
fn of_activation(alloc: Global, node: usize, place: usize, word: &str) -> Result<String, AllocError>
    ensures { IfOk result (λ of. string_bytes of ≡ of_activation node place word.now) }
{
    let number = place as u128 + 1;
    format!(in alloc; "; node {node} activation {number}{word}")
}

/// The messages that were released in the activation at a place.
pub(crate) fn released_at(activations: &[ActivationLog], place: usize) -> &[Message]
    ensures { result.now ≡ (activation_at activations.now place).released }
{
    if place < activations.len() {
        activations[place].released()
    } else {
        &[]
    }
}

/// The messages that were left unread in it.
pub(crate) fn unread_at(activations: &[ActivationLog], place: usize) -> &[Message]
    ensures { result.now ≡ (activation_at activations.now place).unread }
{
    if place < activations.len() {
        activations[place].unread()
    } else {
        &[]
    }
}
