//! Whether a run got more messages than another one, or did fewer steps.

ghost use Rattle.std.specs.Prelude.{◌≡◌, length, nat_lt};
ghost use Rattle.std.specs.List.{list_any};
ghost use Rattle.sja_sweep.specs.Nodes.{activation_at};
ghost use Rattle.sja_sweep.specs.Kinds.{did_less, gets_more, got_more, some_gets_more, times_got};

use super::activations::{released_at, unread_at};
use super::messages::times_of;
use can_frame::Message;
use sja_log::{ActivationLog, NodeRun};

/// Whether a node of a run got a message more often in an activation than in the same one of another run.
pub(crate) fn got_more(nodes: &[NodeRun], others: &[NodeRun]) -> bool
    requires { length nodes.now ≡ length others.now }
    ensures { result ≡ got_more nodes.now others.now }
{
    for node in 0..nodes.len() {
        if some_gets_more(nodes[node].activations(), others[node].activations()) {
            return true;
        }
    }
    false
}

/// Whether that is so of one of these activations.
fn some_gets_more(activations: &[ActivationLog], others: &[ActivationLog]) -> bool
    ensures { result ≡ some_gets_more activations.now others.now }
{
    for place in 0..activations.len() {
        if gets_more(activations, others, place) {
            return true;
        }
    }
    false
}

/// Whether that is so of the activation at a place.
fn gets_more(activations: &[ActivationLog], others: &[ActivationLog], place: usize) -> bool
    ensures { result ≡ gets_more (activation_at activations.now place) (activation_at others.now place) }
{
    some_more(released_at(activations, place), activations, others, place)
        || some_more(unread_at(activations, place), activations, others, place)
}

/// Whether one of these messages was got more often there.
fn some_more(
    messages: &[Message],
    activations: &[ActivationLog],
    others: &[ActivationLog],
    place: usize,
) -> bool
    ensures { result ≡ list_any (λ m. nat_lt (times_got m (activation_at others.now place))
        (times_got m (activation_at activations.now place))) messages.now }
{
    for message in messages {
        if times_got(message.bytes(), others, place)
            < times_got(message.bytes(), activations, place)
        {
            return true;
        }
    }
    false
}

/// How often a message of these bytes was got in the activation at a place.
fn times_got(message: &[u8], activations: &[ActivationLog], place: usize) -> u128
    ensures { result ≡ times_got message.now (activation_at activations.now place) }
{
    times_of(message, released_at(activations, place)) as u128
        + times_of(message, unread_at(activations, place)) as u128
}

/// Whether a driver did fewer steps in the second run than in the first one.
pub(crate) fn did_less(without: &[NodeRun], now: &[NodeRun]) -> bool
    requires { length without.now ≡ length now.now }
    ensures { result ≡ did_less without.now now.now }
{
    for node in 0..now.len() {
        if now[node].done().len() < without[node].done().len() {
            return true;
        }
    }
    false
}
