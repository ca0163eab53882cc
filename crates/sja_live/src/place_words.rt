//! The words of a line that runs to a place.

ghost use Rattle.std.specs.Prelude.{◌≤◌, ℕ, Bool, ◌∷◌, map, codes, IfOk, IfErr};
ghost use Rattle.sja_live.specs.Commands.{AreCommandWords};
ghost use Rattle.sja_live.specs.Inside.Reading.{IsCommandRefusal, SaysWay, IsWayRefusal};

use super::command_refusal::CommandRefusal;
use super::line_fault::LineFault;
use super::live_command::LiveCommand;
use sja_plan::Place;
use sja_plan_reading::{
    GREATEST_NUMBER, node_within, number_within, place_of_word, place_of_words,
};

/// Bits up to a place of a node: the words behind it, the place in one or two of them and a number.
pub(crate) fn to_place_of(
    nodes: usize,
    node: &str,
    rest: &[&str],
) -> Result<LiveCommand, CommandRefusal>
    requires { nodes ≤ 8 }
    ensures ok { (version : ℕ) (endless : Bool) → IfOk result (λ c.
        AreCommandWords version endless nodes (codes "to" ∷ node.now ∷ map (λ w. w.now) rest.now) c) }
    ensures err { (version : ℕ) (endless : Bool) → IfErr result
        (IsCommandRefusal version endless nodes (codes "to" ∷ node.now ∷ map (λ w. w.now) rest.now)) }
{
    match *rest {
        [name, limit] => way_of(nodes, node, place_of_word(name), limit),
        [name, more, limit] => way_of(nodes, node, place_of_words(name, more), limit),
        _ => Err(CommandRefusal::Mistaken(LineFault::Command)),
    }
}

/// The same, where the words of the place are known.
fn way_of(
    nodes: usize,
    node: &str,
    place: Option<Place>,
    limit: &str,
) -> Result<LiveCommand, CommandRefusal>
    requires { nodes ≤ 8 }
    ensures ok { IfOk result (SaysWay nodes node.now place limit.now) }
    ensures err { IfErr result (IsWayRefusal nodes node.now place limit.now) }
{
    let Ok(node) = node_within(nodes, node) else {
        return Err(CommandRefusal::Mistaken(LineFault::Node));
    };
    let Some(place) = place else {
        return Err(CommandRefusal::Mistaken(LineFault::Place));
    };
    match number_within(limit, 0, GREATEST_NUMBER) {
        Ok(limit) => Ok(LiveCommand::To(node, place, limit)),
        Err(_) => Err(CommandRefusal::Mistaken(LineFault::Number)),
    }
}
