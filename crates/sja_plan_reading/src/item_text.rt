//! Texts of strikes that may name a place.

ghost use Rattle.std.specs.Prelude.{◌≡◌, ◌≤◌, ℕ, IfOk, IfErr, map, [], ◌∷◌};
ghost use Rattle.sja_plan_reading.specs.Words.{words};
ghost use Rattle.sja_plan_reading.specs.PlacedTexts.{IsItemOf, IsPlacedOf, IsNumbered, IsFirst, SpellsTimes};

use super::document_limits::GREATEST_NUMBER;
use super::place_names::{place_of_word, place_of_words};
use super::plan_text::PlanText;
use super::strike_item::StrikeItem;
use super::strike_text::strike_of;
use super::text_fault::TextFault;
use super::within::Within;
use super::word::{find_words, node_within, number_within};
use sja_plan::{Place, StruckFrames};
use std::alloc::Global;

impl PlanText for StrikeItem {
    ghost says = { λ within text s. IsItemOf within.places within.nodes (words text) s };

    fn plan_text<'a>(
        alloc: Global,
        within: Within,
        text: &'a str,
        room: &mut Vec<&'a str>,
    ) -> Result<StrikeItem, TextFault> {
        let _ = alloc;
        find_words(room, text)?;
        item_of(within.places, within.nodes, room.as_slice())
    }
}

/// What these words say: a strike by bits, or where places are known one at a place.
fn item_of(places: bool, nodes: usize, words: &[&str]) -> Result<StrikeItem, TextFault>
    requires { nodes ≤ 8 }
    ensures ok { IfOk result (λ s. IsItemOf places nodes (map (λ w. w.now) words.now) s) }
    ensures err { IfErr result (λ e. (e ≡ TextFault.Bad)
        × ((s : StrikeItem) → ¬ IsItemOf places nodes (map (λ w. w.now) words.now) s)) }
{
    match strike_of(nodes, words) {
        Ok(strike) => Ok(StrikeItem::AtBits(strike)),
        Err(fault) => if places {
            placed_of(nodes, words)
        } else {
            Err(fault)
        },
    }
}

/// The strike at a place that these words say.
fn placed_of(nodes: usize, words: &[&str]) -> Result<StrikeItem, TextFault>
    requires { nodes ≤ 8 }
    ensures ok { IfOk result (λ s. IsPlacedOf nodes (map (λ w. w.now) words.now) s) }
    ensures err { IfErr result (λ e. (e ≡ TextFault.Bad)
        × ((s : StrikeItem) → ¬ IsPlacedOf nodes (map (λ w. w.now) words.now) s)) }
{
    match *words {
        [node, name, times] => first_frames(nodes, node, times, place_of_word(name)),
        [node, word, second, third] => of_four_words(nodes, node, word, second, third),
        [node, word, number, name, more] => of_five_words(nodes, node, word, number, name, more),
        _ => Err(TextFault::Bad),
    }
}

/// The strike of four words: of a numbered frame, or of the first frames at a place whose name is two words.
fn of_four_words(
    nodes: usize,
    node: &str,
    word: &str,
    second: &str,
    third: &str,
) -> Result<StrikeItem, TextFault>
    requires { nodes ≤ 8 }
    ensures ok { IfOk result (λ s. IsPlacedOf nodes (node.now ∷ word.now ∷ second.now ∷ third.now ∷ []) s) }
    ensures err { IfErr result (λ e. (e ≡ TextFault.Bad)
        × ((s : StrikeItem) → ¬ IsPlacedOf nodes (node.now ∷ word.now ∷ second.now ∷ third.now ∷ []) s)) }
{
    if word == "frame" {
        numbered_frame(nodes, node, second, place_of_word(third))
    } else {
        first_frames(nodes, node, third, place_of_words(word, second))
    }
}

/// The strike of five words: of a numbered frame, at a place whose name is two words.
fn of_five_words(
    nodes: usize,
    node: &str,
    word: &str,
    number: &str,
    name: &str,
    more: &str,
) -> Result<StrikeItem, TextFault>
    requires { nodes ≤ 8 }
    ensures ok { IfOk result (λ s.
        IsPlacedOf nodes (node.now ∷ word.now ∷ number.now ∷ name.now ∷ more.now ∷ []) s) }
    ensures err { IfErr result (λ e. (e ≡ TextFault.Bad) × ((s : StrikeItem) →
        ¬ IsPlacedOf nodes (node.now ∷ word.now ∷ number.now ∷ name.now ∷ more.now ∷ []) s)) }
{
    if word == "frame" {
        numbered_frame(nodes, node, number, place_of_words(name, more))
    } else {
        Err(TextFault::Bad)
    }
}

/// The strike of a node at a place of the frame of a number.
fn numbered_frame(
    nodes: usize,
    node: &str,
    number: &str,
    place: Option<Place>,
) -> Result<StrikeItem, TextFault>
    requires { nodes ≤ 8 }
    ensures ok { IfOk result (λ s. IsNumbered nodes node.now number.now place s) }
    ensures err { IfErr result (λ e. (e ≡ TextFault.Bad)
        × ((s : StrikeItem) → ¬ IsNumbered nodes node.now number.now place s)) }
{
    match (
        node_within(nodes, node),
        number_within(number, 1, GREATEST_NUMBER),
        place,
    ) {
        (Ok(node), Ok(number), Some(place)) => Ok(StrikeItem::AtPlace(
            node,
            StruckFrames::Numbered(number),
            place,
        )),
        _ => Err(TextFault::Bad),
    }
}

/// The strike of a node at a place of its first frames.
#[tactic(auto, using(crate::proofs::Spelling::StrikeWords::no_first))]
fn first_frames(
    nodes: usize,
    node: &str,
    times: &str,
    place: Option<Place>,
) -> Result<StrikeItem, TextFault>
    requires { nodes ≤ 8 }
    ensures ok { IfOk result (λ s. IsFirst nodes node.now times.now place s) }
    ensures err { IfErr result (λ e. (e ≡ TextFault.Bad)
        × ((s : StrikeItem) → ¬ IsFirst nodes node.now times.now place s)) }
{
    let node = node_within(nodes, node)?;
    let times = times_of(times)?;
    match place {
        Some(place) => Ok(StrikeItem::AtPlace(node, StruckFrames::First(times), place)),
        None => Err(TextFault::Bad),
    }
}

/// The number behind `x` that a word spells.
fn times_of(word: &str) -> Result<u32, TextFault>
    ensures ok { IfOk result (λ n. SpellsTimes word.now n) }
    ensures err { IfErr result (λ e. (e ≡ TextFault.Bad) × ((n : ℕ) → ¬ SpellsTimes word.now n)) }
{
    match word.strip_prefix('x') {
        Some(number) => number_within(number, 1, GREATEST_NUMBER),
        None => Err(TextFault::Bad),
    }
}
