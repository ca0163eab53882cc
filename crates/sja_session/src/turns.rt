//! The turns that a session takes, as its plan has them.

ghost use Rattle.std.specs.Prelude.{◌≡◌, ◌+◌, ◌<◌, ◌^◌, true, false, reverse, vec_len, vec_capacity};
ghost use Rattle.sja_plan.specs.declared.turn.Turn.TheVariants.{Bus};
ghost use Rattle.sja_session.specs.Turning.{goes_on, enlarged, size_of, with_turn, goes_on_latest, FitsLast};
ghost use Rattle.sja_session.specs.Inside.Written.{with_bits};

use sja_plan::Turn;

/// Takes one turn more, as a plan that a session writes has it (this project's own rule). It goes on with the last one
/// where both are of one node, or both of the bus. A place has to be reserved for it, and the bits or steps of both
/// have to be fewer than 2^32.
#[inline(always)]
pub fn push_turn(turns: &mut Vec<Turn>, turn: Turn)
    requires room { vec_len turns.old < vec_capacity turns.old }
    requires fits { FitsLast turns.old.items turn }
    ensures turns { turns.new.items ≡ with_turn turns.old.items turn }
    ensures capacity { vec_capacity turns.new ≡ vec_capacity turns.old }
{
    match turns.pop() {
        None => turns.push_reserved(turn),
        Some(last) => {
            if goes_on(last, turn) {
                turns.push_reserved(enlarged(last, size_of(turn)));
            } else {
                turns.push_reserved(last);
                turns.push_reserved(turn);
            }
        }
    }
}

/// Takes one turn more, where turns are taken down.
#[inline(always)]
pub(crate) fn note(turns: &mut Vec<Turn>, noted: bool, turn: Turn)
    requires room { noted ≡ true → vec_len turns.old < vec_capacity turns.old }
    requires fits { noted ≡ true → FitsLast turns.old.items turn }
    ensures turns { noted ≡ true → turns.new.items ≡ with_turn turns.old.items turn }
    ensures none { noted ≡ false → turns.new.items ≡ turns.old.items }
    ensures capacity { vec_capacity turns.new ≡ vec_capacity turns.old }
{
    if noted {
        push_turn(turns, turn);
    }
}

/// Takes so many bits that were run as a turn of the bus more, where turns are taken down; where none were run, no turn
/// is taken.
pub(crate) fn note_bits(turns: &mut Vec<Turn>, noted: bool, bits: u32)
    requires room { noted ≡ true → vec_len turns.old < vec_capacity turns.old }
    requires fits { noted ≡ true → FitsLast turns.old.items (Bus bits) }
    ensures turns { noted ≡ true → turns.new.items ≡ with_bits turns.old.items bits }
    ensures none { noted ≡ false → turns.new.items ≡ turns.old.items }
    ensures capacity { vec_capacity turns.new ≡ vec_capacity turns.old }
{
    if bits > 0 {
        note(turns, noted, Turn::Bus(bits));
    }
}

/// Whether a turn goes on with the last of these (this project's own rule), so that no further place is needed for it.
pub fn goes_on_last(turns: &[Turn], turn: Turn) -> bool
    ensures { result ≡ goes_on_latest (reverse turns.now) turn }
{
    match turns.last() {
        Some(last) => goes_on(*last, turn),
        None => false,
    }
}

/// Whether a turn goes on with an earlier one: both are of the bus, or both of one node.
fn goes_on(earlier: Turn, later: Turn) -> bool
    ensures { result ≡ goes_on earlier later }
{
    match (earlier, later) {
        (Turn::Bus(_), Turn::Bus(_)) => true,
        (Turn::Node(node, _), Turn::Node(other, _)) => node == other,
        _ => false,
    }
}

/// How many bits or steps a turn has.
fn size_of(turn: Turn) -> u32
    ensures { result ≡ size_of turn }
{
    match turn {
        Turn::Bus(bits) => bits,
        Turn::Node(_, steps) => steps,
        Turn::Rest | Turn::All(_) | Turn::Irq(_, _) | Turn::Go => 0,
    }
}

/// The turn with so many bits or steps more.
fn enlarged(turn: Turn, more: u32) -> Turn
    requires { size_of turn + more < 2 ^ 32 }
    ensures { result ≡ enlarged turn more }
{
    match turn {
        Turn::Bus(bits) => Turn::Bus(bits + more),
        Turn::Node(node, steps) => Turn::Node(node, steps + more),
        other => other,
    }
}
