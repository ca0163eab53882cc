//! Calls of ends that do what no lawful link does.

use super::lawless_ends::{LawlessEnds, gives_back, shows, tries, waits};
use super::row_answers::RowAnswers;
use super::wired_bus::WiredBus;
use super::words::{number, shown_of, small};

/// Does a call of the end of a node's first link.
///
/// `shows 1 start - credit=3`, it shows these two items, and then the third without end, `-` for none; `waits 1`, with
/// the third one until bus-off is put; `back 1 999999`, it gives back so many puts; `tries 1`, how many puts were tried
/// at it.
pub fn of_end(told: &mut RowAnswers, bus: &mut WiredBus<LawlessEnds>, name: &str, rest: &[&str]) {
    match (name, rest) {
        ("tries", [node]) => told.counted(tried(bus, node)),
        ("waits", [node]) => told.made(waiting(bus, node)),
        ("back", [node, puts]) => told.made(giving_back(bus, node, puts)),
        ("shows", [node, items @ ..]) => told.made(showing(bus, node, items)),
        _ => told.unread(),
    }
}

/// How many puts were tried.
fn tried(bus: &mut WiredBus<LawlessEnds>, node: &str) -> Option<u32> {
    tries(bus, small(node)?)
}

/// Waits with the third item.
fn waiting(bus: &mut WiredBus<LawlessEnds>, node: &str) -> Option<()> {
    waits(bus, small(node)?)
}

/// Gives back so many puts.
fn giving_back(bus: &mut WiredBus<LawlessEnds>, node: &str, puts: &str) -> Option<()> {
    gives_back(bus, small(node)?, number(puts)?)
}

/// Shows three items.
fn showing(bus: &mut WiredBus<LawlessEnds>, node: &str, items: &[&str]) -> Option<()> {
    let [first, second, endless] = items else {
        return None;
    };
    let (first, second) = (shown_of(first)?, shown_of(second)?);
    shows(bus, small(node)?, first, second, shown_of(endless)?)
}
