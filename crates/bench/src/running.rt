//! Bits of a bus in one thread.

ghost use Rattle.std.specs.Prelude.{◌≡◌, ◌≤◌, length};
ghost use Rattle.sja_journal.specs.Links.{AreEnds, HaveLinks};

use sja_bus::{Bus, SerialBoard};
use sja_link::DequeLinks;

/// So many bits, one after another, or those in which every node is at rest at once. Whether all were run.
pub fn run_bits(
    bus: &mut Bus,
    links: &mut [DequeLinks],
    board: &mut SerialBoard,
    count: u32,
    at_once: bool,
) -> bool
    requires ends { AreEnds (λ l. l.node) (length bus.old.journals) links.old }
    requires links { HaveLinks (λ l. l.starts) bus.old.starts links.old }
    requires ports { length bus.old.journals ≤ length board.old.ports.items }
    ensures nodes { length bus.new.journals ≡ length bus.old.journals }
    ensures ends { AreEnds (λ l. l.node) (length bus.new.journals) links.new }
    ensures links { HaveLinks (λ l. l.starts) bus.new.starts links.new }
    ensures ports { length board.new.ports.items ≡ length board.old.ports.items }
{
    if !at_once {
        return matches!(bus.bits(links, board, count, false), Ok(run) if run == count);
    }
    let mut left = count;
    for _ in 0..count {
        let Ok(run) = bus.quiet_bits(links, board, left) else {
            return false;
        };
        left -= run;
        if left == 0 {
            return true;
        }
        if bus.bit(links, board).is_err() {
            return false;
        }
        left -= 1;
    }
    left == 0
}
