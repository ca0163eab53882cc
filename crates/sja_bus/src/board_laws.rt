//! Laws of ports.

ghost use Rattle.std.specs.Prelude.{◌⊎◌, ℕ, List, slice_index_or};
ghost use Rattle.sja_regs.specs.declared.bus_turn.BusTurn.{BusTurn as Turn};
ghost use Rattle.sja_regs.specs.declared.registers.Registers.{Registers};
ghost use Rattle.sja_regs.specs.Preservation.{SaysTheSame};
ghost use Rattle.sja_bus.specs.Boards.{ShowsTurn};

use super::board::Board;

/// A law: a port that was told a turn, or was kept where it shows that turn already, was told it.
pub fn a_port_kept_that_shows_the_turn_was_told_it<B: Board>()
    ensures { (old new : B) (node : ℕ) (turn : Turn) → B.told old new node turn ⊎ B.kept old new node →
        B.shows old node turn → B.told old new node turn }
{}

/// A law: a port of a [`SerialBoard`](super::SerialBoard) shows a turn that has no event and says what its registers
/// say.
pub fn a_port_shows_a_turn_that_says_the_same()
    ensures { (ports : List Registers) (node : ℕ) (turn : Turn) →
        ((d : Registers) → SaysTheSame (slice_index_or ports node d) turn) → ShowsTurn ports node turn }
{}
