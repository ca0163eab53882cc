//! Laws of the cut of a record into pieces. Each stands as the contract of a function that does nothing.

ghost use Rattle.std.specs.Prelude.{◌≡◌, ◌++◌, ◌∷◌, ◌-◌, ℕ, true, false, map, List, []};
ghost use Rattle.can_levels.specs.declared.level.Level.{Level};
ghost use Rattle.can_node_rules.specs.declared.config.Config.{Config};
ghost use Rattle.can_node_rules.specs.declared.phase.Phase.{Phase};
ghost use Rattle.can_node_rules.specs.BetweenBits.{IsBetweenBits};
ghost use Rattle.can_node_rules.specs.Bits.{Bit, recessive_bits};
ghost use Rattle.can_node_rules.specs.Context.{ContextValue, fresh};
ghost use Rattle.can_node_rules.specs.Pieces.{Place, Piece};
ghost use Rattle.can_node_rules.specs.Pieces.Place.{AtIntegration};
ghost use Rattle.can_node_rules.specs.Record.{RecordEntry};
ghost use Rattle.can_node_rules.specs.Record.RecordEntry.{OneBit};
ghost use Rattle.can_node_rules.specs.Table.{Row, Elevens};
ghost use Rattle.can_node_rules.specs.Effects.{along};
ghost use Rattle.can_node_rules.specs.FinishedPieces.{FinishedPiece, received};
ghost use Rattle.can_node_rules.specs.Cut.{IsCut};
ghost use Rattle.can_node_rules.specs.NextBit.{DrivesIn, now_in, phase_in};
ghost use Rattle.can_node_rules.specs.WorkedReception.{record_of_reception, pieces_of_reception, frames_of_reception};
ghost use Rattle.can_node_rules.specs.Outcomes.{HasOneCut};

/// Of two pieces that are lawful at one place in one context neither is a proper front of the other, and equal lists of
/// bits are the same piece and lead to the same place (this project's own rule, of which the standard's rules for each
/// place are the parts).
pub fn pieces_are_told_apart()
    ensures { (c : ContextValue) (place : Place) (a b x y : List Bit) (p q : Piece) (n m : Place) →
        Row c place a p n → Row c place b q m → a ++ x ≡ b ++ y → (a ≡ b) × (p ≡ q) × (n ≡ m) }
{}

/// A record has one cut: any two cuts of it have the same finished pieces, each in the same activation and with the
/// same number of bits up to its end, and lead to the same context, the same place and the same entries of a piece that
/// isn't finished (this project's own rule).
pub fn a_record_has_one_cut()
    ensures { (entries : List RecordEntry) → HasOneCut entries }
{}

/// In each bit of a record that has a cut the node drove what the cut of the entries before the bit says (this
/// project's own rule, of which the standard's rules for each place are the parts).
pub fn a_bit_is_driven_as_the_cut_says()
    ensures { (entries more : List RecordEntry) (b : Bit) (found others : List FinishedPiece)
        → (h : IsCut entries found) → IsCut (entries ++ OneBit b ∷ more) others → DrivesIn h b.driven }
{}

/// A record that has a cut has one without its last entry too, where that is a start, a stop, a request or an abort
/// (this project's own rule).
pub fn a_front_has_a_cut()
    ensures { (entries : List RecordEntry) (e : RecordEntry) (others : List FinishedPiece) → IsBetweenBits e
        → IsCut (entries ++ e ∷ []) others → (found : List FinishedPiece) × IsCut entries found }
{}

/// After bus-off, where the node doesn't only listen, each list of levels with its first eleven successive recessive
/// ones at its end takes one from the transmit error counter (Bosch CAN 2.0 part A section 7; the counter's way down is
/// the SJA1000 data sheet's, 6.4.12).
pub fn each_eleven_takes_one()
    ensures { (c : ContextValue) (n : ℕ) (l : List Level) → c.off ≡ true → c.listen ≡ false → Elevens n l
        → along c AtIntegration [] (map OneBit (recessive_bits l)) ≡ record c { tec = c.tec - n } }
{}

/// A record worked by hand has the cut that it should have: a node that starts without self test and listen only, and
/// sees the standard data frame with the identifier 0 and no bytes, of another node, receives it with the sixth bit of
/// EOF, and is idle after intermission with all counters at 0.
pub fn a_frame_of_another_node_is_received()
    ensures cut { (config : Config) → (cut : IsCut (record_of_reception config) pieces_of_reception)
        × (now_in cut ≡ fresh) × (phase_in cut ≡ Phase.Idle) }
    ensures frames { received pieces_of_reception ≡ frames_of_reception }
{}
