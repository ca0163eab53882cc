//! Laws of one bit, of one node and of a run in one thread.

ghost use Rattle.std.specs.Prelude.{◌≡◌, List};
ghost use Rattle.sja_journal.specs.declared.entry.Entry.{Entry};
ghost use Rattle.sja_journal.specs.Verdicts.{IsLawful};
ghost use Rattle.sja_regs.specs.declared.registers.Registers.{Registers};
ghost use Rattle.sja_driver.specs.TypedActs.{TypedAct};
ghost use Rattle.sja_promises.specs.Registering.{IsPortBit};
ghost use Rattle.sja_serial.specs.Bits.{TakesBit};
ghost use Rattle.sja_serial.specs.Serial.{Setup, SerialValue};
ghost use Rattle.sja_laws.specs.LongerJournals.{GoesOn};

/// A law: what a bit adds to the journal of a node, and what it leaves in the registers of its port, is a function of
/// the journal before it, of the registers, and of the level that the node sees: whether an abort changes the node,
/// the level that it drives, the message that is stored or marked overrun, bus-off, and all that the port is told.
pub fn a_bit_brings_one_thing()
    ensures { (j k l : List Entry) (p q r : Registers) (b : IsPortBit p q j k) (c : IsPortBit p r j l)
        (whole other : List Entry) → IsLawful whole → IsLawful other → GoesOn k whole → GoesOn l other
        → b.seen ≡ c.seen → (b.driven ≡ c.driven) × (k ≡ l) × (q ≡ r) }
{}

/// A law: what a bit does to a run in one thread is a function of its journals, its registers and its bits. Of two runs
/// for one setup that have the same ones, each has after a bit those of the other.
pub fn a_bit_of_a_run_does_one_thing()
    ensures { (setup : Setup) (acts others : List (List TypedAct)) (r s n m : SerialValue)
        → r.bus.journals ≡ s.bus.journals → r.ports ≡ s.ports → r.bits ≡ s.bits → TakesBit setup acts r n
        → TakesBit setup others s m
        → (n.bus.journals ≡ m.bus.journals) × (n.ports ≡ m.ports) × (n.bits ≡ m.bits) }
{}
