//! Laws of the steps of a driver.

ghost use Rattle.std.specs.Prelude.{◌≡◌, ℕ, List, []};
ghost use Rattle.lemmas.specs.Picking.{EachAfter};
ghost use Rattle.sja_journal.specs.declared.entry.Entry.{Entry};
ghost use Rattle.sja_journal.specs.Places.{place_of};
ghost use Rattle.sja_steps.specs.declared.step.Step.TheVariants.{At};
ghost use Rattle.sja_regs.specs.declared.registers.Registers.{Registers};
ghost use Rattle.sja_driver.specs.declared.unmodelled_registers.UnmodelledRegisters.{UnmodelledRegisters};
ghost use Rattle.sja_driver.specs.StepRuns.{StepRun, IsStepRun, acts_in};
ghost use Rattle.sja_driver.specs.TypedActs.{TypedAct, is_active};
ghost use Rattle.sja_promises.specs.Registering.{StepRunsLeadTo, LeadOn, seen_now};
ghost use Rattle.sja_promises.specs.Turns.{IsUnmet};
ghost use Rattle.sja_laws.specs.LongerJournals.{GoesOn};
ghost use Rattle.sja_laws.specs.Promised.{IsPromised};

/// A law: a step of a driver that is done at a port, with what is seen of the messages and with the bytes that are
/// kept, is one: its answer, its acts with what they answered and gave, the bytes that are kept then, the entries, and
/// the registers.
pub fn a_step_does_one_thing()
    ensures { (version : ℕ) (whole : List Entry) (before : List TypedAct) (j k l : List Entry) (p q r : Registers)
        (kept kept_a kept_b : UnmodelledRegisters) (a b : StepRun) → a.step ≡ b.step → a.bits ≡ b.bits
        → IsStepRun version p (seen_now (is_active before) j before) (is_active before) kept a kept_a
        → IsStepRun version p (seen_now (is_active before) j before) (is_active before) kept b kept_b
        → LeadOn before j p a.acts k q → LeadOn before j p b.acts l r
        → EachAfter (IsPromised version whole) before a.acts → EachAfter (IsPromised version whole) before b.acts
        → (a ≡ b) × (kept_a ≡ kept_b) × (k ≡ l) × (q ≡ r) }
{}

/// A law: a step that is done after these steps and entries is none that has to wait there, in whatever run goes on
/// from them. So where a driver is stuck, and a turn of its node ends early, is one place. A wait for a bit has no act
/// that says after how many bits it was done: that is known of it.
pub fn a_step_that_is_done_has_not_to_wait()
    ensures { (version : ℕ) (whole other j k : List Entry) (steps : List StepRun) (p q : Registers)
        (kept kept_now : UnmodelledRegisters) (a : StepRun) → StepRunsLeadTo version j steps kept p
        → EachAfter (IsPromised version other) [] (acts_in steps) → GoesOn j whole
        → IsStepRun version p (seen_now (is_active (acts_in steps)) j (acts_in steps)) (is_active (acts_in steps))
        kept a kept_now → LeadOn (acts_in steps) j p a.acts k q
        → EachAfter (IsPromised version j) (acts_in steps) a.acts
        → ((least : ℕ) → a.step ≡ At least → a.bits ≡ (place_of j).bits)
        → IsUnmet version whole (acts_in steps) (place_of j).bits a.step → ⊥ }
{}
