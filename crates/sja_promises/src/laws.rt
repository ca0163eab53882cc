//! Laws of logs.

ghost use Rattle.std.specs.Prelude.{◌≡◌, ◌↔◌, ◌+◌, ◌<◌, ◌≤◌, ◌++◌, ℕ, Bool, List, [], ◌∷◌, length, slice_index_or};
ghost use Rattle.sja_journal.specs.declared.entry.Entry.{Entry};
ghost use Rattle.sja_journal.specs.declared.entry.Entry.TheVariants.{Abort};
ghost use Rattle.sja_journal.specs.Places.{place_of};
ghost use Rattle.sja_journal.specs.Parts.{part};
ghost use Rattle.sja_journal.specs.Verdicts.{IsLawful};
ghost use Rattle.sja_plan.specs.Plan.{PlanValue};
ghost use Rattle.sja_regs.specs.declared.registers.Registers.{Registers};
ghost use Rattle.can_frame.specs.declared.buffer_view.BufferView.{BufferView};
ghost use Rattle.sja_driver.specs.declared.unmodelled_registers.UnmodelledRegisters.{UnmodelledRegisters};
ghost use Rattle.sja_driver.specs.StepRuns.{StepRun, IsStepRun};
ghost use Rattle.sja_driver.specs.TypedActs.{TypedAct};
ghost use Rattle.sja_bus_rules.specs.Lawful.{CountersAre, IsBusRun};
ghost use Rattle.sja_log.specs.Log.{ActivationValue, NodeValue, RunValue, journals_in};
ghost use Rattle.sja_promises.specs.Settling.{IsSettled, AreSettled};
ghost use Rattle.sja_promises.specs.Headline.{IsAccount};
ghost use Rattle.sja_driver.specs.Moments.{at_moment, IsFront, BeginsWithBit};
ghost use Rattle.sja_promises.specs.Registering.{IsPortAct, LeadOn, LeadTo};
ghost use Rattle.sja_promises.specs.Runs.{IsTrace, IsRun};

/// A law: where a node's journal is lawful, and each of its activations has begun there and is settled, the node's
/// record has a cut, and by every cut of it the headline holds of each activation.
#[tactic(auto, using(crate::proofs::Account::Accounts::account_of))]
pub fn a_settled_node_has_the_headline()
    ensures { (node : NodeValue) → IsLawful node.journal →
        length node.activations ≤ (place_of node.journal).activation →
        ((a : ℕ) (d : ActivationValue) → a < length node.activations →
        IsSettled node.journal (a + 1) (slice_index_or node.activations a d)) →
        IsAccount node }
{}

/// A law: what the bus promises of all journals, with the trace of each driver and with activations that are settled,
/// is what is promised of a run.
pub fn a_bus_with_traced_drivers_is_a_run()
    ensures { (plan : PlanValue) (log : RunValue) (acts : List (List TypedAct)) → log.version ≡ plan.version →
        length log.nodes ≡ length plan.nodes → IsBusRun plan.strikes log.bits (journals_in log) →
        ((k : ℕ) (d : NodeValue) → k < length log.nodes →
        let node = slice_index_or log.nodes k d in CountersAre node.journal node.txerr node.rxerr) →
        ((k : ℕ) (d : NodeValue) → k < length log.nodes →
        IsTrace plan.version (slice_index_or log.nodes k d) (slice_index_or acts k [])) →
        ((k : ℕ) (d : NodeValue) → k < length log.nodes → AreSettled (slice_index_or log.nodes k d)) →
        IsRun plan log acts }
{}

/// A law: the moment of a journal after so many bits and items is its front up to the first entry that comes later, and
/// no other front is: the bits are so many, or all there are, unless an item comes before that is one too many. A
/// verdict and bus-off belong to the bit before them, and an abort to the bit after it.
pub fn a_moment_is_a_front()
    ensures { (bits items : ℕ) (j front : List Entry) → IsFront bits items j front ↔ (front ≡ at_moment bits items j) }
{}

/// A law: in a journal that steps and bits have led to each abort stands right before a bit.
pub fn an_abort_stands_right_before_a_bit()
    ensures { (version : ℕ) (j : List Entry) (acts : List TypedAct) (p : Registers) → LeadTo version j acts p →
        (before rest : List Entry) → j ≡ before ++ Abort ∷ rest → BeginsWithBit rest }
{}

/// A law: in versions 1 and 2 a step that a driver did is one act, done after as many bits: its step, and its answer.
/// So from registers and entries to others a step leads there just as an act does, and of these versions a run in one
/// thread is one of acts.
pub fn a_step_of_versions_1_and_2_is_one_act()
    ensures { (version : ℕ) (j k : List Entry) (p q : Registers) (seen : BufferView) (before : List TypedAct)
        (active : Bool) (kept kept_now : UnmodelledRegisters) (a : StepRun) → version < 3 → a.bits ≡ (place_of j).bits →
        IsStepRun version p seen active kept a kept_now → LeadOn before j p a.acts k q →
        (d : TypedAct) × (a.acts ≡ d ∷ []) × (d.step ≡ a.step) × (d.answer ≡ a.answer) × (d.bits ≡ a.bits)
        × IsPortAct p q j k before d }
{}
