//! Laws of starts.

ghost use Rattle.std.specs.Prelude.{◌≡◌, ◌<◌, ◌++◌, ℕ, List, ◌∷◌, false, length, slice_index_or};
ghost use Rattle.sja_journal.specs.Sizes.{most_activations};
ghost use Rattle.sja_steps.specs.declared.step.Step.TheVariants.{Start};
ghost use Rattle.sja_steps.specs.declared.step_answer.StepAnswer.TheVariants.{Done};
ghost use Rattle.sja_bus_rules.specs.Wire.{journal_at};
ghost use Rattle.sja_driver.specs.StepRuns.{StepRun, step_runs_at, acts_in};
ghost use Rattle.sja_driver.specs.TypedActs.{TypedAct, is_active};
ghost use Rattle.sja_log.specs.Log.{NodeValue, RunValue};
ghost use Rattle.sja_promises.specs.Runs.{IsRun};
ghost use Rattle.sja_plan.specs.Plan.{PlanValue};
ghost use Rattle.sja_serial.specs.Serial.{Setup, SerialValue, StandsAt};
ghost use Rattle.sja_session.specs.Sessions.{SessionValue, IsAt, IsEndless, IsSession};
ghost use Rattle.sja_journal.specs.Activations.{HasActivations};

/// A law: in a session without an end starts aren't used up. Whatever steps it did, each start that was tried in reset
/// mode was done: none was refused since no activation was left.
pub fn a_start_without_an_end_is_done()
    ensures { (s : SessionValue) (sizes : List ℕ) (capacity : ℕ) (step_runs : List (List StepRun)) (node : ℕ)
        (before after : List TypedAct) (d : TypedAct) → IsSession s sizes capacity → IsEndless s → IsAt s step_runs
        → node < length s.plan.nodes → acts_in (step_runs_at step_runs node) ≡ before ++ d ∷ after
        → d.step ≡ Start → is_active before ≡ false → d.answer ≡ Done }
{}

/// A law: of a node no more activations begin than its version has, 8 in versions 1 and 2, 64 in version 3, and 2^56
/// without an end; so wherever the bus took an item on the link that is read, fewer had ended. It holds between any two
/// steps of a run in one thread, and in the log of each run, of one in threads too.
pub fn no_more_activations_begin_than_a_version_has()
    ensures moment { (setup : Setup) (r : SerialValue) (acts : List (List TypedAct)) (node : ℕ) → StandsAt setup r acts
        → node < setup.nodes → HasActivations (most_activations setup.version) (journal_at r.bus.journals node) }
    ensures log { (plan : PlanValue) (log : RunValue) (acts : List (List TypedAct)) (k : ℕ) (d : NodeValue)
        → IsRun plan log acts → k < length log.nodes
        → HasActivations (most_activations plan.version) (slice_index_or log.nodes k d).journal }
{}
