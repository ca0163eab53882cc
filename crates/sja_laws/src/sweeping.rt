//! Laws of sweeps: a sweep has one text, and each of its rows is of the run of the struck plan.

ghost use Rattle.std.specs.Prelude.{◌≡◌, ℕ, List};
ghost use Rattle.sja_plan.specs.Plan.{PlanValue};
ghost use Rattle.sja_log.specs.Log.{RunValue};
ghost use Rattle.sja_promises.specs.Runs.{IsSerialRun};
ghost use Rattle.sja_sweep.specs.declared.sweeping.Sweeping.{Sweeping};
ghost use Rattle.sja_sweep.specs.Errors.{IsRan, TrialRunValue};
ghost use Rattle.sja_sweep.specs.Sweeps.{IsSweep};

/// A law: a sweep of a plan has one text, and its rows are one text.
pub fn a_sweep_has_one_text()
    ensures { (plan : PlanValue) (s : Sweeping) (text rows other others : List ℕ) → IsSweep plan s text rows
        → IsSweep plan s other others → (text ≡ other) × (rows ≡ others) }
{}

/// A law: the log from which a row of a sweep is told is that of every run in one thread of the struck plan.
pub fn a_row_of_a_sweep_is_of_the_run()
    ensures { (struck : PlanValue) (r : TrialRunValue) (log : RunValue) → IsRan struck r → IsSerialRun struck log
        → r.log ≡ log }
{}
