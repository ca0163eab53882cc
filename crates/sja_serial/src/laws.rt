//! A law of which runs have a log. It is the contract of a function that does nothing.

ghost use Rattle.std.specs.Prelude.{List};
ghost use Rattle.sja_driver.specs.StepRuns.{StepRun};
ghost use Rattle.sja_serial.specs.LoggedRuns.{IsKept, KeepsRun};
ghost use Rattle.sja_serial.specs.Serial.{Setup, SerialValue, StandsBy};

/// A law: a run that is made for no more bits and steps than a plan may have keeps all that happens in it, wherever it
/// stands (this project's own rule). So [`finish`](super::SerialRun::finish) gives its log wherever memory is given.
pub fn a_run_of_the_size_of_a_plan_keeps_all()
    ensures { (setup : Setup) (r : SerialValue) (step_runs : List (List StepRun)) → StandsBy setup r step_runs
        → IsKept setup → KeepsRun r }
{}
