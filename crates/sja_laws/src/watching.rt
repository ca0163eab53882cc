//! Laws of bits that are run at once, up to the first that a port is told of, or until an interrupt line rises.

ghost use Rattle.std.specs.Prelude.{◌≡◌, ℕ, Bool, Option, List};
ghost use Rattle.sja_driver.specs.StepRuns.{StepRun};
ghost use Rattle.sja_driver.specs.TypedActs.{TypedAct};
ghost use Rattle.sja_serial.specs.Serial.{Setup, SerialValue, StandsAt};
ghost use Rattle.sja_laws.specs.Rounds.{IsRound};
ghost use Rattle.sja_session.specs.Sessions.{SessionValue};
ghost use Rattle.sja_session.specs.Watching.{Watches};

/// A law: a session that watches lines runs one number of bits, and one line rises, or none does. So what `watch`
/// answers is a function of the session, of how many bits are asked for, and of the nodes that are watched.
pub fn a_watch_runs_one_number_of_bits()
    ensures { (was now other : SessionValue) (count : ℕ) (watched : List Bool) (n m : ℕ) (rose too : Option ℕ)
        (step_runs : List (List StepRun)) → Watches was now count watched n rose step_runs
        → Watches was other count watched m too step_runs → (n ≡ m) × (rose ≡ too) }
{}

/// A law: a round, the bits of a run in one thread up to the first that a port is told of, is of one number of bits. So
/// what `bits_until_told` answers is a function of the run and of how many bits are asked for.
pub fn a_round_runs_one_number_of_bits()
    ensures { (setup : Setup) (acts : List (List TypedAct)) (was now other : SerialValue) (count n m : ℕ)
        → StandsAt setup was acts → IsRound setup acts was count n now → IsRound setup acts was count m other
        → n ≡ m }
{}
