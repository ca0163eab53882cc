//! The law that a plan has one log, and what follows of it for who runs a plan again.

ghost use Rattle.std.specs.Prelude.{◌≡◌, Ok, IfOk, Result};
ghost use Rattle.sja_plan.specs.Plan.{PlanValue};
ghost use Rattle.sja_log.specs.Log.{RunValue};
ghost use Rattle.sja_promises.specs.Runs.{IsSerialRun};
ghost use Rattle.sja_log.specs.declared.run_fault.RunFault.{RunFault};
ghost use Rattle.sja_session.specs.declared.no_plan.NoPlan.{NoPlan};

/// A law: a plan has one log. Of two logs of a plan that was run in one thread each is the other, the whole value:
/// version, bits and end; of each node its journal with every entry in its place, the error counters, each step with
/// its answer and its bits, and of each activation what was released and what was left unread.
pub fn a_plan_has_one_log()
    ensures { (plan : PlanValue) (a b : RunValue) → IsSerialRun plan a → IsSerialRun plan b → a ≡ b }
{}

/// A law: two calls that run a plan in one thread, as the clause of `run_serial` has it, and that answer a log each,
/// answer the same log.
pub fn a_plan_that_is_run_again_has_the_same_log()
    ensures { (plan : PlanValue) (x y : Result RunValue RunFault) (a b : RunValue)
        → IfOk x (λ log. IsSerialRun plan log) → IfOk y (λ log. IsSerialRun plan log) → x ≡ Ok a → y ≡ Ok b → a ≡ b }
{}

/// A law: a session's plan replays the session. Where a session ends with a plan and a log, as the clause of its
/// `finish` has it, and a call runs that plan in one thread and answers a log, as the clause of `run_serial` has it,
/// this log is the session's.
pub fn a_session_replays()
    ensures { (x : Result (PlanValue × RunValue) NoPlan) (y : Result RunValue RunFault) (plan : PlanValue)
        (own log : RunValue) → IfOk x (λ both. IsSerialRun both.0 both.1) → x ≡ Ok (plan, own)
        → IfOk y (λ again. IsSerialRun plan again) → y ≡ Ok log → own ≡ log }
{}
