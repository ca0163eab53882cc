//! [`run_serial`]: a whole run in one thread.

ghost use Rattle.std.specs.Prelude.{◌≡◌, ◌<◌, List, [], length, map, replicate, IfOk, IfErr};
ghost use Rattle.sja_bus_rules.specs.Buses.{new_bus};
ghost use Rattle.sja_journal.specs.Sizes.{most_activations};
ghost use Rattle.sja_driver.specs.StepRuns.{StepRun, most_acts};
ghost use Rattle.sja_plan.specs.Plan.{NamesNode, step_counts};
ghost use Rattle.sja_promises.specs.Headline.{AreAccounts};
ghost use Rattle.sja_promises.specs.Runs.{IsSerialRun};
ghost use Rattle.sja_log.specs.declared.run_fault.RunFault.TheVariants.{Memory};
ghost use Rattle.sja_serial.specs.Inside.SerialProgress.{StandsIn, IsRunIn, TakesTurns};
ghost use Rattle.sja_serial.specs.Inside.Turning.{TakesOne};

use super::node_turns::{go_turn, take_all_steps, take_steps};
use super::serial_run::SerialRun;
use can_frame::OutOfMemory;
use sja_log::{End, NoLog, RunFault, RunLog};
use sja_plan::{Plan, Turn};
use sja_promises::script_of;
use std::alloc::Global;

/// Runs a plan in one thread, and gives the log of the run.
///
/// What each driver released in an activation, followed by what it left unread, is, in order and each once, the frames
/// its controller validly received and its filter passed, less those marked overrun; and a frame is marked overrun
/// exactly where it is longer than 64 less the bytes stored and not yet collected back. What each node saw in each bit
/// is what all drove together, or the other level where the plan's faults strike it. Each item was taken after just the
/// bits before its step, each step saw all that had been put by then, and bits and steps follow the turns of the plan.
/// Each step is answered by the registers that the steps and bits before it have left, from power-on in the plan's
/// version: in each bit an abort that stands is applied, and the port is told what the bit brought.
///
/// Error: [`RunFault::Memory`] where memory was refused.
pub fn run_serial(alloc: Global, plan: &Plan) -> Result<RunLog, RunFault>
    ensures run { IfOk result (λ log. IsSerialRun plan.now log) }
    ensures headline { IfOk result (λ log. AreAccounts log) }
    ensures memory { IfErr result (λ f. f ≡ Memory) }
{
    plan.limits();
    let mut run = new_run(alloc, plan)?;
    let end = take_turns(&mut run, plan);
    match run.finish(alloc, end) {
        Ok(log) => Ok(log),
        Err(NoLog::Memory) => Err(RunFault::Memory),
        Err(NoLog::Endless) => unreachable!(),
    }
}

/// A run of this plan to which nothing happened.
///
/// Error: [`OutOfMemory`] where memory was refused.
pub(crate) fn new_run(alloc: Global, plan: &Plan) -> Result<SerialRun, OutOfMemory>
    ensures stands { IfOk result (λ r. StandsIn plan.now r (replicate (length plan.now.nodes) [])) }
    ensures bus { IfOk result (λ r. r.bus ≡ new_bus plan.now.strikes plan.now.bits (length plan.now.nodes)
        (most_activations plan.now.version) (map (most_acts plan.now.version) (step_counts plan.now))) }
{
    plan.limits();
    let script = script_of(alloc, plan)?;
    let steps = plan.step_counts(alloc)?;
    SerialRun::new(alloc, plan.version(), plan.bits() as u64, steps, script)
}

/// Takes the turns of a plan, one after the other, and says why the run ends: all are done, or the bits were spent.
pub(crate) fn take_turns(run: &mut SerialRun, plan: &Plan) -> End
    requires stands { StandsIn plan.now run.old (replicate (length plan.now.nodes) []) }
    requires bus { run.old.bus ≡ new_bus plan.now.strikes plan.now.bits (length plan.now.nodes)
        (most_activations plan.now.version) (map (most_acts plan.now.version) (step_counts plan.now)) }
    ensures { TakesTurns plan.now run.new result }
{
    for turn in plan.turns() {
        if !take_one(run, plan, turn) {
            return End::Bits;
        }
    }
    End::Turns
}

/// Takes one turn. It says whether all of it was taken; else the bits are spent.
fn take_one(run: &mut SerialRun, plan: &Plan, turn: &Turn) -> bool
    requires run { IsRunIn plan.now run.old }
    requires names { NamesNode (length plan.now.nodes) turn.now }
    ensures { (step_runs : List (List StepRun)) → StandsIn plan.now run.old step_runs →
        TakesOne plan.now step_runs run.old run.new turn.now result }
{
    match *turn {
        Turn::Node(node, count) => {
            take_steps(run, plan, node, count);
            true
        }
        Turn::All(node) => {
            take_all_steps(run, plan, node);
            true
        }
        Turn::Bus(count) => run.bus_turn(count),
        Turn::Rest => run.rest_turn(plan.bits()),
        Turn::Irq(node, count) => run.irq_turn(node, count),
        Turn::Go => go_turn(run, plan),
    }
}
