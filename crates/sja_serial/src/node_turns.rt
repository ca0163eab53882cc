//! The turns of drivers: so many steps of one, all that one can do, or all drivers by themselves.

ghost use Rattle.std.specs.Prelude.{◌≡◌, ◌<◌, List, length, true, false};
ghost use Rattle.sja_driver.specs.StepRuns.{StepRun};
ghost use Rattle.sja_serial.specs.Inside.SerialProgress.{StandsIn, IsRunIn, TakesTurn};
ghost use Rattle.sja_serial.specs.Inside.Rounds.{TakesAll, TakesGo, NoneIsLeft, SomeIsLeft, past_all};

use super::serial_run::SerialRun;
use sja_plan::Plan;

/// One turn of a node, counted from 0: so many steps of its driver, one after the other, or as many as it has left, or
/// up to one that has to wait. No bit is run.
pub(crate) fn take_steps(run: &mut SerialRun, plan: &Plan, node: u8, count: u32)
    requires run { IsRunIn plan.now run.old }
    requires node { node < length plan.now.nodes }
    ensures { (step_runs : List (List StepRun)) → StandsIn plan.now run.old step_runs →
        TakesTurn plan.now run.old run.new node count step_runs }
{
    let place = usize::from(node);
    let steps = plan.steps(place);
    for _ in 0..count {
        let next = run.driver(place).log().done_count();
        if next >= steps.len() {
            return;
        }
        let step = &steps[next];
        if !run.step(node, step) {
            return;
        }
    }
}

/// The driver of a node, counted from 0, does all that it can. No bit is run.
pub(crate) fn take_all_steps(run: &mut SerialRun, plan: &Plan, node: u8)
    requires run { IsRunIn plan.now run.old }
    requires node { node < length plan.now.nodes }
    ensures { (step_runs : List (List StepRun)) → StandsIn plan.now run.old step_runs →
        TakesTurn plan.now run.old run.new node (past_all plan.now node) step_runs }
{
    let steps = plan.steps(usize::from(node)).len() as u32;
    take_steps(run, plan, node, steps + 1)
}

/// `go`: each driver, in the order of the nodes, does all that it can. While one has a step left a bit is run, and so
/// it goes on; then the bus runs until every controller is at rest. It says whether that came before the bits were
/// spent.
pub(crate) fn go_turn(run: &mut SerialRun, plan: &Plan) -> bool
    requires run { IsRunIn plan.now run.old }
    ensures { (step_runs : List (List StepRun)) → StandsIn plan.now run.old step_runs →
        TakesGo plan.now step_runs run.old run.new result }
{
    for _ in run.bits()..plan.bits() as u64 + 1 {
        take_round(run, plan);
        if none_is_left(run, plan) {
            return run.rest_turn(plan.bits());
        }
        if !run.bus_turn(1) {
            return false;
        }
    }
    unreachable!()
}

/// Each driver, in the order of the nodes, does all that it can. No bit is run.
fn take_round(run: &mut SerialRun, plan: &Plan)
    requires run { IsRunIn plan.now run.old }
    ensures round { (step_runs : List (List StepRun)) → StandsIn plan.now run.old step_runs →
        (after : List (List StepRun))
        × TakesAll plan.now 0 step_runs run.old after run.new × StandsIn plan.now run.new after }
    ensures bits { run.new.bits ≡ run.old.bits }
{
    for node in 0..plan.nodes() as u8 {
        take_all_steps(run, plan, node);
    }
}

/// Whether all drivers have done their last step.
fn none_is_left(run: &SerialRun, plan: &Plan) -> bool
    requires run { IsRunIn plan.now run.now }
    ensures none { result ≡ true → (step_runs : List (List StepRun)) → StandsIn plan.now run.now step_runs →
        NoneIsLeft plan.now step_runs }
    ensures some { result ≡ false → (step_runs : List (List StepRun)) → StandsIn plan.now run.now step_runs →
        SomeIsLeft plan.now step_runs }
{
    for node in 0..plan.nodes() {
        if run.driver(node).log().done_count() < plan.steps(node).len() {
            return false;
        }
    }
    true
}
