//! The last bit that a step of a plan waits for.

ghost use Rattle.std.specs.Prelude.{◌≡◌};
ghost use Rattle.sja_thread_promises.specs.Needed.{bits_awaited, last_awaited, most_awaited};

use sja_plan::Plan;
use sja_steps::Step;

/// The most bits that a step of a plan's scripts waits for: 0 where none does.
pub(crate) fn last_awaited(plan: &Plan) -> u32
    ensures { result ≡ last_awaited plan.now.nodes }
{
    let mut last = 0u32;
    for node in 0..plan.nodes() {
        last = last.max(most_awaited(plan.steps(node)));
    }
    last
}

/// The most that a step of a script waits for.
pub(crate) fn most_awaited(steps: &[Step]) -> u32
    ensures { result ≡ most_awaited steps.now }
{
    let mut most = 0u32;
    for step in steps {
        most = most.max(bits_awaited(step));
    }
    most
}

/// How many bits have to run for a step.
fn bits_awaited(step: &Step) -> u32
    ensures { result ≡ bits_awaited step.now }
{
    match step {
        Step::At(bits) => *bits,
        _ => 0,
    }
}
