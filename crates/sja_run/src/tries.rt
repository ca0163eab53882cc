//! [`Tries`]: the gate of `run --threads`.

ghost use Rattle.std.specs.Prelude.{◌≡◌, ◌<◌, ◌≤◌};
ghost use Rattle.sja_thread_promises.specs.declared.pass.Pass.TheVariants.{Go, Quit};

use sja_thread_promises::Pass;
use sja_threads::Gate;

/// At which try of a step a script ends.
const LAST_TRY: u32 = 10_000_000;

/// The gate of `run --threads`: it lets a step be tried below 10,000,000 times, and then ends the script (this
/// project's own rule). So a driver that waits for what never comes ends too: a try after which nothing can come any
/// more has the greatest number there is.
#[derive(Drop)]
pub struct Tries;

impl Gate for Tries {
    ghost use Rattle.std.specs.Prelude.{true};

    ghost QUITS = { true };

    ghost asks = { λ g node step tries. Unit {0} };

    ghost answered = { λ g node step tries pass. Unit {0} };

    const QUITS: bool = true;

    fn turn(&self, _node: u8, _step: u32, tries: u32) -> Pass
        ensures go { tries < 10000000 → result ≡ Go }
        ensures quit { 10000000 ≤ tries → result ≡ Quit }
    {
        if tries < LAST_TRY {
            Pass::Go
        } else {
            Pass::Quit
        }
    }

    ghost first_step = { λ g node. tt };

    ghost next_try = { λ g node step tries next pass says on numbered. tt };

    ghost next_step = { λ g node step tries next says numbered. tt };
}
