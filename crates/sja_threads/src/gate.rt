//! [`Gate`]: what a driver in a thread of its own asks before each try of a step.

use sja_thread_promises::Pass;

/// What a driver in a thread of its own asks before each try of a step (this project's own rule). By it a caller orders
/// the steps of several drivers, or ends a script.
pub trait Gate: Send + Drop {
    ghost use Rattle.std.specs.Prelude.{◌≡◌, ◌≢◌, ℕ, Bool, true};
    ghost use Rattle.sja_thread_promises.specs.declared.pass.Pass.{Pass as PassValue};
    ghost use Rattle.sja_thread_promises.specs.declared.pass.Pass.TheVariants.{Go, Quit};
    ghost use Rattle.sja_thread_promises.specs.Asking.{IsNextNumber};

    ghost QUITS: { Bool };

    /// It may be asked about this try of this step of this node's driver.
    ghost asks: { Self → ℕ → ℕ → ℕ → Type 0 };

    /// It was asked about this try, and gave this answer. No other call tells so: who has it has asked.
    ghost answered: { Self → ℕ → ℕ → ℕ → PassValue → Type 0 };

    /// Whether it may answer [`Pass::Quit`].
    const QUITS: bool;

    /// Asked before each try of a step of this node's driver: steps are counted from 1, and so are the tries of a step;
    /// each number stays at its type's greatest. A try's number is that too where nothing can end the wait any more: in
    /// [`run_threads`](crate::run_threads), where the bus rests and each driver has ended or tried in vain since.
    fn turn(&self, node: u8, step: u32, tries: u32) -> Pass
        requires { asks self.now node step tries }
        ensures quits { result ≡ Quit → QUITS ≡ true }
        ensures says { answered self.now node step tries result };

    /// It may be asked about the first try of the first step.
    ghost first_step: { (g : Self) (node : ℕ) → asks g node 1 1 };

    /// Once it was asked about a try of a step, and didn't quit, it may be asked about the next one.
    ghost next_try: { (g : Self) (node step tries next : ℕ) (pass : PassValue) → answered g node step tries pass →
        pass ≢ Quit → IsNextNumber tries next → asks g node step next };

    /// And once it let a try of a step go, about the first one of the next step.
    ghost next_step: { (g : Self) (node step tries next : ℕ) → answered g node step tries Go →
        IsNextNumber step next → asks g node next 1 };
}
