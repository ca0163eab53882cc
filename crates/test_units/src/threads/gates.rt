//! The gates that the tests' drivers ask.

use sja_thread_promises::Pass;
use sja_threads::Gate;
use std::alloc::Global;
use std::sync::Arc;
use std::sync::atomic::{AtomicU64, Ordering};

/// A gate that lets every step go.
#[derive(Drop)]
pub struct Open;

impl Gate for Open {
    ghost use Rattle.std.specs.Prelude.{false};

    ghost QUITS = { false };

    ghost asks = { λ g node step tries. Unit {0} };

    ghost answered = { λ g node step tries pass. Unit {0} };

    const QUITS: bool = false;

    fn turn(&self, _node: u8, _step: u32, _tries: u32) -> Pass {
        Pass::Go
    }

    ghost first_step = { λ g node. tt };

    ghost next_try = { λ g node step tries next pass says on numbered. tt };

    ghost next_step = { λ g node step tries next says numbered. tt };
}

/// A gate that quits at this try of a step.
#[derive(Drop)]
pub struct Patience {
    pub tries: u32,
}

impl Gate for Patience {
    ghost use Rattle.std.specs.Prelude.{true};

    ghost QUITS = { true };

    ghost asks = { λ g node step tries. Unit {0} };

    ghost answered = { λ g node step tries pass. Unit {0} };

    const QUITS: bool = true;

    fn turn(&self, _node: u8, _step: u32, tries: u32) -> Pass {
        if tries >= self.tries {
            Pass::Quit
        } else {
            Pass::Go
        }
    }

    ghost first_step = { λ g node. tt };

    ghost next_try = { λ g node step tries next pass says on numbered. tt };

    ghost next_step = { λ g node step tries next says numbered. tt };
}

/// A gate that holds each step once, lets its second try go, and quits at a third and past this step.
#[derive(Drop)]
pub struct HoldsOnce {
    pub last: u32,
}

impl Gate for HoldsOnce {
    ghost use Rattle.std.specs.Prelude.{true};

    ghost QUITS = { true };

    ghost asks = { λ g node step tries. Unit {0} };

    ghost answered = { λ g node step tries pass. Unit {0} };

    const QUITS: bool = true;

    fn turn(&self, _node: u8, step: u32, tries: u32) -> Pass {
        if step > self.last || tries > 2 {
            Pass::Quit
        } else if tries == 2 {
            Pass::Go
        } else {
            Pass::Hold
        }
    }

    ghost first_step = { λ g node. tt };

    ghost next_try = { λ g node step tries next pass says on numbered. tt };

    ghost next_step = { λ g node step tries next says numbered. tt };
}

/// How often a step is tried that waits for another driver.
const MOST: u32 = 10_000_000;

/// A gate that holds some of its driver's steps, each until another driver has come to a step of its own. It quits
/// where that takes too many tries.
#[derive(Drop)]
pub struct Meeting {
    /// The step that this gate was asked for last.
    pub own: Arc<AtomicU64>,
    /// The step that the other driver's gate was asked for last.
    pub other: Arc<AtomicU64>,
    /// Which steps are held, and up to which step of the other driver.
    pub held: [(u32, u64); 3],
}

impl Gate for Meeting {
    ghost use Rattle.std.specs.Prelude.{true};

    ghost QUITS = { true };

    ghost asks = { λ g node step tries. Unit {0} };

    ghost answered = { λ g node step tries pass. Unit {0} };

    const QUITS: bool = true;

    fn turn(&self, _node: u8, step: u32, tries: u32) -> Pass {
        self.own.store(u64::from(step), Ordering::SeqCst);
        let come = self.other.load(Ordering::SeqCst);
        for (held, until) in self.held {
            if step == held && come < until {
                return if tries < MOST { Pass::Hold } else { Pass::Quit };
            }
        }
        Pass::Go
    }

    ghost first_step = { λ g node. tt };

    ghost next_try = { λ g node step tries next pass says on numbered. tt };

    ghost next_step = { λ g node step tries next says numbered. tt };
}
