//! Laws of how many bits `rest`, `irq` and a round of `go` run.

ghost use Rattle.std.specs.Prelude.{◌≡◌, ◌+◌, ◌<◌, ◌≤◌, ◌⊎◌, ℕ};
ghost use Rattle.sja_promises.specs.Turns.{Acts, AllAtRest, AllDo, IsLineDown, IsLineUp, NoneLeft, Progress, SomeLeft};

/// A law: `rest` runs one number of bits, the least one after which every controller is at rest.
pub fn rest_runs_one_number_of_bits()
    ensures { (r : Acts) (p : Progress) (n m : ℕ) → ((i : ℕ) → i < n → ¬ AllAtRest r p (p.bits + i))
        → AllAtRest r p (p.bits + n) → ((i : ℕ) → i < m → ¬ AllAtRest r p (p.bits + i))
        → AllAtRest r p (p.bits + m) → n ≡ m }
{}

/// A law: `irq` runs one number of bits, the least one after which the interrupt line of its node is active, or as many
/// as it has at most.
pub fn irq_runs_one_number_of_bits()
    ensures { (r : Acts) (p : Progress) (k most n m : ℕ) → n ≤ most → m ≤ most
        → ((i : ℕ) → i < n → IsLineDown r p k (p.bits + i)) → (n ≡ most) ⊎ IsLineUp r p k (p.bits + n)
        → ((i : ℕ) → i < m → IsLineDown r p k (p.bits + i)) → (m ≡ most) ⊎ IsLineUp r p k (p.bits + m) → n ≡ m }
{}

/// A law: a round of `go`, in which each driver does all that it can, runs no bit, and leaves steps to some driver or
/// to none. So `go` goes on by one bit, or is over.
pub fn a_round_of_go_runs_no_bit()
    ensures { (r : Acts) (p q : Progress) → AllDo r 0 p q → (q.bits ≡ p.bits) × (SomeLeft r q → ¬ NoneLeft r q) }
{}
