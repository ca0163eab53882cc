//! [`Order`]: which lists the ports of a run keep.

use std::marker::Brand;

/// Which lists the ports of a run keep (this project's own rule): by node the name of the list of turns that its port
/// was told, and of that of its driver's acts there; and the version of the ports.
pub trait Order {
    ghost use Rattle.std.specs.Prelude.{ℕ, List};

    ghost version: { ℕ };

    ghost turns: { List ℕ };

    ghost acts: { List ℕ };
}

impl Order for Brand {
    ghost use Rattle.std.specs.Prelude.{[]};

    ghost version = { 0 };

    ghost turns = { [] };

    ghost acts = { [] };
}
