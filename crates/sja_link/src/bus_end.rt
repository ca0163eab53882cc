//! The bus's end of a node's links.

ghost use Rattle.std.specs.Prelude.{◌≡◌, ◌≤◌, ℕ, IfErr, IfSome, OnOk, OnErr, IfNone};
ghost use Rattle.sja_journal.specs.Lists.{Lists, with_put, with_taken, OthersStand, Carries, Keeps};

use sja_journal::{Down, Up};

/// The bus's end of a node's links, one for each activation, counted from 1.
///
/// A clause on what was put and taken holds for all lists that the end stands for.
pub trait BusEnd {
    /// Whose links they are: the node's number, counted from 0.
    ghost node: { Self → ℕ };

    /// How many links it has: those of the activations from 1 up to this one.
    ghost links: { Self → ℕ };

    /// On the link of this activation the end stands for these lists: its own two by what it did, and the other end's
    /// as far as it can tell.
    ghost stands: { Self → ℕ → Lists → Type 0 };

    /// The same end of the same links.
    ghost same: { Self → Self → Type 0 };

    /// `put` on the link of this activation may give an item back.
    ghost full: { Self → ℕ → Type 0 };

    /// `take` from the link of this activation may show nothing.
    ghost dry: { Self → ℕ → Type 0 };

    /// Whose links they are: the node's number, counted from 0.
    fn node(&self) -> u8
        ensures { result ≡ node self.now };

    /// How many links it has.
    fn links(&self) -> u64
        ensures { result ≡ links self.now };

    /// Puts an item on the link of an activation, or gives it back.
    fn put(&mut self, activation: u64, item: Down) -> Result<(), Down>
        ensures same { same self.old self.new }
        ensures others { OthersStand stands activation self.old self.new }
        ensures put { OnOk result (Carries stands activation self.old self.new (λ l. with_put l item)) }
        ensures back { IfErr result (λ x. x ≡ item) }
        ensures kept { OnErr result (Keeps stands activation self.old self.new) }
        ensures full { OnErr result (full self.old activation) };

    /// Takes the next item that was given on the link of an activation, if one is shown: the end has that link then.
    fn take(&mut self, activation: u64) -> Option<Up>
        ensures same { same self.old self.new }
        ensures others { OthersStand stands activation self.old self.new }
        ensures item { IfSome result (λ x. Carries stands activation self.old self.new (λ l. with_taken l x)) }
        ensures has { IfSome result (λ x. activation ≤ links self.new) }
        ensures kept { IfNone result (Keeps stands activation self.old self.new) }
        ensures dry { IfNone result (dry self.new activation) };

    /// An end is the same as itself.
    ghost same_refl: { (e : Self) → same e e };

    /// Being the same end carries over from one call to the next.
    ghost same_trans: { (a b c : Self) → same a b → same b c → same a c };

    /// The same end is of the same node.
    ghost same_node: { (a b : Self) → same a b → node b ≡ node a };

    /// The same end has as many links.
    ghost same_links: { (a b : Self) → same a b → links b ≡ links a };
}
