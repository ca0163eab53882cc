//! The driver's end of a node's links.

ghost use Rattle.std.specs.Prelude.{◌≡◌, ℕ, IfErr, IfSome, OnOk, OnErr, IfNone};
ghost use Rattle.sja_journal.specs.Lists.{Lists, with_got, with_given, OthersStand, Carries, Keeps};

use sja_journal::{Down, Up};

/// The driver's end of a node's links, one for each activation, counted from 1.
///
/// A clause on what was got and given holds for all lists that the end stands for.
pub trait DriverEnd {
    /// Whose links they are: the node's number, counted from 0.
    ghost node: { Self → ℕ };

    /// On the link of this activation the end stands for these lists: got and given by what it did, put and taken as
    /// far as it can tell.
    ghost stands: { Self → ℕ → Lists → Type 0 };

    /// Both are the same end of the same links.
    ghost same: { Self → Self → Type 0 };

    /// `get` from the link of this activation may show nothing.
    ghost dry: { Self → ℕ → Type 0 };

    /// `give` on the link of this activation may give an item back.
    ghost full: { Self → ℕ → Type 0 };

    /// Whose links they are: the node's number, counted from 0.
    fn node(&self) -> u8
        ensures { result ≡ node self.now };

    /// Gets the next item that was put on the link of an activation, if one is shown.
    fn get(&mut self, activation: u64) -> Option<Down>
        ensures same { same self.old self.new }
        ensures others { OthersStand stands activation self.old self.new }
        ensures item { IfSome result (λ x. Carries stands activation self.old self.new (λ l. with_got l x)) }
        ensures kept { IfNone result (Keeps stands activation self.old self.new) }
        ensures dry { IfNone result (dry self.new activation) };

    /// Gives an item on the link of an activation, or it comes back.
    fn give(&mut self, activation: u64, item: Up) -> Result<(), Up>
        ensures same { same self.old self.new }
        ensures others { OthersStand stands activation self.old self.new }
        ensures given { OnOk result (Carries stands activation self.old self.new (λ l. with_given l item)) }
        ensures back { IfErr result (λ x. x ≡ item) }
        ensures kept { OnErr result (Keeps stands activation self.old self.new) }
        ensures full { OnErr result (full self.old activation) };

    /// Every end is the same as itself.
    ghost same_refl: { (e : Self) → same e e };

    /// Being the same end carries over from one call to the next.
    ghost same_trans: { (a b c : Self) → same a b → same b c → same a c };

    /// The same end is of the same node.
    ghost same_node: { (a b : Self) → same a b → node b ≡ node a };
}
