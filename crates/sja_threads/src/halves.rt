//! What is done with both halves of a list: nothing at all when it runs.

ghost use Rattle.std.specs.Prelude.{◌≡◌, [], ◌∷◌, ◌++◌};

use super::kept_half::KeptHalf;
use super::known_half::KnownHalf;
use std::marker::PhantomData;

/// Both halves of a new list, which is empty.
#[inline(always)]
pub(crate) fn both_halves<V>() -> (KeptHalf<V>, KnownHalf<V>)
    ensures same { result.0.name ≡ result.1.name }
    ensures kept { result.0.list ≡ [] }
    ensures known { result.1.list ≡ [] }
{
    (
        KeptHalf {
            marker: PhantomData,
        },
        KnownHalf {
            marker: PhantomData,
        },
    )
}

/// Adds an item at the end of the list.
#[inline(always)]
pub(crate) fn add<V>(kept: &mut KeptHalf<V>, known: &mut KnownHalf<V>, item: &V)
    requires { kept.old.name ≡ known.old.name }
    ensures before { kept.old.list ≡ known.old.list }
    ensures kept { kept.new.list ≡ kept.old.list ++ item.now ∷ [] }
    ensures known { known.new.list ≡ known.old.list ++ item.now ∷ [] }
    ensures kept_name { kept.new.name ≡ kept.old.name }
    ensures known_name { known.new.name ≡ known.old.name }
{
    let _ = item;
}

/// Both halves are of one list.
#[inline(always)]
pub(crate) fn agree<V>(kept: &mut KeptHalf<V>, known: &mut KnownHalf<V>)
    requires { kept.old.name ≡ known.old.name }
    ensures same { kept.old.list ≡ known.old.list }
    ensures kept { kept.new ≡ kept.old }
    ensures known { known.new ≡ known.old }
{}
