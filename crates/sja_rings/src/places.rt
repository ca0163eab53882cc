//! The places of a node's links.

ghost use Rattle.std.specs.Prelude.{◌≡◌, ◌<◌, ◌⊎◌, suc, IfSome, IfNone};

/// The place of an activation's link among so many, of which the first is that of activation 1; none where it has no
/// link.
pub(crate) fn place_of(activation: u64, count: usize) -> Option<usize>
    ensures some { IfSome result (λ place. (suc place ≡ activation) × (place < count)) }
    ensures none { IfNone result ((activation ≡ 0) ⊎ (count < activation)) }
{
    if activation == 0 || activation > count as u64 {
        return None;
    }
    Some((activation - 1) as usize)
}
