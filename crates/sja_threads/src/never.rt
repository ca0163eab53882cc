//! What never comes.

use std::sync::Wait;

/// Waits for ever: no port is another's than its node's.
pub(crate) fn wait_for_ever(rt: &impl Wait)
    ensures never { ⊥ }
{
    for _ in rt.forever() {}
    unreachable!()
}
