//! What was left on the links at the end of a run.

ghost use Rattle.std.specs.Prelude.{◌≡◌, Err, IfOk, OnOk};
ghost use Rattle.sja_promises.specs.LeftDown.{IsLeft, KeepOlder};
ghost use Rattle.sja_log.specs.declared.no_log.NoLog.TheVariants.{Endless};

use sja_link::DequeLinks;
use sja_log::NoLog;
use sja_promises::LeftDown;
use std::alloc::Global;

/// What lies downward on the links of each node.
///
/// Errors: [`NoLog::Endless`] where more may be left on links without queues than is kept; [`NoLog::Memory`] where
/// memory was refused.
pub(crate) fn all_left_down(alloc: Global, links: &[DequeLinks]) -> Result<Vec<LeftDown>, NoLog>
    ensures lists { IfOk result (λ lists. IsLeft links.now lists.items) }
    ensures kept { OnOk result (KeepOlder links.now) }
    ensures endless { result ≡ Err Endless → KeepOlder links.now → ⊥ }
{
    let mut lists = Vec::with_capacity(alloc, links.len())?;
    for of_node in links {
        let left = LeftDown::on(alloc, of_node)?;
        lists.push_reserved(left);
    }
    Ok(lists)
}
