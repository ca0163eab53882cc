//! What the texts of a plan say, text after text.

ghost use Rattle.std.specs.Prelude.{◌≡◌, ◌≤◌, ◌<◌, ◌⊎◌, ◌^◌, ℕ, List, IfOk, IfErr, map};
ghost use Rattle.std.specs.List.{AllZip};
ghost use Rattle.sja_plan_reading.specs.declared.within.Within.{Within};
ghost use Rattle.sja_plan_reading.specs.Inside.Views.{IsListFault, list_fault};

use super::list_fault::ListFault;
use super::text_fault::TextFault;
use super::within::Within;
use std::alloc::Global;

/// What a text of a plan can say.
pub(crate) trait PlanText: Sized + Drop {
    /// Within this the text says this value.
    ghost says: { Within → List ℕ → Self → Type 0 };

    /// What a text says within it. Its words are left in `room`, so that one list serves all texts.
    fn plan_text<'a>(
        alloc: Global,
        within: Within,
        text: &'a str,
        room: &mut Vec<&'a str>,
    ) -> Result<Self, TextFault>
        requires { within.nodes ≤ 8 }
        ensures ok { IfOk result (λ x. says within text.entry.now x) }
        ensures err { IfErr result (λ e. (e ≡ TextFault.NoMemory)
            ⊎ ((e ≡ TextFault.Bad) × ((x : Self) → ¬ says within text.entry.now x))) };
}

/// What each text says within this.
pub(crate) fn read_all<T: PlanText>(
    alloc: Global,
    within: Within,
    texts: &[&str],
) -> Result<Vec<T>, ListFault>
    requires { within.nodes ≤ 8 }
    ensures ok { IfOk result (λ v. AllZip (T.says within) (map (λ t. t.now) texts.now) v.items) }
    ensures err { IfErr result (IsListFault (T.says within) (map (λ t. t.now) texts.now)) }
{
    let Ok(mut found) = Vec::with_capacity(alloc, texts.len()) else {
        return Err(ListFault::NoMemory);
    };
    let mut room = Vec::new(alloc);
    for text in texts {
        match T::plan_text(alloc, within, text, &mut room) {
            Ok(value) => found.push_reserved(value),
            Err(fault) => return Err(list_fault(fault, found.len())),
        }
    }
    Ok(found)
}

/// The fault of a list whose text behind so many good ones has this fault.
fn list_fault(fault: TextFault, good: usize) -> ListFault
    requires { good < 2 ^ 62 }
    ensures { result ≡ list_fault fault good }
{
    match fault {
        TextFault::Bad => ListFault::Bad(good + 1),
        TextFault::NoMemory => ListFault::NoMemory,
    }
}
