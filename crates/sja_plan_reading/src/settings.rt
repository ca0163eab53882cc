//! The checks of a document's numbers and of the lengths of its lists.

ghost use Rattle.std.specs.Prelude.{◌≡◌, ◌<◌, ◌≤◌, ◌↔◌, ℕ, pos, true, None, IfOk, IfErr, IfSome, OnOk};
ghost use Rattle.sja_plan_reading.specs.Inside.Views.{document_view, IsOther};
ghost use Rattle.sja_plan_reading.specs.Checks.{version_of, HasNodes, HasFewSteps};
ghost use Rattle.sja_plan.specs.Limits.{most_bits};
ghost use Rattle.sja_plan_reading.specs.Faults.{IsDocumentFault};

use super::document::Document;
use super::document_limits::LAST_VERSION;
use super::plan_fault::PlanFault;
use sja_plan::{most_bits, most_steps};
use sja_steps::MOST_NODES;

/// The version and the number of bits.
#[derive(Clone, Copy)]
pub(crate) struct Settings {
    pub(crate) version: u8,
    pub(crate) bits: u32,
}

/// The version and the number of bits, where they are known and within the limits, as the numbers of nodes and of
/// their steps are.
#[tactic(auto, using(crate::proofs::PlanLimits::OfDocuments::version_is))]
pub(crate) fn settings_of(document: &Document) -> Result<Settings, PlanFault>
    ensures version { IfOk result (λ s. ((document_view document.now).version ≡ pos s.version)
        × (1 ≤ s.version) × (s.version ≤ 3)) }
    ensures bits { IfOk result (λ s. ((document_view document.now).bits ≡ pos s.bits)
        × (1 ≤ s.bits) × (s.bits ≤ most_bits s.version)) }
    ensures counts { OnOk result (HasNodes (document_view document.now) × HasFewSteps (document_view document.now)) }
    ensures err { IfErr result (IsDocumentFault (document_view document.now)) }
    ensures other { IfErr result IsOther }
{
    let Some(version) = within(document.version, 1, LAST_VERSION) else {
        return Err(PlanFault::Version);
    };
    let version = version as u8;
    let Some(bits) = within(document.bits, 1, most_bits(version)) else {
        return Err(PlanFault::Bits);
    };
    if !has_nodes(document) {
        return Err(PlanFault::NodeCount);
    }
    if !has_few_steps(document, version) {
        return Err(PlanFault::StepCount);
    }
    Ok(Settings { version, bits })
}

/// The number, where it is one from `least` to `most`.
fn within(value: i64, least: u32, most: u32) -> Option<u32>
    ensures some { IfSome result (λ n. (value ≡ pos n) × (least ≤ n) × (n ≤ most)) }
    ensures none { result ≡ None → (n : ℕ) → value ≡ pos n → least ≤ n → most < n }
{
    let n = u32::try_from(value).ok()?;
    if n < least || n > most {
        return None;
    }
    Some(n)
}

/// Whether there are from 1 to 8 nodes.
fn has_nodes(document: &Document) -> bool
    ensures { (result ≡ true) ↔ HasNodes (document_view document.now) }
{
    1 <= document.nodes.len() && document.nodes.len() <= usize::from(MOST_NODES)
}

/// Whether each node has at most as many steps as a document of this version may have.
fn has_few_steps(document: &Document, version: u8) -> bool
    requires { version_of (document_view document.now) ≡ version }
    ensures { (result ≡ true) ↔ HasFewSteps (document_view document.now) }
{
    for steps in document.nodes.as_slice() {
        if steps.len() > most_steps(version) {
            return false;
        }
    }
    true
}
