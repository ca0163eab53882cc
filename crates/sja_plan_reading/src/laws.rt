//! Laws of plans: a text and bytes have one meaning or none. Each is the contract of a function that does nothing.

ghost use Rattle.std.specs.Prelude.{◌≡◌, ◌≢◌, ◌++◌, ℕ, List};
ghost use Rattle.toml_parser.specs.Lexical.{skip_blank};
ghost use Rattle.sja_plan_reading.specs.Words.{Text};
ghost use Rattle.sja_plan_reading.specs.StepTexts.{SaysStep};
ghost use Rattle.sja_plan_reading.specs.TurnTexts.{SaysTurn};
ghost use Rattle.sja_plan_reading.specs.StrikeTexts.{SaysStrike};
ghost use Rattle.sja_plan.specs.Plan.{PlanValue};
ghost use Rattle.sja_plan_reading.specs.DocumentLimits.{by_bytes_line};
ghost use Rattle.sja_plan_reading.specs.Faults.{IsText, IsPlanOf, IsFirstFault};

use super::plan_fault::PlanFault;
use sja_plan::Turn;
use sja_steps::{Step, Strike};

/// In a version a text says one step at most.
#[tactic(auto, using(crate::proofs::OneReading::OneMeaning::one_step))]
pub fn a_text_says_one_step()
    ensures { (version : ℕ) (text : Text) (s t : Step) → SaysStep version text s → SaysStep version text t → s ≡ t }
{}

/// A text says one turn at most.
#[tactic(auto, using(crate::proofs::OneReading::OneMeaning::one_turn))]
pub fn a_text_says_one_turn()
    ensures { (version nodes : ℕ) (text : Text) (t u : Turn) → SaysTurn version nodes text t →
        SaysTurn version nodes text u → t ≡ u }
{}

/// A text says one strike at most.
#[tactic(auto, using(crate::proofs::OneReading::OneMeaning::one_strike))]
pub fn a_text_says_one_strike()
    ensures { (nodes : ℕ) (text : Text) (s t : Strike) → SaysStrike nodes text s → SaysStrike nodes text t → s ≡ t }
{}

/// Bytes are one plan at most.
pub fn bytes_are_one_plan()
    ensures { (bytes : List ℕ) (p q : PlanValue) → IsPlanOf bytes p → IsPlanOf bytes q → p ≡ q }
{}

/// Bytes have one first fault at most, but for refused memory.
pub fn bytes_have_one_first_fault()
    ensures { (bytes : List ℕ) (e f : PlanFault) → e ≢ PlanFault.Memory → f ≢ PlanFault.Memory
        → IsFirstFault bytes e → IsFirstFault bytes f → e ≡ f }
{}

/// Bytes that are a plan have no fault, but for refused memory.
pub fn a_plan_has_no_fault()
    ensures { (bytes : List ℕ) (p : PlanValue) (f : PlanFault) → f ≢ PlanFault.Memory
        → IsPlanOf bytes p → ¬ IsFirstFault bytes f }
{}

/// Blank lines and comments before the line `version = 3` leave a plan what it is, where the bytes aren't too many.
pub fn comments_before_a_plan_change_nothing()
    ensures { (comments rest : List ℕ) (p : PlanValue)
        → skip_blank (comments ++ (by_bytes_line ++ rest)) ≡ by_bytes_line ++ rest →
        IsText (comments ++ (by_bytes_line ++ rest))
        → IsPlanOf (by_bytes_line ++ rest) p → IsPlanOf (comments ++ (by_bytes_line ++ rest)) p }
{}
