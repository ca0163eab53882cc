//! Laws of texts. Each is the contract of a function that does nothing.

ghost use Rattle.std.specs.Prelude.{◌≡◌, ◌≤◌, ◌↔◌, ℕ, List, Bool};
ghost use Rattle.sja_plan_reading.specs.Words.{Text};
ghost use Rattle.sja_plan_reading.specs.StepTexts.{SaysStep};
ghost use Rattle.sja_plan_reading.specs.TurnTexts.{SaysTurn};
ghost use Rattle.sja_plan_reading.specs.StrikeTexts.{SaysStrike};
ghost use Rattle.sja_plan.specs.Plan.{PlanValue, NamesNode, IsStrikeOn};
ghost use Rattle.sja_plan_reading.specs.Faults.{IsText, IsPlanOf};
ghost use Rattle.sja_plan_text.specs.Texts.{named_text, turn_text, strike_text};
ghost use Rattle.sja_steps.specs.StepText.{step_text};
ghost use Rattle.sja_plan_text.specs.HasTexts.{HasStepText, HasTurnText, HasStrikeText, HasTexts};
ghost use Rattle.sja_plan_text.specs.Document.{IsDocumentOf};
ghost use Rattle.sja_plan_text.specs.Written.{IsWritten, IsPlanText, IsTooLong, EndsInFeed};

use sja_plan::Turn;
use sja_steps::{Step, Strike};

/// In each version the text of a step says it, where a text can.
#[tactic(auto, using(crate::proofs::Spelling::Steps::step_said))]
pub fn a_step_has_a_text()
    ensures { (version : ℕ) (s : Step) → HasStepText version s → SaysStep version (step_text s) s }
{}

/// In version 3 its text with names says it too.
#[tactic(auto, using(crate::proofs::Spelling::Steps::named_said))]
pub fn a_named_step_has_a_text()
    ensures { (version : ℕ) (s : Step) → 3 ≤ version → HasStepText version s → SaysStep version (named_text s) s }
{}

/// A step that a text says is one that has a text.
#[tactic(auto, using(crate::proofs::Spelling::Steps::has_step_text))]
pub fn said_steps_have_texts()
    ensures { (version : ℕ) (text : Text) (s : Step) → SaysStep version text s → HasStepText version s }
{}

/// In each version the text of a turn says it, where a text can, in a plan that has its node.
#[tactic(auto, using(crate::proofs::Spelling::Turns::turn_said))]
pub fn a_turn_has_a_text()
    ensures { (version nodes : ℕ) (t : Turn) → NamesNode nodes t → HasTurnText version t →
        SaysTurn version nodes (turn_text t) t }
{}

/// A turn that a text says is one that has a text.
#[tactic(auto, using(crate::proofs::Spelling::Turns::has_turn_text))]
pub fn said_turns_have_texts()
    ensures { (version nodes : ℕ) (text : Text) (t : Turn) → SaysTurn version nodes text t →
        NamesNode nodes t × HasTurnText version t }
{}

/// The text of a strike says it, where a text can, in a plan that has its node.
#[tactic(auto, using(crate::proofs::Spelling::Strikes::strike_said))]
pub fn a_strike_has_a_text()
    ensures { (nodes : ℕ) (s : Strike) → IsStrikeOn nodes s → HasStrikeText s → SaysStrike nodes (strike_text s) s }
{}

/// A strike that a text says is one that has a text.
#[tactic(auto, using(crate::proofs::Spelling::Strikes::has_strike_text))]
pub fn said_strikes_have_texts()
    ensures { (nodes : ℕ) (text : Text) (s : Strike) → SaysStrike nodes text s → IsStrikeOn nodes s × HasStrikeText s }
{}

/// A plan that was read has texts.
pub fn a_plan_has_texts()
    ensures { (bytes : List ℕ) (p : PlanValue) → IsPlanOf bytes p → HasTexts p }
{}

/// Bytes are a plan where they are a document of it, and a text that isn't too long.
pub fn a_plan_is_a_short_document()
    ensures { (bytes : List ℕ) (p : PlanValue) → IsPlanOf bytes p ↔ (IsText bytes × IsDocumentOf bytes p) }
{}

/// One text at most is written of a plan, with its lists in lines or not.
pub fn one_text_is_written()
    ensures { (pretty : Bool) (p : PlanValue) (a b : Text) → IsWritten pretty p a → IsWritten pretty p b → a ≡ b }
{}

/// A plan has one text at most.
pub fn a_plan_has_one_text()
    ensures { (p : PlanValue) (a b : Text) → IsPlanText p a → IsPlanText p b → a ≡ b }
{}

/// A plan that has a text isn't too long.
pub fn a_plan_with_a_text_is_not_too_long()
    ensures { (p : PlanValue) (text : Text) → IsPlanText p text → ¬ IsTooLong p }
{}

/// The last line of a plan's text is ended, as all others are.
pub fn a_plan_text_ends_in_a_line_feed()
    ensures { (p : PlanValue) (text : Text) → IsPlanText p text → EndsInFeed text }
{}
