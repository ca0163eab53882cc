//! A law of plans whose strikes by place were struck. It stands as the contract of a function that does nothing.

ghost use Rattle.std.specs.Prelude.{ℕ, List};
ghost use Rattle.sja_plan.specs.Plan.{PlanValue};
ghost use Rattle.sja_plan_text.specs.HasTexts.{HasTexts};
ghost use Rattle.sja_placed_strikes.specs.PlanRead.{IsRunPlan};

/// A plan that was read, and whose strikes by place were struck, has texts.
pub fn a_run_plan_has_texts()
    ensures { (bytes : List ℕ) (p : PlanValue) → IsRunPlan bytes p → HasTexts p }
{}
