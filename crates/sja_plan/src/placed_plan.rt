//! [`PlacedPlan`]: a plan and its strikes by place.

use super::placed_strike::PlacedStrike;
use super::plan::Plan;

/// A plan with its strikes by bits, and the strikes by place that its document has beside them, in their order.
#[derive(Drop)]
pub struct PlacedPlan {
    /// The plan.
    pub plan: Plan,
    /// The strikes by place.
    pub placed: Vec<PlacedStrike>,
}
