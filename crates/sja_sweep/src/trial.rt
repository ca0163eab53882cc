//! [`Trial`]: what one run of a sweep has beside the plan.

use super::target::Target;

/// What one run of a sweep has beside the plan: one strike, or two.
#[derive(Clone, Copy)]
pub(crate) struct Trial {
    /// The strike; of two the earlier one, and in one bit that of the lower node.
    pub(crate) first: Target,
    /// The other one of two.
    pub(crate) second: Option<Target>,
}
