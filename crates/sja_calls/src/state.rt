//! Where a session of C is.

use sja_log::RunLog;
use sja_plan::Plan;
use sja_session::Session;

/// Where a session of C is (this project's own rule).
#[derive(Drop)]
pub enum State {
    /// It goes on.
    Going(Session),
    /// It has ended: the plan that it wrote, and its log.
    Ended(Plan, RunLog),
    /// It has ended, and there was no memory for its log.
    Lost,
}
