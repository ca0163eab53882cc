//! [`FurtherTask`]: what is left to another call.

use super::thread_task::ThreadTask;
use sja_command_line::{ExpectedWords, FileWords};

/// What words ask for that one thread doesn't do, or not at once (this project's own rule).
#[derive(Debug, Drop)]
pub enum FurtherTask<'a> {
    /// What is done in threads.
    Threads(ThreadTask),
    /// `run FILE..`, `check FILE..` and their like: what is done file by file.
    Files(FileWords<'a>),
    /// `run --expect`: whether a plan has the report that is known.
    Expected(ExpectedWords<'a>),
    /// `live`: a session that is driven line by line.
    LiveSession,
}
