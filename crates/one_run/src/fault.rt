//! [`Fault`]: why there is no report.

use can_frame::OutOfMemory;
use sja_log::RunFault;
use sja_placed_strikes::ReadFault;
use std::io;
use thiserror::Error;

/// Why there is no report. It shows as the name of the fault, with its numbers, and what it means.
#[derive(Debug, Drop, Error)]
pub enum Fault {
    /// Standard input can't be read.
    #[error("read fault: {0}")]
    Read(#[from] io::Error),
    /// The input is no plan, or a strike by place has no bit.
    #[error("plan fault {0:?}: {0}")]
    Plan(#[from] ReadFault),
    /// The run has no log.
    #[error("run fault {0:?}: {0}")]
    Run(#[from] RunFault),
    /// There is no memory for the report.
    #[error("no report: {0}")]
    Report(#[from] OutOfMemory),
}
