//! [`FrameFault`]: why five values are no frame.

use thiserror::Error;

/// Why five values are no frame.
///
/// Where several hold the first in this order is answered. The order is this project's own rule.
#[derive(Clone, Copy, Debug, PartialEq, Eq, Error)]
pub enum FrameFault {
    /// The identifier needs more than 11 bits in a standard frame, or more than 29 in an extended one.
    #[error("the identifier has too many bits")]
    IdRange,
    /// The data length code (DLC) is above 15.
    #[error("the data length code is above 15")]
    DlcRange,
    /// There are more or fewer data bytes than the DLC says, or a remote frame has some.
    #[error("the data bytes are not as many as the data length code says")]
    DataLength,
}
