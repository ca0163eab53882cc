//! [`NotationFault`]: why a text says no frame.

use thiserror::Error;

/// Why a text says no frame.
///
/// Where several hold the first in this order is answered. The notation is that of can-utils; the order, and that
/// nothing but a frame's own text is read, are this project's own rules.
#[derive(Clone, Copy, Debug, PartialEq, Eq, Error)]
pub enum NotationFault {
    /// There is no `#`.
    #[error("there is no # in the text")]
    NoHash,
    /// What stands before the first `#` isn't 3 digits of a standard identifier or 8 of an extended one.
    #[error("what stands before the # is no identifier")]
    Identifier,
    /// What stands behind the first `#` isn't what a frame's text has there.
    #[error("what stands behind the # is neither data bytes nor a remote frame")]
    Data,
}
