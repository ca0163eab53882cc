//! A driver in either state.

use super::active::Active;
use super::driver::Driver;
use super::reset::Reset;

/// A driver in either state, for a caller that follows a script.
#[derive(Debug, Drop)]
pub enum AnyDriver {
    /// Before an activation, or after one.
    InReset(Driver<Reset>),
    /// In an activation.
    InActive(Driver<Active>),
}
