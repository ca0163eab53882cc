//! [`LayoutFault`]: why a list of bytes is no message.

use thiserror::Error;

/// Why a list of bytes is no message.
///
/// Where several hold the first in this order is answered. The layout is that of the SJA1000 data sheet, 6.4.13 and
/// 6.4.14; the order, and that unused bits are 0, are this project's own rules.
#[derive(Clone, Copy, Debug, PartialEq, Eq, Error)]
pub enum LayoutFault {
    /// There are fewer bytes than the first one says, or none.
    #[error("there are fewer bytes than the first one says")]
    Short,
    /// There are more bytes than the first one says.
    #[error("there are more bytes than the first one says")]
    Long,
    /// A bit is 1 that the layout doesn't use.
    #[error("an unused bit is 1")]
    UnusedBit,
    /// The RTR bit at the end of the identifier isn't the one of the first byte.
    #[error("the two remote bits differ")]
    RtrDisagrees,
}
