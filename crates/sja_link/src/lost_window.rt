//! A window that is gone.

/// The node went bus-off, and the window is gone.
#[derive(Clone, Copy, Debug, PartialEq, Eq)]
pub struct LostWindow;
