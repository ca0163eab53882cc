//! What a controller starts with.

ghost use Rattle.std.specs.Prelude.{◌≡◌};

use can_frame::Filter;

/// How a controller starts (SJA1000 data sheet, 6.4.3, mode register).
#[derive(Clone, Copy, Debug, PartialEq, Eq)]
pub struct Config {
    /// The acceptance filter.
    pub filter: Filter,
    /// Self test mode: an own frame needs no acknowledgement.
    pub self_test: bool,
    /// Listen only mode: the node drives nothing, and its error counters stand still.
    pub listen: bool,
    /// The transmit error counter that was written in reset mode, if one was: 255 is a bus-off, and any other value
    /// ends one (SJA1000 data sheet, 6.4.12).
    pub tec: Option<u8>,
    /// The receive error counter that was written in reset mode, if one was (SJA1000 data sheet, 6.4.11).
    pub rec: Option<u8>,
}

impl Config {
    /// An equal configuration.
    pub fn copy(&self) -> Config
        ensures { result ≡ self.now }
    {
        *self
    }
}
