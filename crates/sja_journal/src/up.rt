//! What a link carries up.

ghost use Rattle.std.specs.Prelude.{◌≡◌};

use can_node_rules::{Config, Request};

/// What a driver gives to the bus (this project's own rule).
#[derive(Debug, PartialEq, Eq, Drop)]
pub enum Up {
    /// The activation begins, with this configuration.
    Start(Config),
    /// So many bytes of the receive buffer were released.
    Credit(u8),
    /// A frame is to be sent.
    Send(Request),
    /// The activation ends.
    Stop,
}

impl Up {
    /// An equal item. Tests alone make one.
    pub fn copy(&self) -> Up
        ensures { result ≡ self.now }
    {
        match self {
            Up::Start(config) => Up::Start(config.copy()),
            Up::Credit(bytes) => Up::Credit(*bytes),
            Up::Send(request) => Up::Send(request.copy()),
            Up::Stop => Up::Stop,
        }
    }
}

impl Default for Up {
    ghost use Rattle.std.specs.Prelude.{◌≡◌};
    ghost use Rattle.sja_journal.specs.declared.up.Up.TheVariants.{Stop};

    ghost is_default = { λ u. u ≡ Stop };

    /// A stop, for places that are free.
    fn default() -> Up {
        Up::Stop
    }
}
