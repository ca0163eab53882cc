//! One event of a link.

use can_frame::Message;
use can_node_rules::{Config, Request};

/// What can happen on one link (this project's own rule).
#[derive(Debug, PartialEq, Eq, Drop)]
pub enum Event {
    /// The driver gives its start.
    Start(Config),
    /// The bus puts a message.
    Put(Message),
    /// The bus puts that the node went bus-off.
    Off,
    /// The driver gets what comes next.
    Get,
    /// The driver gives the credit of the first message that it got and didn't release.
    Release,
    /// The driver gives a request.
    Send(Request),
    /// The transmit buffer is released, so the next request may be given.
    SendDone,
    /// The driver gives its stop.
    Stop,
    /// The bus takes what comes next.
    Take,
}
