//! [`ActivationLog`]: what became of one activation at the driver's end.

use can_frame::Message;
use std::marker::Model;

/// What became of one activation at the driver's end of its link (this project's own rule). Contracts see it as these
/// two lists.
#[derive(Debug, Drop)]
pub struct ActivationLog {
    released: Vec<Message>,
    unread: Vec<Message>,
}

impl Model for ActivationLog {
    ghost use Rattle.sja_log.specs.Log.{ActivationValue};

    ghost Value = { ActivationValue };

    ghost view = { λ a. record { released = a.released.items; unread = a.unread.items } };
}

impl ActivationLog {
    ghost use Rattle.std.specs.Prelude.{◌≡◌};

    /// The log of an activation: the messages that its driver released, and those that it left unread, which are those
    /// that it held and then those on the link. Beside `node_runs` of `sja_promises` tests alone call it.
    pub fn of(released: Vec<Message>, unread: Vec<Message>) -> ActivationLog
        ensures { result ≡ record { released = released.items; unread = unread.items } }
    {
        ActivationLog { released, unread }
    }

    /// The messages that the driver released, in order.
    pub fn released(&self) -> &[Message]
        ensures { result.now ≡ self.now.released }
    {
        self.released.as_slice()
    }

    /// The messages that it left unread, in order.
    pub fn unread(&self) -> &[Message]
        ensures { result.now ≡ self.now.unread }
    {
        self.unread.as_slice()
    }
}
