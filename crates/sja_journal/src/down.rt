//! What a link carries down.

ghost use Rattle.std.specs.Prelude.{◌≡◌};

use can_frame::Message;

/// What the bus puts for a driver (this project's own rule).
#[derive(Debug, PartialEq, Eq, Drop)]
pub enum Down {
    /// A frame was received and stored: its message.
    Message(Message),
    /// The node went bus-off.
    Off,
}

impl Down {
    /// An equal item.
    pub fn copy(&self) -> Down
        ensures { result ≡ self.now }
    {
        match self {
            Down::Message(message) => Down::Message(message.copy()),
            Down::Off => Down::Off,
        }
    }
}

impl Default for Down {
    ghost use Rattle.std.specs.Prelude.{◌≡◌, [], ◌∷◌};
    ghost use Rattle.sja_journal.specs.declared.down.Down.TheVariants.{Message};

    ghost is_default = { λ d. d ≡ Message (0 ∷ 0 ∷ 0 ∷ []) };

    /// The default message, for places that are free.
    fn default() -> Down {
        Down::Message(Message::default())
    }
}
