//! The steps of a driver.

use can_frame::Message;

/// What a driver does in one step (this project's own rule). Steps of a node are done in their order.
#[derive(Debug, PartialEq, Eq, Drop)]
pub enum Step {
    /// Starts the controller: it leaves reset mode, and an activation begins.
    Start,
    /// Stops the controller: it goes to reset mode, and the activation ends.
    Stop,
    /// Looks at the first message that was received and isn't released.
    Window,
    /// Releases that message.
    Release,
    /// Reads the register at this address.
    Read(u8),
    /// Writes to the register at this address this value.
    Write(u8, u8),
    /// Loads this message into the transmit buffer.
    Load(Message),
    /// Writes this value to the command register.
    Command(u8),
    /// Waits until this many messages are at the driver's end.
    Await(u8),
    /// Waits until the transmit buffer is released.
    Sent,
    /// Waits until the interrupt line of the controller is active (SJA1000 data sheet, 6.4.6).
    Interrupt,
    /// Waits until so many bits have run: from version 3 on, before that for nothing.
    At(u32),
}

impl Step {
    ghost use Rattle.std.specs.Prelude.{◌≡◌};

    /// An equal step.
    pub fn copy(&self) -> Step
        ensures { result ≡ self.now }
    {
        match self {
            Step::Start => Step::Start,
            Step::Stop => Step::Stop,
            Step::Window => Step::Window,
            Step::Release => Step::Release,
            Step::Read(address) => Step::Read(*address),
            Step::Write(address, value) => Step::Write(*address, *value),
            Step::Load(message) => Step::Load(message.copy()),
            Step::Command(value) => Step::Command(*value),
            Step::Await(count) => Step::Await(*count),
            Step::Sent => Step::Sent,
            Step::Interrupt => Step::Interrupt,
            Step::At(bits) => Step::At(*bits),
        }
    }
}
