//! Laws of messages. Each stands as the contract of a function that does nothing.

ghost use Rattle.std.specs.Prelude.{◌≡◌, ℕ, List};
ghost use Rattle.can_frame.specs.Frame.{FrameValue, IsFrame};
ghost use Rattle.can_frame.specs.Message.{message, IsMessage};

/// Two frames with one message are one frame.
pub fn frames_with_one_message_are_one()
    ensures { (f g : FrameValue) → IsFrame f → IsFrame g → message f ≡ message g → f ≡ g }
{}

/// Every message is that of exactly one frame.
pub fn every_message_has_one_frame()
    ensures { (m : List ℕ) → IsMessage m
        → (f : FrameValue) × IsFrame f × (m ≡ message f) × ((g : FrameValue) → IsFrame g → m ≡ message g → g ≡ f) }
{}
