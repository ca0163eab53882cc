//! Laws of texts. Each stands as the contract of a function that does nothing.

ghost use Rattle.std.specs.Prelude.{◌≡◌, ◌≢◌, ℕ, List};
ghost use Rattle.can_frame.specs.Frame.{FrameValue, IsFrame};
ghost use Rattle.can_notation.specs.Digits.{capitals};
ghost use Rattle.can_notation.specs.Text.{text, Says};

/// Every frame's text says it.
pub fn every_frame_has_a_text()
    ensures { (f : FrameValue) → IsFrame f → Says (text f) f }
{}

/// A text says at most one frame, so the texts of different frames differ.
pub fn a_text_says_one_frame()
    ensures { (said : List ℕ) (f g : FrameValue) → IsFrame f → IsFrame g → Says said f → Says said g → f ≡ g }
{}
