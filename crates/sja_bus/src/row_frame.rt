//! [`RowFrame`]: what receivers of one bit read, built once for all of them.

ghost use Rattle.std.specs.Prelude.{◌≡◌};
ghost use Rattle.can_frame.specs.Message.{message as message_of};

use can_bits::KeptFrame;
use can_frame::{Frame, Message};

/// What the first receiver of a bit read: a frame, and its message. Another one that read the same has both at once
/// (this project's own rule).
#[derive(Drop)]
pub(crate) struct RowFrame {
    pub(crate) frame: KeptFrame,
    message: Option<KeptMessage>,
}

/// A frame and its message.
#[derive(Drop)]
struct KeptMessage {
    frame: Frame,
    message: Message,
    ghost right: { message ≡ message_of frame },
}

impl RowFrame {
    ghost use Rattle.std.specs.Prelude.{◌≡◌};
    ghost use Rattle.can_frame.specs.Message.{message as message_of};

    /// Nothing was read in this bit so far.
    pub(crate) fn none() -> RowFrame {
        RowFrame {
            frame: KeptFrame::none(),
            message: None,
        }
    }

    /// The message of a frame: the kept one where it is of just this frame, and else it is built, and kept in its
    /// place.
    #[inline(never)]
    pub(crate) fn message_of(&mut self, frame: &Frame) -> Message
        ensures { result ≡ message_of frame.now }
    {
        if let Some(kept) = &self.message {
            if kept.frame == *frame {
                return kept.message.copy();
            }
        }
        let message = Message::of(frame);
        self.message = Some(KeptMessage {
            frame: frame.copy(),
            message: message.copy(),
        });
        message
    }
}
