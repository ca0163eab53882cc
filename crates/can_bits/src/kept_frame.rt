//! [`KeptFrame`]: a frame that one reader read, for all readers of the same levels.

ghost use Rattle.std.specs.Prelude.{◌≡◌, List};
ghost use Rattle.can_frame.specs.Frame.{FrameValue};
ghost use Rattle.can_levels.specs.declared.level.Level.{Level as Bus};
ghost use Rattle.can_levels.specs.Spelling.{Spells};
ghost use Rattle.can_bits.specs.Inside.Gathering.{Gathers};

use super::body_word::BodyWord;
use can_frame::Frame;

/// Room for a frame that a reader has read: another reader of the same levels is given it at once (this project's own
/// rule).
#[derive(Debug, Drop)]
pub struct KeptFrame {
    kept: Option<ReadFrame>,
}

/// A frame, and the levels of which it was read.
#[derive(Debug, Drop)]
struct ReadFrame {
    gathered: BodyWord,
    frame: Frame,
    ghost right: { (f : FrameValue) (w b c : List Bus) → Gathers gathered w → Spells f b c w → frame ≡ f },
}

impl KeptFrame {
    /// Room for a frame, in which none is kept yet.
    pub fn none() -> KeptFrame {
        KeptFrame { kept: None }
    }
}

impl BodyWord {
    ghost use Rattle.std.specs.Prelude.{◌≡◌, List, Some};
    ghost use Rattle.can_frame.specs.Frame.{FrameValue};
    ghost use Rattle.can_levels.specs.declared.level.Level.{Level as Bus};
    ghost use Rattle.can_levels.specs.Spelling.{Spells};
    ghost use Rattle.can_bits.specs.Inside.Gathering.{Gathers};

    /// The frame, once all levels have come, which may be kept where there is room for it.
    #[inline(always)]
    pub(crate) fn frame_in(&self, room: Option<&mut KeptFrame>) -> Option<Frame>
        ensures { (f : FrameValue) (w b c : List Bus) → Gathers self.now w → Spells f b c w → result ≡ Some f }
    {
        match room {
            Some(kept) => self.frame_or_kept(kept),
            None => self.frame(),
        }
    }

    /// The frame, once all levels have come: the kept one where it is of just these levels, and else one that is built,
    /// and kept in its place.
    #[inline(never)]
    fn frame_or_kept(&self, kept: &mut KeptFrame) -> Option<Frame>
        ensures { (f : FrameValue) (w b c : List Bus) → Gathers self.now w → Spells f b c w → result ≡ Some f }
    {
        if let Some(before) = &kept.kept {
            if before.gathered.is_same(self) {
                return Some(before.frame.copy());
            }
        }
        let frame = self.frame()?;
        kept.kept = Some(ReadFrame {
            gathered: *self,
            frame: frame.copy(),
        });
        Some(frame)
    }
}
