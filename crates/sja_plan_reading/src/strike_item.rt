//! [`StrikeItem`]: what the text of a strike says.

use sja_plan::{Place, StruckFrames};
use sja_steps::Strike;

/// What the text of a strike says, where it may name a place.
#[derive(Clone, Copy)]
pub(crate) enum StrikeItem {
    /// A strike by bits.
    AtBits(Strike),
    /// A strike of this node, counted from 0, at a place of these frames.
    AtPlace(u8, StruckFrames, Place),
}
