//! [`Story`]: what a node's journal says of its driver.

use super::given_item::{GivenItem, TimedGivenItem, given_items_in};
use super::requests::unacknowledged_in;
use sja_log::RunLog;
use std::alloc::{AllocError, Global};

/// What a node's journal says of its driver.
#[derive(Drop)]
pub(crate) struct Story {
    /// What the driver gave the bus, in order.
    pub(crate) given_items: Vec<TimedGivenItem>,
    /// The last bit in which nobody acknowledged the frame of the request that is held at the end, where it was so.
    pub(crate) alone: Option<u32>,
}

/// The stories of the nodes of a run.
///
/// Error: [`AllocError`] where memory was refused.
pub(crate) fn stories_of(alloc: Global, log: &RunLog) -> Result<Vec<Story>, AllocError> {
    let mut stories = Vec::new(alloc);
    for run in log.nodes() {
        let given_items = given_items_in(alloc, run.journal())?;
        let alone = unacknowledged_in(run.journal(), log.bits());
        stories.push(Story { given_items, alone })?;
    }
    Ok(stories)
}

impl Story {
    /// Why the node acknowledges nothing in this bit, by its last gift before it; nothing where it could.
    pub(crate) fn why_silent(&self, bit: u32) -> &'static str {
        let mut why = "never starts";
        for given in &self.given_items {
            if given.bits > bit {
                return why;
            }
            why = match given.given_item {
                GivenItem::Start(true) => "listens only",
                GivenItem::Start(false) => "",
                GivenItem::Stop => "is stopped",
                GivenItem::Off => "is bus-off",
            };
        }
        why
    }
}
