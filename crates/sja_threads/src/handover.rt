//! [`Handover`]: what a driver hands back when its script has ended.

use super::known_half::KnownHalf;
use sja_driver::LoggedDriver;
use sja_thread_promises::PortAct;

/// What a driver hands back when its script has ended (this project's own rule): its end of the node's links,
/// and the driver with the log of what it did. An open activation stays open.
#[derive(Drop)]
pub struct Handover<D: Drop> {
    /// Its end of the node's links.
    pub end: D,
    /// The driver, in either state, with its log.
    pub driver: LoggedDriver,
    /// The list of what it did at its port.
    pub(crate) done: KnownHalf<PortAct>,
}
