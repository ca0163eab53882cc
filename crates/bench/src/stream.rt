//! The figure `stream`: a sender and a receiver.

use super::sending::told_of;
use std::alloc::Global;

/// Lets the bits of so many frames pass; the first node is asked for the frame again after each.
pub fn run(alloc: Global, count: u32) -> Option<String> {
    told_of(alloc, 2, false, count)
}
