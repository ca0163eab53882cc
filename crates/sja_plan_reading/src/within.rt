//! Within what a text of a plan is read.

/// Within what a text of a plan is read (this project's own rule): by which version of the rules, among how many nodes,
/// and whether a strike may name a place.
#[derive(Clone, Copy)]
pub(crate) struct Within {
    pub(crate) version: usize,
    pub(crate) nodes: usize,
    pub(crate) places: bool,
}
