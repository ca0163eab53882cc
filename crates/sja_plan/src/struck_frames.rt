//! [`StruckFrames`]: the frames in which a place is struck.

/// The frames in which a place is struck (this project's own rule).
#[derive(Clone, Copy, Debug, PartialEq, Eq)]
pub enum StruckFrames {
    /// The frame of this number, counted from 1, of all that the nodes of the run start: by SOF, and of frames that
    /// start with one bit by node. Each try is one.
    Numbered(u32),
    /// So many of the frames that the node starts that is struck, from its first one on.
    First(u32),
}
