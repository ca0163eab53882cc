//! How a talk ends.

/// How a talk ended (this project's own rule).
#[derive(Clone, Copy, Debug, PartialEq, Eq)]
pub enum LiveSessionEnd {
    /// With the report of its session, or that a session without an end has none.
    Reported,
    /// With its first line, which opens no session.
    Unopened,
}
