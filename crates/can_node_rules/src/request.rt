//! A frame to be sent, and how often it is tried.

ghost use Rattle.std.specs.Prelude.{◌≡◌};

use can_frame::Frame;

/// A frame to be sent (SJA1000 data sheet, 6.4.4, command register).
#[derive(Debug, PartialEq, Eq, Drop)]
pub struct Request {
    /// The frame.
    pub frame: Frame,
    /// It is tried once.
    pub single_shot: bool,
    /// The node receives it too (self reception).
    pub self_receive: bool,
}

impl Request {
    /// An equal request.
    pub fn copy(&self) -> Request
        ensures { result ≡ self.now }
    {
        Request {
            frame: self.frame.copy(),
            single_shot: self.single_shot,
            self_receive: self.self_receive,
        }
    }
}
