//! [`Due`]: which steps stand at a place of a trace.

/// Which steps stand at a place of a trace: those right before the line of this bit, or late ones, which are all with
/// at least so many bits before them.
#[derive(Clone, Copy, Debug)]
pub(crate) struct Due {
    pub(crate) late: bool,
    pub(crate) bit: u32,
}

impl Due {
    ghost use Rattle.std.specs.Prelude.{◌≡◌};
    ghost use Rattle.text_trace.specs.TraceText.{is_due};

    /// Whether a step with so many bits before it stands there.
    pub(crate) fn has(self, before: u64) -> bool
        ensures { result ≡ is_due self.late self.bit before }
    {
        if self.late {
            (self.bit as u64) <= before
        } else {
            before == (self.bit as u64)
        }
    }
}
