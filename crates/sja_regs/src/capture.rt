//! The capture registers ALC and ECC: free, or taken until they are read.

ghost use Rattle.std.specs.Prelude.{◌≡◌, true};
ghost use Rattle.sja_regs.specs.Captures.{after_capture};

/// A capture register, ALC or ECC (SJA1000 data sheet, 6.4.8 and 6.4.9).
#[derive(Clone, Copy, Debug, PartialEq, Eq)]
pub(crate) struct Capture {
    /// What the register reads as: the last capture.
    pub value: u8,
    /// It was read since, so the next capture is allowed.
    pub was_read: bool,
}

impl Capture {
    /// Nothing was captured.
    pub(crate) fn new() -> Capture
        ensures { result ≡ record { value = 0; was_read = true } }
    {
        Capture {
            value: 0,
            was_read: true,
        }
    }

    /// Captures a value, if there is one and a capture is allowed.
    pub(crate) fn take(&mut self, value: Option<u8>)
        ensures { self.new ≡ after_capture self.old value }
    {
        if let Some(value) = value {
            if self.was_read {
                self.value = value;
                self.was_read = false;
            }
        }
    }
}
