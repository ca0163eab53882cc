//! [`Rest`]: what a text says behind its `#`.

ghost use Rattle.std.specs.Prelude.{◌≡◌, ◌≢◌, ◌↔◌, ℕ, List, Bool, IsTrue, IfSome, IfNone};
ghost use Rattle.can_notation.specs.Digits.{capitals};
ghost use Rattle.can_notation.specs.Text.{rest_text};
ghost use Rattle.can_notation.specs.Rest.{IsRest, BeginsRemote};

use super::body::data;
use super::remote::remote_dlc;
use arrayvec::ArrayVec;
use can_frame::DATA_BYTES;

/// Kind, DLC and data bytes of a frame, which its text has behind the `#`.
#[derive(Drop)]
pub(crate) struct Rest {
    /// The frame is a remote frame.
    pub(crate) rtr: bool,
    /// The data length code.
    pub(crate) dlc: u8,
    /// The data bytes.
    pub(crate) bytes: ArrayVec<u8, DATA_BYTES>,
}

/// What stands behind the `#`, where it is that of some frame.
pub(crate) fn rest_of(behind: &[u8]) -> Option<Rest>
    ensures some { IfSome result (λ rest. IsRest rest.rtr rest.dlc rest.bytes.items
        × (capitals behind.now ≡ rest_text rest.rtr rest.dlc rest.bytes.items)) }
    ensures none { IfNone result ((rtr : Bool) (dlc : ℕ) (bytes : List ℕ) → IsRest rtr dlc bytes
        → capitals behind.now ≢ rest_text rtr dlc bytes) }
{
    if is_remote(behind) {
        let dlc = remote_dlc(&behind[1..])?;
        return Some(Rest {
            rtr: true,
            dlc,
            bytes: ArrayVec::new(),
        });
    }
    let (dlc, bytes) = data(behind)?;
    Some(Rest {
        rtr: false,
        dlc,
        bytes,
    })
}

/// Whether an `R` is in front, in either case.
fn is_remote(behind: &[u8]) -> bool
    ensures { IsTrue result ↔ BeginsRemote behind.now }
{
    !behind.is_empty() && (behind[0] == b'R' || behind[0] == b'r')
}
