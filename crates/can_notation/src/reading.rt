//! The frame that a text says.

ghost use Rattle.std.specs.Prelude.{◌≡◌, ◌≢◌, ◌==◌, ◌<◌, ◌↔◌, ℕ, Bool, IfOk, IsOk, IfSome, IfNone};
ghost use Rattle.std.specs.List.{position};
ghost use Rattle.can_frame.specs.Frame.{id_limit, IsFrame};
ghost use Rattle.can_notation.specs.Digits.{capitals};
ghost use Rattle.can_notation.specs.Text.{hash, identifier_text, Says};
ghost use Rattle.can_notation.specs.Faults.{HasHash, HasIdentifier, HasRest, SaysFrame};
ghost use Rattle.can_notation.specs.Faults.{before_hash, behind_hash};

use super::digits::number_of;
use super::notation_fault::NotationFault;
use super::rest::rest_of;
use can_frame::Frame;

/// The frame that a text says (can-utils, the notation of `cansend` and `candump -L`). A text says a frame where,
/// with its letters a to f and r turned to capitals, it is exactly the text of that frame: no dots between bytes, and
/// no spaces (this project's own rule).
///
/// Errors, the first that holds: [`NotationFault::NoHash`] where there is no `#`; [`NotationFault::Identifier`] where
/// what stands before the first `#` is the identifier of no frame; [`NotationFault::Data`] where what stands behind it
/// is the rest of no frame's text. Their order is this project's own rule.
pub fn read_text(text: &[u8]) -> Result<Frame, NotationFault>
    ensures ok { IfOk result (λ f. IsFrame f × Says text.now f) }
    ensures said { IsOk result ↔ SaysFrame text.now }
    ensures no_hash { (result ≡ Err NotationFault.NoHash) ↔ ¬ HasHash text.now }
    ensures identifier { (result ≡ Err NotationFault.Identifier) ↔ (HasHash text.now × ¬ HasIdentifier text.now) }
    ensures rest { (result ≡ Err NotationFault.Data)
        ↔ (HasHash text.now × HasIdentifier text.now × ¬ HasRest text.now) }
{
    let Some((before, behind)) = halves(text) else {
        return Err(NotationFault::NoHash);
    };
    let Some((ext, id)) = identifier(before) else {
        return Err(NotationFault::Identifier);
    };
    let Some(rest) = rest_of(behind) else {
        return Err(NotationFault::Data);
    };
    match Frame::new(ext, id, rest.rtr, rest.dlc, rest.bytes.as_slice()) {
        Ok(frame) => Ok(frame),
        Err(_) => unreachable!(),
    }
}

/// What stands before the first `#`, and what stands behind it.
fn halves(text: &[u8]) -> Option<(&[u8], &[u8])>
    ensures some { IfSome result (λ h. HasHash text.now × (h.0.now ≡ before_hash text.now)
        × (h.1.now ≡ behind_hash text.now)) }
    ensures none { IfNone result (¬ HasHash text.now) }
{
    let place = hash_place(text)?;
    Some((&text[..place], &text[place + 1..]))
}

/// The place of the first `#`.
fn hash_place(text: &[u8]) -> Option<usize>
    ensures { result ≡ position (λ c. c == hash) text.now }
{
    text.iter().position(|c| *c == b'#')
}

/// Format and identifier, from what stands before the `#`.
fn identifier(digits: &[u8]) -> Option<(bool, u32)>
    ensures some { IfSome result (λ i. (i.1 < id_limit i.0) × (capitals digits.now ≡ identifier_text i.0 i.1)) }
    ensures none { IfNone result ((ext : Bool) (id : ℕ) → id < id_limit ext
        → capitals digits.now ≢ identifier_text ext id) }
{
    let (ext, limit) = match digits.len() {
        3 => (false, 1 << 11),
        8 => (true, 1 << 29),
        _ => return None,
    };
    let id = number_of(digits)?;
    if id < limit { Some((ext, id)) } else { None }
}
