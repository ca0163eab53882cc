//! `arbitrate MESSAGE..`: where the messages' frames lose arbitration, if their transmitters start together.

ghost use Rattle.std.specs.Prelude.{◌≡◌, ◌++◌, map, IfOk, IfErr, OnOk};
ghost use Rattle.std.specs.List.{AllZip};
ghost use Rattle.text_codec.specs.Arbitrate.{IsArbitration, RefusesMessages, place_line, places_text};
ghost use Rattle.text_codec.specs.Given.{Gives};

use super::command_refusal::CommandRefusal;
use super::message::frame_of;
use can_frame::Frame;
use can_node::contend;
use std::alloc::{AllocError, Global};

/// A line for each of the messages that are given: the place code where its frame loses, or `-`. The messages
/// are judged from left to right.
pub fn arbitrated(alloc: Global, messages: &[&str]) -> Result<Vec<u8>, CommandRefusal>
    ensures ok { IfOk result (λ text. IsArbitration (map (λ given. given.now) messages.now) text.items) }
    ensures err { IfErr result (RefusesMessages (map (λ given. given.now) messages.now)) }
{
    let frames = frames_of(alloc, messages)?;
    let places = contend(alloc, frames.as_slice())?;
    Ok(text_of(alloc, places.as_slice())?)
}

/// The frames that these texts give.
fn frames_of(alloc: Global, messages: &[&str]) -> Result<Vec<Frame>, CommandRefusal>
    ensures ok { IfOk result (λ frames. AllZip Gives (map (λ given. given.now) messages.now) frames.items) }
    ensures err { IfErr result (RefusesMessages (map (λ given. given.now) messages.now)) }
{
    let mut frames = Vec::with_capacity(alloc, messages.len())?;
    for given in messages {
        match frame_of(alloc, given) {
            Ok(frame) => frames.push_reserved(frame),
            Err(refusal) => return Err(refusal),
        }
    }
    Ok(frames)
}

/// A line a place.
fn text_of(alloc: Global, places: &[Option<u8>]) -> Result<Vec<u8>, AllocError>
    ensures { IfOk result (λ text. text.items ≡ places_text places.now) }
{
    let mut text = Vec::new(alloc);
    for place in places {
        push_line(alloc, &mut text, *place)?;
    }
    Ok(text)
}

/// The line of a place.
fn push_line(alloc: Global, text: &mut Vec<u8>, place: Option<u8>) -> Result<(), AllocError>
    ensures { OnOk result (text.new.items ≡ text.old.items ++ place_line place) }
{
    match place {
        Some(place) => {
            let line = format!(in alloc; "{place}\n")?;
            text.extend_from_slice(line.as_bytes())
        }
        None => text.extend_from_slice(b"-\n"),
    }
}
