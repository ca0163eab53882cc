//! What a bit brings, in words.

use super::row_answers::RowAnswers;
use can_node_rules::{BitEvents, Outcome};

/// Whether a bit brought nothing.
pub fn is_quiet(events: &BitEvents) -> bool {
    events.received.is_none()
        && events.ended.is_none()
        && events.lost.is_none()
        && events.fault.is_none()
        && !events.went_off
        && !events.recovered
}

/// Says what a bit brought, each event behind the bit's number: `received`, `sent` or `failed`, `lost/10` with the
/// place code, `Ack/AckSlot/sending` with the kind of a fault, its segment and the node's part, `off` and `recovered`.
pub fn tell(told: &mut RowAnswers, bit: u32, events: &BitEvents) {
    if !is_quiet(events) {
        tell_frames(told, bit, events);
        tell_faults(told, bit, events);
    }
}

/// Says which frames a bit brought to an end.
fn tell_frames(told: &mut RowAnswers, bit: u32, events: &BitEvents) {
    if events.received.is_some() {
        told.at(bit, "received");
    }
    match events.ended {
        Some(Outcome::Sent) => told.at(bit, "sent"),
        Some(Outcome::Failed) => told.at(bit, "failed"),
        None => {}
    }
    if let Some(code) = events.lost {
        told.at(bit, "lost/");
        told.join_number(u32::from(code));
    }
}

/// Says which faults a bit brought.
fn tell_faults(told: &mut RowAnswers, bit: u32, events: &BitEvents) {
    if let Some((cause, segment)) = events.fault {
        told.at(bit, "");
        told.join_name(cause);
        told.join("/");
        told.join_name(segment);
        told.join(if events.receiving {
            "/receiving"
        } else {
            "/sending"
        });
    }
    if events.went_off {
        told.at(bit, "off");
    }
    if events.recovered {
        told.at(bit, "recovered");
    }
}
