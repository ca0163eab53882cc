//! What each bit of a journal brought: the events of a node, told by the cut of its record.
//!
//! A [`Replay`] goes over the journal of a node with a node of its own, and gives a [`BitEvent`] for each bit: the
//! levels, what the node showed before the bit and after it ([`View`]), what the bit told, and what became of a frame
//! that was received with it ([`Reception`]). `specs/BitEvent.antt` says each of these by the cut of the record, and
//! `Happened.antt` which bit events a journal has. A replay keeps no list, and no call of this crate takes memory.
//! Past a bit that tells nothing it goes in short where that is asked for, as of most bits it can ([`ShortBit`],
//! `specs/Short.antt`), and past bits of a node at rest at once ([`Replay::rest`], `specs/ReplayRest.antt`).
#![tactic(auto)]

mod bit_event;
mod items;
mod laws;
mod misfit;
mod passing;
mod reading;
mod reception;
mod replay;
mod resting;
mod short_bit;
mod verdicts;
mod view;

pub use bit_event::BitEvent;
pub use laws::a_journal_has_one_list_of_bit_events;
pub use reception::Reception;
pub use replay::Replay;
pub use short_bit::ShortBit;
pub use view::View;
