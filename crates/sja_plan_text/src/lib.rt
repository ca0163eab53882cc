//! Plans written as the documents that are read as them.
//!
//! [`plan_text`] writes a plan as a TOML document that [`read_plan`](sja_plan_reading::read_plan) reads as this plan;
//! [`step_text`](sja_steps::step_text), [`named_text`], [`turn_text`] and [`strike_text`] write what stands in it.
//! [`has_texts`] tells whether a plan has a document at all: a [`Plan`](sja_plan::Plan) can hold numbers that no text
//! spells. The laws say which those are.
#![tactic(auto)]

mod document;
mod laws;
mod names;
mod plan_text_fault;
mod table;
mod text_form;
mod texts;
mod writable;

pub use document::plan_text;
pub use laws::{
    a_named_step_has_a_text, a_plan_has_one_text, a_plan_has_texts, a_plan_is_a_short_document,
    a_plan_text_ends_in_a_line_feed, a_plan_with_a_text_is_not_too_long, a_step_has_a_text,
    a_strike_has_a_text, a_turn_has_a_text, one_text_is_written, said_steps_have_texts,
    said_strikes_have_texts, said_turns_have_texts,
};
pub use plan_text_fault::PlanTextFault;
pub use texts::{named_text, strike_text, turn_text};
pub use writable::{has_step_text, has_strike_text, has_texts, has_turn_text};
