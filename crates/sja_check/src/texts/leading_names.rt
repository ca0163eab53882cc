//! Texts that begin with a name: those of steps and of turns.

use super::super::near::nearest;
use super::super::page::{Page, Piece};
use super::form::form_of;
use super::judge::form_words;
use super::step::{self, STEPS, names_of, steps_are};
use super::turn::{self, TURNS, turns_are};

/// Says why words say no step, or else no turn, of a plan of this version with so many nodes, and what would; false
/// where they say one.
pub(crate) fn named_words<'a>(
    page: &mut Page,
    is_step: bool,
    version: u8,
    nodes: usize,
    words: &'a [&'a str],
) -> bool {
    if let Some(name) = words.first() {
        let forms = if is_step {
            STEPS.as_slice()
        } else {
            TURNS.as_slice()
        };
        if let Some(form) = form_of(forms, version, name, words.len()) {
            return form_words(page, form, nodes, words);
        }
        if name_words(page, is_step, version, name) {
            return true;
        }
    }
    let all = if is_step {
        steps_are(version)
    } else {
        turns_are(version)
    };
    page.say(all, &[])
}

/// Says what is known of a name that begins no step, or else no turn: that, or which name is near to it; false where
/// nothing is.
fn name_words(page: &mut Page, is_step: bool, version: u8, name: &str) -> bool {
    let (known, names, near) = if is_step {
        let near = "no step begins with <{0}>, did you mean \"{1}\"?";
        (step::known_of(version, name), names_of(version), near)
    } else {
        let near = "no turn begins with <{0}>, did you mean \"{1}\"?";
        (turn::known_of(version, name), turn::names_of(version), near)
    };
    if page.say(known, &[Piece::Text(name)]) {
        return true;
    }
    let nearest = nearest(page, name, names);
    !nearest.is_empty() && page.say(near, &[Piece::Text(name), Piece::Text(nearest)])
}
