//! Texts that say nothing, with their places.

use super::super::document::Document;
use super::super::kind::Kind;
use super::super::page::{Page, Piece};
use super::judge::{behind, word_at};
use super::leading_names::named_words;
use super::strike::strike_words;

/// Says why the text of this kind and number says nothing. Numbers count from 1.
pub(crate) fn text_words(page: &mut Page, document: &Document, kind: Kind, number: usize) -> bool {
    let place = number.wrapping_sub(1);
    let Some(text) = document.text(kind, place) else {
        return false;
    };
    let template = match kind {
        Kind::Step(_) => "{0}node {3}, step {1}: {2} is no step",
        Kind::Turn => "{0}turn {1}: {2} is no turn",
        Kind::Strike => "{0}strike {1}: {2} is no strike",
    };
    document.say(page, (kind, place), template, [Piece::Number(0); 3])
        && words_of(page, document, kind, text)
}

/// Says why a text says nothing of this kind, and what would; false where it isn't known.
fn words_of(page: &mut Page, document: &Document, kind: Kind, text: &str) -> bool {
    let words: Vec<&str> = match text.split_whitespace().collect(page.alloc) {
        Ok(words) => words,
        Err(_) => return page.refuse(),
    };
    let words = words.as_slice();
    let (version, nodes) = (document.version(), document.nodes().len());
    let is_said = match kind {
        Kind::Strike => strike_words(page, version, nodes, words),
        _ => named_words(page, matches!(kind, Kind::Step(_)), version, nodes, words),
    };
    is_said || spacing_words(page, text, words)
}

/// Says that anything but one space stands between two of the words of a text, or one before or behind them; false
/// where none does.
fn spacing_words<'a>(page: &mut Page, text: &str, words: &'a [&'a str]) -> bool {
    let template = if words.is_empty() || is_spaced(text, words) {
        ""
    } else {
        "words have one space between two, and none before or behind: <{0}{1}>"
    };
    page.say(
        template,
        &[Piece::Text(word_at(words, 0)), behind(words, 0)],
    )
}

/// Whether one space stands between two of the words of a text, and nothing before or behind them.
fn is_spaced<'a>(text: &str, words: &'a [&'a str]) -> bool {
    let mut place = 0usize;
    for word in text.split(' ') {
        if place >= words.len() || words[place] != word {
            return false;
        }
        place = place.saturating_add(1);
    }
    true
}
