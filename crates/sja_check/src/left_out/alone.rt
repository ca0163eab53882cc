//! A frame that no node acknowledges.

use super::super::document::Document;
use super::super::outline::Spot;
use super::super::page::{Page, Piece};
use super::story::Story;

/// Says of a node whose frame nobody acknowledged up to the end, why each other one didn't; false where there is none,
/// or where another node could have done so.
pub(crate) fn unacknowledged(page: &mut Page, document: &Document, stories: &[Story]) -> bool {
    for (node, story) in stories.iter().enumerate() {
        if let Some(bit) = story.alone {
            if is_alone(stories, node, bit) {
                return others(page, document, stories, node, bit);
            }
        }
    }
    false
}

/// Whether no node but this one could acknowledge in a bit.
fn is_alone(stories: &[Story], node: usize, bit: u32) -> bool {
    for (other, story) in stories.iter().enumerate() {
        if other != node && story.why_silent(bit).is_empty() {
            return false;
        }
    }
    true
}

/// Says of each node but this one why it doesn't acknowledge in a bit.
fn others(page: &mut Page, document: &Document, stories: &[Story], node: usize, bit: u32) -> bool {
    for (other, story) in stories.iter().enumerate() {
        if other != node {
            let told = [
                document.line(Spot::Node(other)),
                Piece::Number(other as u64),
                Piece::Text(story.why_silent(bit)),
            ];
            page.say("{0}no node acknowledges: node {1} {2}", &told);
        }
    }
    if stories.len() < 2 {
        let line = document.line(Spot::Node(node));
        page.say(
            "{0}no node acknowledges: node {1} is alone",
            &[line, Piece::Number(node as u64)],
        );
    }
    true
}
