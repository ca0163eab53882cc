//! [`Wording`]: what is said of a mistake.

use super::super::document::Document;
use super::super::near::nearest;
use super::super::outline::Spot;
use super::super::page::{Page, Piece};

/// What is said of a mistake in a document: two templates, and what fills their gaps.
#[derive(Clone, Copy)]
pub(crate) struct Wording<'a> {
    /// What is wrong, and what would be right; both are empty where nothing is said.
    pub(crate) told: [&'static str; 2],
    /// What is said in their place where one of `names` is near to the key.
    pub(crate) near: [&'static str; 2],
    pub(crate) names: &'static [&'static str],
    /// Where it is.
    pub(crate) spot: Spot<'a>,
    /// Of what kind a value is.
    pub(crate) kind: &'static str,
    /// A number, and the greatest that there may be.
    pub(crate) numbers: [i64; 2],
}

impl<'a> Wording<'a> {
    /// These templates, of something there and of this kind.
    pub(crate) fn at(
        spot: Spot<'a>,
        wrong: &'static str,
        right: &'static str,
        kind: &'static str,
    ) -> Wording<'a> {
        Wording {
            told: [wrong, right],
            near: ["", ""],
            names: &[],
            spot,
            kind,
            numbers: [0, 0],
        }
    }

    /// Nothing.
    pub(crate) fn nothing() -> Wording<'a> {
        Wording::at(Spot::Node(0), "", "", "")
    }

    /// Whether it is nothing.
    pub(crate) fn is_nothing(&self) -> bool {
        self.told[0].is_empty()
    }

    /// Says it; false where it is nothing. `{0}` is its line, `{1}` the key, `{2}` the kind, `{3}` and `{4}` are the
    /// numbers, `{5}` is the node, and `{6}` the name that is near to the key.
    pub(crate) fn tell(&self, page: &mut Page, document: &Document) -> bool {
        if self.is_nothing() {
            return false;
        }
        let (key, node) = match self.spot {
            Spot::Key(key) => (key, 0),
            Spot::NodeKey(node, key) => (key, node),
            Spot::Node(node) | Spot::Text(_, node) => ("", node),
        };
        let near = nearest(page, key, self.names);
        let [wrong, right] = if near.is_empty() {
            self.told
        } else {
            self.near
        };
        let [number, most] = self.numbers;
        let pieces = [
            document.line(self.spot),
            Piece::Text(key),
            Piece::Text(self.kind),
            Piece::Whole(number),
            Piece::Whole(most),
            Piece::Number(node as u64),
            Piece::Text(near),
        ];
        page.say(wrong, &pieces);
        page.say(right, &pieces);
        true
    }
}
