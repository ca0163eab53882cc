//! Where in a document something stands: the pieces of its keys, nodes and texts.

use super::super::kind::Kind;
use super::entry::Entry;
use super::outline_of::Outline;
use super::pieces::depth_behind;
use super::spot::Spot;

impl Outline {
    /// At which piece this stands.
    pub(super) fn place_of(&self, spot: Spot) -> Option<usize> {
        match spot {
            Spot::Key(key) => self.key(None, key),
            Spot::Node(node) => self.node(node),
            Spot::NodeKey(node, key) => self.key(Some(node), key).or(self.node(node)),
            Spot::Text(kind, number) => self.item(self.list(kind), number, None),
        }
    }

    /// At which piece the list of texts of this kind begins.
    pub(super) fn list(&self, kind: Kind) -> Option<usize> {
        match kind {
            Kind::Step(node) => self.steps(node),
            _ => self
                .value(None, kind.key())
                .or(self.value(None, kind.other_key())),
        }
    }

    /// The byte at which the piece begins that is at this place.
    pub(super) fn start_of(&self, place: Option<usize>) -> Option<usize> {
        Some(self.tokens.as_slice().get(place?)?.start())
    }

    /// At which piece a node stands.
    fn node(&self, node: usize) -> Option<usize> {
        match self.headers.as_slice().get(node) {
            Some(name) => Some(*name),
            None => self.item(self.value(None, "node"), node, None),
        }
    }

    /// At which piece the steps of a node begin.
    fn steps(&self, node: usize) -> Option<usize> {
        if self.key(Some(node), "steps").is_some() {
            return self.value(Some(node), "steps");
        }
        let table = self.item(self.value(None, "node"), node, None);
        self.value_behind(self.item(table, 0, Some("steps"))?)
    }

    /// At which piece a key of a node, or of none, stands.
    fn key(&self, node: Option<usize>, key: &str) -> Option<usize> {
        match self.entry(node, key) {
            Some(entry) => Some(entry.key),
            None => None,
        }
    }

    /// At which piece its value begins.
    fn value(&self, node: Option<usize>, key: &str) -> Option<usize> {
        match self.entry(node, key) {
            Some(entry) => entry.value,
            None => None,
        }
    }

    /// The first key of this name of a node, or of none.
    fn entry(&self, node: Option<usize>, key: &str) -> Option<Entry> {
        for entry in self.entries.as_slice() {
            if entry.node == node && self.says(entry.key, key) {
                return Some(*entry);
            }
        }
        None
    }

    /// At which piece the item of this number, counted from 0, begins in the list or the inline table that begins at
    /// `open`; of those with this key, where one is given.
    pub(super) fn item(
        &self,
        open: Option<usize>,
        number: usize,
        key: Option<&str>,
    ) -> Option<usize> {
        let open = open?;
        let mut depth = 0usize;
        let mut left = number;
        let mut awaited = false;
        for place in open..self.tokens.len() {
            let first = self.first_at(place);
            if awaited && first != b'\n' && first != b']' {
                let is_sought = match key {
                    Some(key) => self.says(place, key),
                    None => true,
                };
                if is_sought {
                    if left == 0 {
                        return Some(place);
                    }
                    left -= 1;
                }
                awaited = false;
            }
            depth = depth_behind(depth, first);
            if depth == 0 {
                return None;
            }
            awaited = awaited || (depth == 1 && (first == b',' || place == open));
        }
        None
    }

    /// At which piece the value begins of the key at this one.
    pub(super) fn value_behind(&self, place: usize) -> Option<usize> {
        if self.first_at(place.saturating_add(1)) == b'=' {
            Some(place.saturating_add(2))
        } else {
            None
        }
    }

    /// The first byte of the piece at this place; a line feed where there is none.
    pub(super) fn first_at(&self, place: usize) -> u8 {
        match self.tokens.as_slice().get(place) {
            Some(token) => token.first,
            None => b'\n',
        }
    }

    /// Whether the piece at this place is this key.
    pub(super) fn says(&self, place: usize, key: &str) -> bool {
        match self.tokens.as_slice().get(place) {
            Some(token) => token.says(self.bytes.as_slice(), key),
            None => false,
        }
    }
}
