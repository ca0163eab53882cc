//! [`Document`]: a plan's document as `toml` reads it, with its outline.

use super::kind::Kind;
use super::outline::{Abridged, Front, Gap, Outline, Spot, Token};
use super::page::{Page, Piece};
use std::alloc::{AllocError, Global};
use toml::{Value, table_from_str};

/// A plan's document: its values, and in which lines they stand. Bytes that are no document have neither.
#[derive(Drop)]
pub(crate) struct Document {
    /// The table of its keys; `false` where the bytes are no document.
    pub(crate) root: Value,
    outline: Outline,
    /// Whether it is the front of a longer one, whose other keys may stand behind it.
    pub(crate) is_front: bool,
}

impl Document {
    /// The document that these bytes are.
    ///
    /// Error: memory was refused.
    pub(crate) fn read(alloc: Global, bytes: &[u8]) -> Result<Document, AllocError> {
        Document::with_gaps(alloc, bytes, Vec::new(alloc))
    }

    /// A long document, abridged; where more than so many bytes are left, the front of these.
    ///
    /// Error: memory was refused.
    pub(crate) fn of_long(
        alloc: Global,
        bytes: &[u8],
        most: usize,
    ) -> Result<Document, AllocError> {
        let (kept, gaps) = Abridged::of(alloc, bytes, most)?.into_parts();
        if kept.len() <= most {
            return Document::with_gaps(alloc, &kept, gaps);
        }
        let (end, closing) = Front::of(&kept, most).end();
        let mut front = Vec::new(alloc);
        front.extend_from_slice(kept.get(..end).unwrap_or(&[]))?;
        front.extend_from_slice(closing)?;
        let mut document = Document::with_gaps(alloc, &front, gaps)?;
        document.is_front = true;
        Ok(document)
    }

    /// The document that these bytes are, of which so much was left out.
    ///
    /// Error: memory was refused.
    fn with_gaps(alloc: Global, bytes: &[u8], gaps: Vec<Gap>) -> Result<Document, AllocError> {
        let root = root_of(alloc, bytes)?;
        let mut outline = Outline::new(alloc);
        if matches!(root, Value::Table(_)) && outline.read(bytes, gaps).is_err() {
            return Err(AllocError);
        }
        Ok(Document {
            root,
            outline,
            is_front: false,
        })
    }

    /// A document of which this key alone is looked at.
    ///
    /// Error: memory was refused.
    pub(crate) fn of_key(alloc: Global, bytes: &[u8], key: Token) -> Result<Document, AllocError> {
        Ok(Document {
            root: Value::Boolean(false),
            outline: Outline::of_key(alloc, bytes, key)?,
            is_front: false,
        })
    }

    /// Its first key as it is written, where it is none of a node.
    pub(crate) fn first_key(&self) -> Option<&str> {
        self.outline.key_at(0)
    }

    /// Whether it has a header of a node.
    pub(crate) fn has_header(&self) -> bool {
        self.outline.has_header()
    }

    /// The line of this, as a piece of what is said.
    pub(crate) fn line(&self, spot: Spot) -> Piece<'static> {
        Piece::Line(self.outline.line_of(spot))
    }

    /// The number, in the document as it was written, of the text of this kind at this place, both counted from 0.
    pub(crate) fn number_of(&self, kind: Kind, place: usize) -> usize {
        place.saturating_add(self.outline.texts_left_out(kind, place))
    }

    /// The first key of the document that isn't among these, of those that are written as they are.
    pub(crate) fn first_written(&self, known: &[&str]) -> Option<&str> {
        for place in 0..self.outline.keys() {
            if let Some(key) = self.outline.key_at(place) {
                if !(&*known).contains(&key) && self.value(key).is_some() {
                    return Some(key);
                }
            }
        }
        None
    }

    /// The value at a key.
    pub(crate) fn value(&self, key: &str) -> Option<&Value> {
        member_of(&self.root, key)
    }

    /// The whole number at a key.
    pub(crate) fn number(&self, key: &str) -> Option<i64> {
        match self.value(key) {
            Some(Value::Integer(number)) => Some(*number),
            _ => None,
        }
    }

    /// The version whose limits it keeps: the one that it says, or 1 where that is none.
    pub(crate) fn version(&self) -> u8 {
        match self.number("version") {
            Some(2) => 2,
            Some(3) => 3,
            _ => 1,
        }
    }

    /// The nodes, or what stands in their place; none where there is no list of them.
    pub(crate) fn nodes(&self) -> &[Value] {
        items_in(self.value("node"))
    }

    /// The values that are to be texts of this kind; none where there is no list of them.
    pub(crate) fn values(&self, kind: Kind) -> &[Value] {
        let owner = match kind {
            Kind::Step(node) => self.nodes().get(node),
            _ => Some(&self.root),
        };
        match owner {
            Some(owner) => match member_of(owner, kind.key()) {
                Some(list) => items_in(Some(list)),
                None => items_in(member_of(owner, kind.other_key())),
            },
            None => &[],
        }
    }

    /// The text of this kind at this place, counted from 0, where there is one.
    pub(crate) fn text(&self, kind: Kind, place: usize) -> Option<&str> {
        match self.values(kind).get(place) {
            Some(Value::String(text)) => Some(text.as_str()),
            _ => None,
        }
    }

    /// Says something of the text of this kind at this place; nothing where the template is empty. What isn't written
    /// out any more isn't looked for. `{0}` is its line,
    /// `{1}` its number, `{2}` the text, `{3}` its node, and `{4}` to `{6}` are what else is told.
    pub(crate) fn say(
        &self,
        page: &mut Page,
        text: (Kind, usize),
        template: &str,
        told: [Piece<'static>; 3],
    ) -> bool {
        if template.is_empty() || page.is_full() {
            return page.say(template, &[]);
        }
        let (kind, place) = text;
        let node = match kind {
            Kind::Step(node) => node,
            _ => 0,
        };
        let [first, second, third] = told;
        page.say(
            template,
            &[
                self.line(Spot::Text(kind, place)),
                Piece::Number((place as u64).saturating_add(1)),
                Piece::Shown(self.text(kind, place)),
                Piece::Number(node as u64),
                first,
                second,
                third,
            ],
        )
    }
}

/// The table that these bytes are, where they are a document.
///
/// Error: memory was refused.
fn root_of(alloc: Global, bytes: &[u8]) -> Result<Value, AllocError> {
    let Ok(text) = str::from_utf8(bytes) else {
        return Ok(Value::Boolean(false));
    };
    match table_from_str(alloc, text) {
        Ok(table) => Ok(Value::Table(table)),
        Err(error) if error.is_memory() => Err(AllocError),
        Err(_) => Ok(Value::Boolean(false)),
    }
}

/// The items of a value that is a list; else none.
fn items_in(value: Option<&Value>) -> &[Value] {
    match value {
        Some(Value::Array(items)) => items.as_slice(),
        _ => &[],
    }
}

/// The value at a key of a value that is a table.
pub(crate) fn member_of<'a>(value: &'a Value, key: &str) -> Option<&'a Value> {
    match value {
        Value::Table(table) => table.get(key),
        _ => None,
    }
}
