//! Values of the wrong kind.

use super::super::document::Document;
use super::super::kind::Kind;
use super::super::outline::Spot;
use super::wording::Wording;
use toml::Value;

/// That a value of a document isn't a list of texts: that of the key of these texts.
pub(crate) fn of_list(document: &Document, kind: Kind, value: &Value) -> Wording<'static> {
    let (number, is) = match value {
        Value::Array(items) => other_item(document, kind, items.as_slice()),
        _ => (0, kind_of(value)),
    };
    let is_step = matches!(kind, Kind::Step(_));
    let (spot, right) = match kind {
        Kind::Step(node) => (
            Spot::NodeKey(node, "steps"),
            "write steps = [\"start\", \"release\"]",
        ),
        Kind::Turn => (Spot::Key("turns"), "write turns = [\"node 0 3\", \"rest\"]"),
        Kind::Strike => (
            Spot::Key("faults"),
            "write faults = [\"1 60\"], a text a strike, in quotes",
        ),
    };
    let wrong = if is.is_empty() {
        ""
    } else {
        template_of(is_step, number == 0)
    };
    let mut said = Wording::at(spot, wrong, right, is);
    said.numbers = [number, 0];
    said
}

/// What is said of a list of texts, of steps or not, where it is no list, or else where one of its items is no text.
fn template_of(is_step: bool, is_other: bool) -> &'static str {
    match (is_step, is_other) {
        (true, true) => "{0}node {5}: {1} is a list of texts, and here it is {2}",
        (true, false) => "{0}node {5}: {1} is a list of texts, and item {3} of it is {2}",
        (false, true) => "{0}{1} is a list of texts, and here it is {2}",
        (false, false) => "{0}{1} is a list of texts, and item {3} of it is {2}",
    }
}

/// The number of the first item that is no text, counted from 1, and of what kind it is; no kind where all are texts.
fn other_item(document: &Document, kind: Kind, items: &[Value]) -> (i64, &'static str) {
    for (place, item) in items.iter().enumerate() {
        if !matches!(item, Value::String(_)) {
            let number = document.number_of(kind, place).saturating_add(1);
            return (i64::try_from(number).unwrap_or(i64::MAX), kind_of(item));
        }
    }
    (0, "")
}

/// What kind a value is of, with its article.
pub(crate) fn kind_of(value: &Value) -> &'static str {
    match value {
        Value::String(_) => "a text in quotes",
        Value::Integer(_) => "a whole number",
        Value::Float(_) => "a number with a point",
        Value::Boolean(_) => "true or false",
        Value::Datetime(_) => "a date or a time",
        Value::Array(_) => "a list",
        Value::Table(_) => "a table",
    }
}
