//! Keys that are unknown or missing, or have values of the wrong kind.

use super::super::document::{Document, member_of};
use super::super::kind::Kind;
use super::super::outline::Spot;
use super::general::KEYS_ARE;
use super::node_keys::of_nodes;
use super::values::{kind_of, of_list};
use super::wording::Wording;
use sja_plan::FIRST_BY_BYTES;
use toml::Value;

/// All keys of a plan.
pub(crate) static KEYS: [&str; 5] = ["version", "bits", "node", "turns", "faults"];

/// All keys of a plan of version 3.
static BY_BYTES_KEYS: [&str; 6] = ["version", "bits", "node", "turns", "strikes", "faults"];

/// What faults are called otherwise.
static FAULTS: [&str; 3] = ["strikes", "strike", "errors"];

/// Which key is wrong, and what would be right. The keys are judged in the order in which `sja_plan` judges them.
pub(crate) fn of_keys<'a>(document: &'a Document) -> Wording<'a> {
    let mut said = of_unknown(document);
    if said.is_nothing() {
        said = of_number(document, "version", "write version = 1");
    }
    if said.is_nothing() {
        let right = "write bits = 2000, how many bits the run has at most";
        said = of_number(document, "bits", right);
    }
    if said.is_nothing() {
        said = of_nodes(document);
    }
    if said.is_nothing() {
        said = of_texts(document, Kind::Turn);
    }
    if said.is_nothing() {
        said = of_strikes(document);
    }
    said
}

/// The same of a document that may be the front of a longer one: nothing of a key that may stand behind it.
pub(crate) fn of_long<'a>(document: &'a Document) -> Wording<'a> {
    let said = of_keys(document);
    match said.spot {
        Spot::Key(key)
            if document.is_front && document.value(key).is_none() && !document.has_header() => {
            Wording::nothing()
        }
        _ => said,
    }
}

/// The keys that a plan of this version has.
pub(crate) fn keys_of(version: u8) -> &'static [&'static str] {
    if version < FIRST_BY_BYTES {
        &KEYS
    } else {
        &BY_BYTES_KEYS
    }
}

/// The same in words.
fn keys_are(version: u8) -> &'static str {
    if version < FIRST_BY_BYTES {
        KEYS_ARE
    } else {
        "the keys are version, bits, node, turns, strikes"
    }
}

/// That the strikes aren't a list of texts, or stand at two keys.
fn of_strikes<'a>(document: &'a Document) -> Wording<'a> {
    let said = of_texts(document, Kind::Strike);
    let Some(value) = document.value("strikes") else {
        return said;
    };
    if !said.is_nothing() {
        return said;
    }
    let spot = Spot::Key("strikes");
    let listed = of_list(document, Kind::Strike, value);
    if !listed.is_nothing() {
        let right = "write strikes = [\"1 60\"], a text a strike, in quotes";
        let [wrong, _] = listed.told;
        let [number, most] = listed.numbers;
        let mut said = Wording::at(spot, wrong, right, listed.kind);
        said.numbers = [number, most];
        return said;
    }
    let wrong = match document.value("faults") {
        Some(_) => "{0}\"strikes\" and \"faults\" are two names of one list",
        None => "",
    };
    Wording::at(spot, wrong, "write one of the two", "")
}

/// That the value of a key isn't a whole number, or that the key is missing.
fn of_number<'a>(document: &'a Document, key: &'static str, right: &'static str) -> Wording<'a> {
    let value = document.value(key);
    if value.is_none() {
        let said = of_misplaced(document, key);
        if !said.is_nothing() {
            return said;
        }
    }
    let (wrong, kind) = match value {
        Some(Value::Integer(_)) => ("", ""),
        Some(value) => (
            "{0}{1} is a whole number, and here it is {2}",
            kind_of(value),
        ),
        None => ("{0}the key \"{1}\" is missing", ""),
    };
    Wording::at(Spot::Key(key), wrong, right, kind)
}

/// What is wrong with the nodes where this key stands below one of them.
fn of_misplaced<'a>(document: &'a Document, key: &str) -> Wording<'a> {
    for node in document.nodes() {
        if member_of(node, key).is_some() {
            return of_nodes(document);
        }
    }
    Wording::nothing()
}

/// That the value of the key of these texts isn't a list of texts.
fn of_texts<'a>(document: &'a Document, kind: Kind) -> Wording<'a> {
    match document.value(kind.key()) {
        Some(value) => of_list(document, kind, value),
        None => Wording::nothing(),
    }
}

/// That a key is unknown, of the first in the document, and which is meant.
fn of_unknown<'a>(document: &'a Document) -> Wording<'a> {
    match unknown_key(document) {
        Some(key) => of_key(key, document.version()),
        None => Wording::nothing(),
    }
}

/// That this key is unknown in a plan of this version, and which is meant.
pub(crate) fn of_key<'a>(key: &'a str, version: u8) -> Wording<'a> {
    let are = keys_are(version);
    let mut said = Wording::at(Spot::Key(key), "{0}no key is called <{1}>", are, "");
    if key == "steps" {
        said.told = [
            "{0}\"steps\" belongs below a [[node]], and not above all of them",
            "write the line [[node]] before it, once for each node",
        ];
    } else if FAULTS.contains(&key) {
        let wrong = if version < FIRST_BY_BYTES {
            "{0}no key is called <{1}>, did you mean \"faults\"?"
        } else {
            "{0}no key is called <{1}>, did you mean \"strikes\"?"
        };
        said.told = [wrong, are];
    } else {
        said.near = ["{0}no key is called <{1}>, did you mean \"{6}\"?", are];
        said.names = keys_of(version);
    }
    said
}

/// The first key of a document that is unknown: the first that is written so, and of those that are written otherwise
/// the first in the order of keys.
fn unknown_key<'a>(document: &'a Document) -> Option<&'a str> {
    let known = keys_of(document.version());
    let written = document.first_written(known);
    if written.is_some() {
        return written;
    }
    other_key(&document.root, known)
}

/// The first key of a table, in the order of keys, that isn't among these.
pub(crate) fn other_key<'a>(value: &'a Value, known: &[&str]) -> Option<&'a str> {
    let Value::Table(table) = value else {
        return None;
    };
    for key in table.keys() {
        let key = key.as_str();
        if !(&*known).contains(&key) {
            return Some(key);
        }
    }
    None
}
