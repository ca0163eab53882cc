//! Nodes that aren't tables with the key `steps` alone.

use super::super::document::{Document, member_of};
use super::super::kind::Kind;
use super::super::outline::Spot;
use super::keys::{keys_of, other_key};
use super::values::{kind_of, of_list};
use super::wording::Wording;
use toml::Value;

/// All keys of a node.
static STEPS: [&str; 1] = ["steps"];

/// What a node looks like.
const NODE_IS: &str =
    "write the line [[node]], and below it steps = [\"start\"], once for each node";

/// What is wrong with the key `node`.
pub(crate) fn of_nodes<'a>(document: &'a Document) -> Wording<'a> {
    let wrong = match document.value("node") {
        Some(Value::Array(_)) => return of_items(document),
        Some(Value::Table(_)) => "{0}[node] makes one table, and nodes are a list: [[node]]",
        Some(_) => "{0}node is a list of tables, one for each node",
        None => "the key \"node\" is missing: there is no node",
    };
    Wording::at(Spot::Key("node"), wrong, NODE_IS, "")
}

/// What is wrong with the first node that isn't right.
fn of_items<'a>(document: &'a Document) -> Wording<'a> {
    for (node, value) in document.nodes().iter().enumerate() {
        let said = of_node(document, node, value);
        if !said.is_nothing() {
            return said;
        }
    }
    Wording::nothing()
}

/// What is wrong with this node.
fn of_node<'a>(document: &'a Document, node: usize, value: &'a Value) -> Wording<'a> {
    if let Some(key) = other_key(value, &STEPS) {
        return of_key(document.version(), node, key);
    }
    if let Some(steps) = member_of(value, "steps") {
        return of_list(document, Kind::Step(node), steps);
    }
    let wrong = match value {
        Value::Table(_) => "{0}node {5} has no key \"steps\"",
        _ => "{0}node {5} is a table, and here it is {2}",
    };
    Wording::at(Spot::Node(node), wrong, NODE_IS, kind_of(value))
}

/// That this key of a node isn't `steps`, and what to do with it.
fn of_key<'a>(version: u8, node: usize, key: &'a str) -> Wording<'a> {
    let wrong = "{0}node {5} has the key <{1}>, and a node takes \"steps\" alone";
    let right = if keys_of(version).contains(&key) {
        "what stands below [[node]] is that node's: put {1} above the first [[node]]"
    } else {
        "a note goes into a comment, which begins with #"
    };
    let mut said = Wording::at(Spot::NodeKey(node, key), wrong, right, "");
    said.near = [wrong, "did you mean \"steps\"?"];
    said.names = &STEPS;
    said
}
