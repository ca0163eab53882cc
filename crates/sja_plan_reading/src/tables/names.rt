//! Keys of a document, part after part.

ghost use Rattle.std.specs.Prelude.{◌≡◌, ◌+◌, [], ◌∷◌, ◌++◌, map, length, take, drop, string_bytes, OnOk, IfOk};
ghost use Rattle.std.specs.List.{list_any};
ghost use Rattle.std.specs.Str.{bytes_eq};
ghost use Rattle.toml_parser.specs.Reading.{path_view};
ghost use Rattle.sja_plan_reading.specs.Inside.Names.{texts_of, text_at, IsWhole};
ghost use Rattle.sja_plan_reading.specs.Inside.Reading.{Refuses};

use super::path::Path;
use super::refusal::Refusal;
use std::alloc::Global;
use toml_parser::Key;

/// A part of a key: where its bytes begin, and how many there are.
#[derive(Clone, Copy)]
pub(crate) struct Part {
    start: u32,
    len: u32,
}

/// The parts of all keys that were read. The bytes of all stand in one list.
#[derive(Drop)]
pub(crate) struct Names {
    bytes: Vec<u8>,
    parts: Vec<Part>,
}

impl Names {
    /// None yet.
    pub(crate) fn new(alloc: Global) -> Names
        ensures texts { texts_of result ≡ [] }
        ensures whole { IsWhole result }
    {
        Names {
            bytes: Vec::new(alloc),
            parts: Vec::new(alloc),
        }
    }

    /// How many parts there are.
    pub(crate) fn len(&self) -> usize
        ensures { result ≡ length (texts_of self.now) }
    {
        self.parts.len()
    }

    /// Takes in these parts.
    pub(crate) fn add_all(&mut self, parts: &[String]) -> Result<(), Refusal>
        requires { IsWhole self.old }
        ensures whole { IsWhole self.new }
        ensures texts { OnOk result (texts_of self.new ≡ texts_of self.old ++ map string_bytes parts.now) }
        ensures never { Refuses result ⊥ }
    {
        for part in parts {
            self.add(part)?;
        }
        Ok(())
    }

    /// Takes in a part.
    pub(crate) fn add(&mut self, part: &str) -> Result<(), Refusal>
        requires { IsWhole self.old }
        ensures whole { IsWhole self.new }
        ensures texts { OnOk result (texts_of self.new ≡ texts_of self.old ++ part.now ∷ []) }
        ensures never { Refuses result ⊥ }
    {
        let start = number_of(self.bytes.len())?;
        let len = number_of(part.len())?;
        self.bytes.extend_from_slice(part.as_bytes())?;
        self.parts.push(Part { start, len })?;
        Ok(())
    }

    /// The part of this number; none of its bytes past the end.
    pub(crate) fn part(&self, number: u32) -> &[u8]
        ensures { result.now ≡ text_at (texts_of self.now) number }
    {
        let number = number as usize;
        if number >= self.parts.len() {
            return &[];
        }
        let part = self.parts[number];
        piece(&self.bytes, part.start as usize, part.len as usize)
    }

    /// Takes in the parts of a key. Answers where those before the last stand, and the last.
    pub(crate) fn add_key(&mut self, key: &Key) -> Result<(Path, u32), Refusal>
        requires { IsWhole self.old }
        ensures whole { IsWhole self.new }
        ensures texts { OnOk result (texts_of self.new
            ≡ texts_of self.old ++ path_view key.now.path.items ++ string_bytes key.now.last ∷ []) }
        ensures places { IfOk result (λ p. (p.0.first ≡ length (texts_of self.old))
            × (p.0.count ≡ length key.now.path.items) × (p.0.first + p.0.count ≡ p.1)) }
        ensures never { Refuses result ⊥ }
    {
        let first = number_of(self.len())?;
        self.add_all(&key.path)?;
        let last = number_of(self.len())?;
        self.add(key.last.as_str())?;
        let count = last.saturating_sub(first);
        Ok((Path { first, count }, last))
    }
}

/// So many bytes from this one on, as many of them as there are.
fn piece(bytes: &[u8], start: usize, len: usize) -> &[u8]
    ensures { result.now ≡ take len (drop start bytes.now) }
{
    if start > bytes.len() {
        return &[];
    }
    let behind = &bytes[start..];
    if len >= behind.len() {
        behind
    } else {
        &behind[..len]
    }
}

/// The number in four bytes, where it has room there.
pub(crate) fn number_of(number: usize) -> Result<u32, Refusal>
    ensures value { IfOk result (λ n. n ≡ number) }
    ensures never { Refuses result ⊥ }
{
    match u32::try_from(number) {
        Ok(number) => Ok(number),
        Err(_) => Err(Refusal::Open),
    }
}

/// Whether this is one of these keys.
pub(crate) fn is_among(keys: &[&str], key: &[u8]) -> bool
    ensures { result ≡ list_any (λ name. bytes_eq name.now key.now) keys.now }
{
    keys.iter().any(|name| name.as_bytes() == key)
}
