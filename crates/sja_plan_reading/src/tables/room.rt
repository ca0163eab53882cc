//! What is kept of a document while it is read.

ghost use Rattle.std.specs.Prelude.{◌≡◌, ◌⊎◌, [], ◌∷◌, ◌++◌, true, false, IfOk, OnOk};
ghost use Rattle.toml_parser.specs.Reading.{key_view};
ghost use Rattle.toml.specs.Data.{boolean};
ghost use Rattle.toml.specs.Tables.{key_value};
ghost use Rattle.sja_plan_reading.specs.Inside.Names.{texts_of};
ghost use Rattle.sja_plan_reading.specs.Inside.Definitions.{definition_of, item_of, AreGood, AreBad};
ghost use Rattle.sja_plan_reading.specs.Inside.Reading.{Refuses};
ghost use Rattle.sja_plan_reading.specs.Inside.Rooms.{IsSound, items_in, section_in, header_item, pair_item};
ghost use Rattle.sja_plan_reading.specs.Inside.Values.{IsOddAt, Begins};

use super::definition::Definition;
use super::flat::may_hold;
use super::judging::judge;
use super::names::Names;
use super::path::Path;
use super::refusal::Refusal;
use super::what::What;
use std::alloc::Global;
use toml_parser::Key;

/// In how many tables, one in another, a key stands at most: a header has 80 parts at most, and so has a pair.
const MOST_DEEP: usize = 200;

/// What is kept of a document: the parts of its keys, its definitions, the key of the last header, and whether a value
/// was seen that no plan has where it stands.
#[derive(Drop)]
pub(crate) struct Room {
    pub(crate) names: Names,
    pub(crate) definitions: Vec<Definition>,
    section: Path,
    pub(crate) odd: bool,
}

impl Room {
    /// For a document of which nothing is read yet.
    pub(crate) fn new(alloc: Global) -> Room
        ensures sound { IsSound result }
        ensures items { items_in result ≡ [] }
        ensures section { section_in result ≡ [] }
        ensures odd { result.odd ≡ false }
    {
        Room {
            names: Names::new(alloc),
            definitions: Vec::new(alloc),
            section: Path { first: 0, count: 0 },
            odd: false,
        }
    }

    /// Takes in a header.
    pub(crate) fn header(&mut self, key: &Key, what: What) -> Result<(), Refusal>
        requires { IsSound self.old }
        ensures sound { OnOk result (IsSound self.new) }
        ensures items { OnOk result (items_in self.new
            ≡ items_in self.old ++ header_item (key_view key.now) (definition_of what) ∷ []) }
        ensures section { OnOk result (section_in self.new ≡ (key_view key.now).0 ++ (key_view key.now).1 ∷ []) }
        ensures odd { self.new.odd ≡ self.old.odd }
        ensures never { Refuses result ⊥ }
    {
        let (path, last) = self.names.add_key(key)?;
        if path.count == u32::MAX {
            return Err(Refusal::Open);
        }
        let count = path.count + 1;
        self.section = Path {
            first: path.first,
            count,
        };
        let dots = Path {
            first: last,
            count: 0,
        };
        self.definitions.push(Definition {
            path,
            dots,
            last,
            what,
        })?;
        Ok(())
    }

    /// Takes in a pair, which stands below the last header. Answers what it defines.
    pub(crate) fn pair(&mut self, key: &Key) -> Result<Definition, Refusal>
        requires { IsSound self.old }
        ensures sound { OnOk result (IsSound self.new) }
        ensures items { OnOk result (items_in self.new
            ≡ items_in self.old ++ pair_item (section_in self.old) (key_view key.now) (boolean false) ∷ []) }
        ensures section { OnOk result (section_in self.new ≡ section_in self.old) }
        ensures is { IfOk result (λ d. item_of (texts_of self.new.names) d
            ≡ pair_item (section_in self.old) (key_view key.now) (boolean false)) }
        ensures odd { self.new.odd ≡ self.old.odd }
        ensures never { Refuses result ⊥ }
    {
        let (dots, last) = self.names.add_key(key)?;
        let path = self.section;
        let definition = Definition {
            path,
            dots,
            last,
            what: What::Pair,
        };
        self.definitions.push(definition)?;
        Ok(definition)
    }

    /// Looks at the value of a pair that was taken in, with which this text begins.
    pub(crate) fn look(
        &mut self,
        alloc: Global,
        pair: Definition,
        value: &str,
    ) -> Result<(), Refusal>
        requires { IsSound self.old }
        ensures sound { IsSound self.new }
        ensures items { items_in self.new ≡ items_in self.old }
        ensures section { section_in self.new ≡ section_in self.old }
        ensures odd { OnOk result (self.new.odd ≡ true → (self.old.odd ≡ true)
            ⊎ Begins (IsOddAt (item_of (texts_of self.old.names) pair)) value.now) }
        ensures never { Refuses result ⊥ }
    {
        if self.odd {
            return Ok(());
        }
        let may = may_hold(alloc, &self.names, pair, value)?;
        self.odd = !may;
        Ok(())
    }

    /// Whether its definitions go together. They aren't kept.
    pub(crate) fn judge(&mut self, alloc: Global) -> Result<(), Refusal>
        ensures good { OnOk result (AreGood (items_in self.old)) }
        ensures bad { Refuses result (AreBad (items_in self.old)) }
    {
        judge(
            alloc,
            &self.names,
            self.definitions.as_mut_slice(),
            MOST_DEEP,
        )
    }
}
