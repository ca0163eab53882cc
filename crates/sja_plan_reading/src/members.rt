//! The members of a table, by their keys.

ghost use Rattle.std.specs.Prelude.{◌≡◌, map, option_map};
ghost use Rattle.std.specs.List.{list_any};
ghost use Rattle.std.specs.Str.{bytes_eq};
ghost use Rattle.toml.specs.Data.{get_member};
ghost use Rattle.toml.specs.View.{view, table_view};
ghost use Rattle.sja_plan_reading.specs.Document.{knows, integer_at};

use toml::{Table, Value};

/// The value at a key.
pub(crate) fn value_at<'a>(table: &'a Table, key: &str) -> Option<&'a Value>
    ensures { option_map (λ v. view v.now) result ≡ get_member key.now (table_view table.entry.now) }
{
    table.get(key)
}

/// The whole number at a key.
pub(crate) fn integer_at(table: &Table, key: &str) -> Option<i64>
    ensures { result ≡ integer_at key.now (table_view table.now) }
{
    value_at(table, key)?.as_integer()
}

/// Whether each key of the table is one of these.
pub(crate) fn has_only(table: &Table, allowed: &[&str]) -> bool
    ensures { result ≡ knows (map (λ s. s.now) allowed.now) (table_view table.now) }
{
    for key in table.keys() {
        if !allows(allowed, key.as_str()) {
            return false;
        }
    }
    true
}

/// Whether the key is one of these.
fn allows(allowed: &[&str], key: &str) -> bool
    ensures { result ≡ list_any (λ name. bytes_eq name.now key.now) allowed.now }
{
    allowed.contains(&key)
}
