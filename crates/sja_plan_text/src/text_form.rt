//! Lists of texts, as values of a table.

ghost use Rattle.std.specs.Prelude.{◌≡◌, IfOk, map};
ghost use Rattle.toml.specs.View.{view};
ghost use Rattle.sja_plan_text.specs.Written.{texts_data};

use super::texts::{named_text, strike_text, turn_text};
use can_frame::OutOfMemory;
use sja_plan::Turn;
use sja_steps::{Step, Strike, step_text};
use std::alloc::Global;
use toml::Value;

/// What a plan spells as a text.
pub(crate) trait TextForm: Sized {
    ghost use Rattle.std.specs.Prelude.{◌≡◌, ℕ, Bool, List, IfOk, string_bytes};

    /// Its text, with names or without.
    ghost text: { Bool → Self → List ℕ };

    /// Its text, with names or without.
    fn spelled(&self, alloc: Global, named: bool) -> Result<String, OutOfMemory>
        ensures { IfOk result (λ t. string_bytes t ≡ text named self.now) };
}

impl TextForm for Step {
    ghost use Rattle.sja_plan_text.specs.Texts.{spelled_step};

    ghost text = { λ named step. spelled_step named step };

    fn spelled(&self, alloc: Global, named: bool) -> Result<String, OutOfMemory> {
        if named {
            named_text(alloc, self)
        } else {
            step_text(alloc, self)
        }
    }
}

impl TextForm for Turn {
    ghost use Rattle.sja_plan_text.specs.Texts.{turn_text};

    ghost text = { λ _ turn. turn_text turn };

    fn spelled(&self, alloc: Global, named: bool) -> Result<String, OutOfMemory> {
        let _ = named;
        turn_text(alloc, self)
    }
}

impl TextForm for Strike {
    ghost use Rattle.sja_plan_text.specs.Texts.{strike_text};

    ghost text = { λ _ strike. strike_text strike };

    fn spelled(&self, alloc: Global, named: bool) -> Result<String, OutOfMemory> {
        let _ = named;
        strike_text(alloc, self)
    }
}

/// The texts of these, one after another.
pub(crate) fn text_list<T: TextForm>(
    alloc: Global,
    named: bool,
    items: &[T],
) -> Result<Value, OutOfMemory>
    ensures { IfOk result (λ v. view v ≡ texts_data (map (T.text named) items.now)) }
{
    let mut values = Vec::new(alloc);
    for item in items {
        values.push(Value::from(item.spelled(alloc, named)?))?;
    }
    Ok(Value::from(values))
}
