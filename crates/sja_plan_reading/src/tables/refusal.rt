//! Why a text is no document.

use std::alloc::{AllocError, AllocFailed};
use toml_parser::ParseError;

/// Why a text isn't taken for a TOML document.
#[derive(Clone, Copy)]
pub(crate) enum Refusal {
    /// It breaks the grammar, or the rules by which keys define tables.
    NoToml,
    /// It has what isn't looked at here, so that its tables have to be built.
    Open,
    /// Memory was refused.
    NoMemory,
}

impl From<AllocError> for Refusal {
    ghost use Rattle.std.specs.Prelude.{◌≡◌};
    ghost use Rattle.sja_plan_reading.specs.declared.tables.refusal.Refusal.TheVariants.{NoMemory};

    ghost from_gives = { λ _ e. e ≡ NoMemory };

    fn from(_error: AllocError) -> Refusal {
        Refusal::NoMemory
    }
}

impl<T: Drop> From<AllocFailed<T>> for Refusal {
    ghost use Rattle.std.specs.Prelude.{◌≡◌};
    ghost use Rattle.sja_plan_reading.specs.declared.tables.refusal.Refusal.TheVariants.{NoMemory};

    ghost from_gives = { λ _ e. e ≡ NoMemory };

    fn from(_error: AllocFailed<T>) -> Refusal {
        Refusal::NoMemory
    }
}

impl From<ParseError> for Refusal {
    ghost use Rattle.std.specs.Prelude.{◌≡◌, ◌↔◌};
    ghost use Rattle.toml_parser.specs.declared.error.ParseError.TheVariants.{OutOfMemory};
    ghost use Rattle.sja_plan_reading.specs.declared.tables.refusal.Refusal.TheVariants.{NoMemory};

    ghost from_gives = { λ error e. (e ≡ NoMemory) ↔ (error ≡ OutOfMemory) };

    fn from(error: ParseError) -> Refusal {
        match error {
            ParseError::OutOfMemory => Refusal::NoMemory,
            _ => Refusal::NoToml,
        }
    }
}
