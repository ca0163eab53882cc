//! [`Sources`]: where plans stand under names.

use super::source_fault::SourceFault;
use std::alloc::Global;

/// Where plans stand under names, as in files (this project's own rule).
pub trait Sources {
    ghost use Rattle.std.specs.Prelude.{◌≡◌, ℕ, List, Option, Some, None, IfOk, IfErr};
    ghost use Rattle.sja_program.specs.Input.{IsReadFrom};
    ghost use Rattle.sja_run.specs.declared.source_fault.SourceFault.TheVariants.{Unreadable};

    /// What stands under a name, as a whole: these bytes, or nothing that can be read.
    ghost holds: { Self → List ℕ → Option (List ℕ) → Type 0 };

    /// The bytes that stand under this name, up to one more than a plan may have that begins so.
    ///
    /// Errors: [`SourceFault::Unreadable`] where none stand there that can be read; [`SourceFault::OutOfMemory`].
    fn read(&self, alloc: Global, name: &str) -> Result<Vec<u8>, SourceFault>
        ensures held { IfOk result (λ bytes. (whole : List ℕ) × holds self.now name.now (Some whole)
            × IsReadFrom whole bytes.items) }
        ensures nothing { IfErr result (λ fault. fault ≡ Unreadable → holds self.now name.now None) };

    /// The bytes that stand under this name, as a whole.
    ///
    /// Errors: as [`Sources::read`] has them.
    fn whole(&self, alloc: Global, name: &str) -> Result<Vec<u8>, SourceFault>
        ensures held { IfOk result (λ bytes. holds self.now name.now (Some bytes.items)) }
        ensures nothing { IfErr result (λ fault. fault ≡ Unreadable → holds self.now name.now None) };
}
