//! Bits written at once into the codes of a journal.

ghost use Rattle.std.specs.Prelude.{◌≡◌, ◌≤◌, ◌-◌, ◌++◌, length};
ghost use Rattle.std.specs.Simd.Lanes.{zip2};
ghost use Rattle.sja_journal.specs.Inside.Codes.{code_of};

use super::bounded_history::BoundedHistory;
use super::code::{Code, write_bits};
use can_levels::Level;

impl BoundedHistory<Code> {
    /// Adds the codes of bits, of each the level driven and the level seen, where as many are free.
    pub(crate) fn push_bits(&mut self, driven: &[Level], seen: &[Level])
        requires each { length driven.now ≡ length seen.now }
        requires free { length seen.now ≤ self.old.room - length self.old.items }
        ensures room { self.new.room ≡ self.old.room }
        ensures items { self.new.items ≡ self.old.items ++ zip2 code_of driven.now seen.now }
    {
        let used = self.items.len();
        if seen.len() > self.window - used {
            self.push_one_by_one(driven, seen);
            return;
        }
        // The memory is reserved.
        let _ = self
            .items
            .resize(used + seen.len(), Code::RecessiveAsDriven);
        write_bits(&mut self.items.as_mut_slice()[used..], driven, seen);
    }

    /// The same, where the memory may come to its end among them.
    #[inline(never)]
    fn push_one_by_one(&mut self, driven: &[Level], seen: &[Level])
        requires each { length driven.now ≡ length seen.now }
        requires free { length seen.now ≤ self.old.room - length self.old.items }
        ensures room { self.new.room ≡ self.old.room }
        ensures items { self.new.items ≡ self.old.items ++ zip2 code_of driven.now seen.now }
    {
        for k in 0..seen.len() {
            self.push(Code::of_bit(driven[k], seen[k]));
        }
    }
}
