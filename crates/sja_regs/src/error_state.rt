//! What EI and EPI are told by.

ghost use Rattle.std.specs.Prelude.{◌≡◌};
ghost use Rattle.sja_regs.specs.ErrorStates.{causes_between};

use super::bits::differ;
use super::interrupts::Interrupts;

/// What the two error interrupts hang on (SJA1000 data sheet, 6.4.6).
#[derive(Debug, Clone, Copy)]
pub(crate) struct ErrorState {
    /// ES: an error counter has come to the warning limit.
    pub es: bool,
    /// BS: bus-off.
    pub bs: bool,
    /// An error counter has come to 128.
    pub passive: bool,
}

impl ErrorState {
    /// Which of EI and EPI have a cause, where this state becomes a new one, in a version for drivers that know
    /// addresses and bytes alone (`raw`) or in another: in those EPI doesn't come with bus-off.
    pub(crate) fn causes(self, by_bytes: bool, new: ErrorState) -> Interrupts
        ensures { result ≡ causes_between by_bytes self new }
    {
        Interrupts {
            ei: differ(self.es, new.es) | differ(self.bs, new.bs),
            epi: differ(self.passive, new.passive) & !(by_bytes & (!self.bs & new.bs)),
            ..Interrupts::none()
        }
    }
}
