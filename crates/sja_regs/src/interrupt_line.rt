//! The interrupt line.

ghost use Rattle.std.specs.Prelude.{◌≡◌};
ghost use Rattle.sja_regs.specs.InterruptLine.{is_line_active};

use super::port::Port;
use can_frame::BufferView;

impl Port {
    /// Whether the interrupt line INT is active: some bit of IR is 1, as [`read`](Port::read) would show it now with
    /// what the driver sees of its messages (SJA1000 data sheet, 6.4.6). Nothing is cleared.
    pub fn irq(&self, seen: &BufferView) -> bool
        ensures { result ≡ is_line_active self.now seen.now }
    {
        self.registers.interrupts(seen).is_any()
    }
}
