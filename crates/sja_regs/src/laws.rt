//! Laws of registers over several calls, and of what is written and read. Each is the contract of a function that does
//! nothing.

ghost use Rattle.std.specs.Prelude.{◌≡◌, ◌||◌, ◌<◌, ◌^◌, ℕ, false, List, Some, All};
ghost use Rattle.can_frame.specs.declared.buffer_view.BufferView.{BufferView};
ghost use Rattle.sja_regs.specs.declared.register.Register.{Register};
ghost use Rattle.sja_regs.specs.declared.register.Register.TheVariants.{Interrupt, ArbitrationLostCapture};
ghost use Rattle.sja_regs.specs.declared.register.Register.TheVariants.{ErrorCodeCapture};
ghost use Rattle.sja_regs.specs.declared.registers.Registers.{Registers};
ghost use Rattle.sja_regs.specs.Facts.{RegisterFacts};
ghost use Rattle.sja_regs.specs.Addresses.{IsPlace};
ghost use Rattle.sja_regs.specs.Captures.{after_capture};
ghost use Rattle.sja_regs.specs.Reading.{value_of};
ghost use Rattle.sja_regs.specs.Writing.{after_writing};
ghost use Rattle.sja_regs.specs.Calls.{Call, after_calls};
ghost use Rattle.sja_regs.specs.Histories.{IsUnread, IsNoRequest, first_lost, first_error};
ghost use Rattle.sja_regs.specs.Histories.{either, enabled_causes, KeepPending, IsEarlier, some_release};
ghost use Rattle.sja_regs.specs.Registers.{by_bytes};
ghost use Rattle.sja_regs.specs.Histories.{read_back};

/// Until ALC is read it has the first place where arbitration was lost since it was read last.
pub fn alc_keeps_the_first_loss()
    ensures { (p : Registers) (calls : List Call) → IsUnread ArbitrationLostCapture calls
        → (after_calls p calls).alc ≡ after_capture p.alc (first_lost p calls) }
{}

/// Until ECC is read it has the error code of the first fault since it was read last.
pub fn ecc_keeps_the_first_fault()
    ensures { (p : Registers) (calls : List Call) → IsUnread ErrorCodeCapture calls
        → (after_calls p calls).ecc ≡ after_capture p.ecc (first_error p calls) }
{}

/// Until IR is read it has each interrupt that was pending, and each whose cause came while it was enabled; from
/// version 3 on where reset mode isn't entered.
pub fn ir_keeps_what_was_raised()
    ensures kept { (p : Registers) (calls : List Call) → IsUnread Interrupt calls → KeepPending p calls
        → (after_calls p calls).pending ≡ either (enabled_causes p calls) p.pending }
    ensures earlier { (p : Registers) (calls : List Call) → by_bytes p ≡ false → All IsEarlier calls
        → IsUnread Interrupt calls
        → (after_calls p calls).pending ≡ either (enabled_causes p calls) p.pending }
{}

/// With no request TBS is what it was, or 1 from a turn on that ended a request or from entering reset mode on.
pub fn tbs_waits_for_the_end()
    ensures { (p : Registers) (calls : List Call) → All IsNoRequest calls
        → (after_calls p calls).tbs ≡ (some_release p calls || p.tbs) }
{}

/// What is written to IER, EWLR, ACR0 to ACR3 and AMR0 to AMR3 is read back, and of MOD its four bits.
pub fn what_is_written_is_read_back()
    ensures { (p : Registers) (seen : BufferView) (register : Register) (value read : ℕ)
        → RegisterFacts p → IsPlace register → value < 2 ^ 8 → read_back p register value ≡ Some read
        → value_of (after_writing p register value) seen register ≡ Some read }
{}
