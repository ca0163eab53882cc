//! A law of raw writes. It is the contract of a function that does nothing.

ghost use Rattle.std.specs.Prelude.{◌≡◌, ℕ, false, None};
ghost use Rattle.sja_regs.specs.declared.registers.Registers.{Registers};
ghost use Rattle.sja_regs.specs.Commands.{command_of, command_faults};
ghost use Rattle.sja_regs.specs.Refusals.{first_fault};
ghost use Rattle.sja_driver.specs.CommandWrites.{command_byte, permitted_part};

/// No port refuses the command that a write of CMR is, out of reset mode, whatever the byte was.
pub fn no_command_is_refused()
    ensures { (p : Registers) (value : ℕ) → p.mode.rm ≡ false
        → first_fault (command_faults p (command_of (command_byte (permitted_part p (command_of value))))) ≡ None }
{}
