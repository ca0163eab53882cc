//! Laws of the registers.

ghost use Rattle.std.specs.Prelude.{◌≡◌, ℕ, List};
ghost use Rattle.can_frame.specs.declared.buffer_view.BufferView.{BufferView};
ghost use Rattle.sja_journal.specs.declared.entry.Entry.{Entry};
ghost use Rattle.sja_regs.specs.declared.registers.Registers.{Registers};
ghost use Rattle.sja_regs.specs.InterruptLine.{is_line_active};
ghost use Rattle.sja_driver.specs.TypedActs.{TypedAct};
ghost use Rattle.sja_promises.specs.Registering.{LeadTo};

/// A law: the registers are a function of the entries of the journal and of the acts of the driver, from power-on in a
/// version of the model.
#[tactic(auto, using(crate::proofs::OneNode::OnePort::port_once))]
pub fn entries_and_acts_lead_to_one_port()
    ensures { (version : ℕ) (j : List Entry) (acts : List TypedAct) (p q : Registers) → LeadTo version j acts p
        → LeadTo version j acts q → p ≡ q }
{}

/// A law: whether the interrupt line is active is a function of the entries of the journal, of the acts of the driver
/// and of what is seen of the messages.
pub fn entries_and_acts_say_one_line()
    ensures { (version : ℕ) (j : List Entry) (acts : List TypedAct) (p q : Registers) (seen : BufferView)
        → LeadTo version j acts p → LeadTo version j acts q → is_line_active p seen ≡ is_line_active q seen }
{}
