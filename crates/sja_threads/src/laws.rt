//! Laws of what a driver in a thread of its own has set and does, and of where a bus stops. Each is the contract of a
//! function that does nothing.

ghost use Rattle.std.specs.Prelude.{◌≡◌, ◌+◌, ◌<◌, ℕ, Some, List, true, false, length, map, slice_get, take};
ghost use Rattle.sja_journal.specs.Links.{stops_of};
ghost use Rattle.sja_rings.specs.declared.node_bus.NodeBus.{NodeBus};
ghost use Rattle.sja_plan.specs.Plan.{PlanValue};
ghost use Rattle.sja_regs.specs.declared.orders.Orders.{Orders as BusOrders};
ghost use Rattle.sja_regs.specs.declared.registers.Registers.{Registers};
ghost use Rattle.sja_regs.specs.DriverSettings.{SettingsValue, settings_in};
ghost use Rattle.sja_regs.specs.Registers.{at_power_on};
ghost use Rattle.sja_steps.specs.declared.step.Step.{Step};
ghost use Rattle.sja_driver.specs.StepRuns.{by_bytes, step_record_of as done_of_step_run};
ghost use Rattle.sja_driver.specs.TypedActs.{TypedAct, is_active, step_record_of};
ghost use Rattle.sja_journal.specs.declared.bus_fault.BusFault.{BusFault};
ghost use Rattle.sja_journal.specs.declared.bus_fault.BusFault.TheVariants.{Stuck};
ghost use Rattle.sja_bus_rules.specs.Reasons.{IsTakenAndRefused, IsBrokenOff};
ghost use Rattle.sja_bus_rules.specs.Wire.{journal_at};
ghost use Rattle.sja_thread_promises.specs.Accessing.{Work, Follows, acts_done};
ghost use Rattle.sja_thread_promises.specs.Setting.{LeadToSettings};
ghost use Rattle.sja_thread_promises.specs.Ordering.{LedBy, HasCommandedAbort, HadCommandedAbort};
ghost use Rattle.sja_thread_promises.specs.Stopping.{StopsOn, any_orders, ring_ends};
ghost use Rattle.sja_thread_promises.specs.declared.port_act.PortAct.{PortAct};
ghost use Rattle.sja_thread_promises.specs.declared.port_update.PortUpdate.{PortUpdate};
ghost use Rattle.sja_thread_promises.specs.declared.port_update.PortUpdate.TheVariants.{Ran};

/// From power-on a driver in reset finds its port in reset mode, so that its writes reach the acceptance filter.
pub fn a_driver_in_reset_finds_reset_mode()
    ensures { (version : ℕ) (acts : List TypedAct) (set : SettingsValue) →
        LeadToSettings (settings_in (at_power_on version)) acts set → is_active acts ≡ false → set.mode.rm ≡ true }
{}

/// An abort stands at a port only where its driver commanded one and didn't stop since, in each order of what came
/// there; and one was found to stand only where the driver had commanded it by then.
pub fn an_abort_was_commanded()
    ensures stands { (version : ℕ) (told : List PortUpdate) (acts : List PortAct) (p : Registers) →
        LedBy version told acts p → p.abort ≡ true → HasCommandedAbort acts }
    ensures found { (version : ℕ) (told : List PortUpdate) (acts : List PortAct) (p : Registers) (place many : ℕ)
        (orders : BusOrders) → LedBy version told acts p → slice_get told place ≡ Some (Ran many orders) →
        orders.abort ≡ true → HadCommandedAbort acts }
{}

/// In versions 1 and 2 a step is one act, and no gate breaks one off: the acts are a front of the script's steps, and
/// the log has just them as done.
pub fn a_step_is_one_act_before_version_3()
    ensures { (version : ℕ) (set : SettingsValue) (steps : List Step) (work : Work) → by_bytes version ≡ false →
        Follows version set steps work →
        (map (λ (d : TypedAct). d.step) (acts_done work) ≡ take (length (acts_done work)) steps)
        × (map step_record_of (acts_done work) ≡ map done_of_step_run work.step_runs) }
{}

/// A bus that stops, since it refuses an item or a put came back, stops on one of the 64 links of a node: fewer
/// activations had ended.
pub fn a_bus_stops_on_one_of_64_links()
    ensures refused { (counts : List ℕ) (plan : PlanValue) (after : List NodeBus) (f : BusFault) (bits : ℕ)
        (steps : List ℕ) (s : StopsOn counts plan after f) (t : IsTakenAndRefused ring_ends bits steps s.was.journals
        s.now.journals s.links after f) → stops_of (journal_at s.now.journals t.node) < 64 }
    ensures stuck { (counts : List ℕ) (plan : PlanValue) (after : List NodeBus) (f : BusFault) (bits : ℕ)
        (steps : List ℕ) (s : StopsOn counts plan after f) (b : IsBrokenOff ring_ends any_orders bits steps
        s.was.journals s.now.journals s.links f) → f ≡ Stuck b.node →
        stops_of (journal_at s.now.journals b.node) < 64 }
{}
