//! [`PlanFaultText`]: what the program writes of a plan's fault.

use sja_plan_reading::PlanFault;
use std::fmt;

/// A plan's fault, which shows as the text that the program writes of it (this project's own rule).
#[derive(Debug, Drop)]
pub(crate) struct PlanFaultText(pub(crate) PlanFault);

impl fmt::Display for PlanFaultText {
    ghost use Rattle.std.specs.Prelude.{Some};
    ghost use Rattle.text_codec.specs.Refusal.{plan_fault_text};

    ghost output = { λ text. Some (plan_fault_text text.0) };

    fn fmt<W: fmt::Write>(&self, f: &mut fmt::Formatter<W>) -> fmt::Result {
        match self.0 {
            PlanFault::TooLong => f.write_str("plan fault 1 TooLong"),
            PlanFault::NotText => f.write_str("plan fault 2 NotText"),
            PlanFault::Toml => f.write_str("plan fault 3 Toml"),
            PlanFault::Key => f.write_str("plan fault 4 Key"),
            PlanFault::Version => f.write_str("plan fault 5 Version"),
            PlanFault::Bits => f.write_str("plan fault 6 Bits"),
            PlanFault::NodeCount => f.write_str("plan fault 7 NodeCount"),
            PlanFault::StepCount => f.write_str("plan fault 8 StepCount"),
            PlanFault::Step(node, number) => write!(f, "plan fault 9 Step {node} {number}"),
            PlanFault::TurnCount => f.write_str("plan fault 10 TurnCount"),
            PlanFault::Turn(number) => write!(f, "plan fault 11 Turn {number}"),
            PlanFault::StrikeCount => f.write_str("plan fault 12 StrikeCount"),
            PlanFault::Strike(number) => write!(f, "plan fault 13 Strike {number}"),
            PlanFault::Memory => f.write_str("out of memory"),
        }
    }
}
