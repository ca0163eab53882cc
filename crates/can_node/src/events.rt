//! What a bit tells.
use super::after_bit::AfterBit;
use super::ending::Ending;
use super::node::Node;
use can_frame::Frame;
use can_levels::Segment;
use can_node_rules::{BUS_OFF, Cause, Outcome};

impl AfterBit {
    ghost use Rattle.std.specs.Prelude.{◌≡◌};
    ghost use Rattle.can_node_rules.specs.Events.{fault_in, received_in, sends_in};
    ghost use Rattle.can_node.specs.Inside.Turns.{step_of};

    /// The frame that is valid from this bit on: another node's, or an own one that was to be received too.
    pub(crate) fn received(self) -> Option<Frame>
        ensures { result ≡ received_in (step_of self) }
    {
        match self {
            AfterBit::Ended(Ending::Received(frame)) => Some(frame),
            AfterBit::Ended(Ending::Sent(request)) => {
                if request.self_receive {
                    Some(request.frame)
                } else {
                    None
                }
            }
            _ => None,
        }
    }

    /// Whether the own frame was sent with this bit.
    pub(crate) fn is_sent(&self) -> bool
        ensures { result ≡ sends_in (step_of self.now) }
    {
        match self {
            AfterBit::Ended(Ending::Sent(_)) => true,
            _ => false,
        }
    }

    /// The error that was found in this bit, with its segment.
    pub(crate) fn fault(&self) -> Option<(Cause, Segment)>
        ensures { result ≡ fault_in (step_of self.now) }
    {
        match self {
            AfterBit::Ended(
                Ending::Fault {
                    site: _,
                    cause,
                    segment,
                },
            ) => Some((*cause, *segment)),
            _ => None,
        }
    }
}

impl Node {
    ghost use Rattle.std.specs.Prelude.{◌≡◌};
    ghost use Rattle.can_node_rules.specs.Context.{ContextValue, is_held};
    ghost use Rattle.can_node_rules.specs.Events.{Step, ended_in, sends_in};
    ghost use Rattle.can_node.specs.Standing.{context_of};

    /// How a request ended that was held before the bit or not.
    pub(crate) fn ended(&self, held: bool, sent: bool) -> Option<Outcome>
        ensures { (step : Step) (before : ContextValue) → sent ≡ sends_in step → held ≡ is_held before.held
            → result ≡ ended_in step before (context_of self.now.context) }
    {
        if self.context.counters.tec >= BUS_OFF {
            None
        } else if sent {
            Some(Outcome::Sent)
        } else if held && self.context.held.is_none() {
            Some(Outcome::Failed)
        } else {
            None
        }
    }
}
