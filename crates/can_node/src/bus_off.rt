//! Bus-off, and the error counters that a start takes (Bosch CAN 2.0 part A section 7; SJA1000 data sheet, 6.4.11 and
//! 6.4.12).
use super::context::Context;
use can_node_rules::Counters;

/// TEC from bus-off on; REC is 0 then (SJA1000 data sheet, 6.4.12).
const TEC_BUS_OFF: u16 = 127;
/// How often eleven recessive levels end bus-off.
const BUS_OFF_COUNT: u8 = 128;
/// TXERR written so asks for a bus-off, and the highest value that doesn't (SJA1000 data sheet, 6.4.12).
const TEC_FORCES_OFF: u8 = 255;

const TEC_HIGHEST: u8 = 254;

impl Context {
    ghost use Rattle.std.specs.Prelude.{◌≡◌};
    ghost use Rattle.can_node_rules.specs.Context.{integration_count};
    ghost use Rattle.can_node_rules.specs.Effects.{with_off, with_tec, with_rec, recounted};
    ghost use Rattle.can_node.specs.Standing.{context_of};

    /// Goes bus-off: the request is dropped, TEC reads 127 and REC 0.
    pub(crate) fn go_off(&mut self)
        ensures { context_of self.new ≡ with_off (context_of self.old) }
    {
        self.stop();
        self.counters = Counters {
            tec: TEC_BUS_OFF,
            rec: 0,
            off: true,
        };
    }

    /// While bus-off stands a start makes the count of 128 begin anew, unless the node only listens.
    pub(crate) fn recount(&mut self)
        ensures { context_of self.new ≡ recounted (context_of self.old) }
    {
        if self.counters.off && !self.listen {
            self.counters.tec = TEC_BUS_OFF;
            self.counters.rec = 0;
        }
    }

    /// A start takes the TEC that was written in reset mode, if one was: 255 is a bus-off, and any other value ends one
    /// (SJA1000 data sheet, 6.4.12).
    pub fn take_tec(&mut self, tec: Option<u8>)
        ensures { context_of self.new ≡ with_tec tec (context_of self.old) }
    {
        if let Some(n) = tec {
            if n == TEC_FORCES_OFF {
                self.counters = Counters {
                    tec: TEC_BUS_OFF,
                    rec: 0,
                    off: true,
                };
            } else {
                self.counters.tec = u16::from(n.min(TEC_HIGHEST));
                self.counters.off = false;
            }
        }
    }

    /// A start takes the REC that was written in reset mode, if one was, unless bus-off stands (SJA1000 data sheet,
    /// 6.4.11).
    pub fn take_rec(&mut self, rec: Option<u8>)
        ensures { context_of self.new ≡ with_rec rec (context_of self.old) }
    {
        if let Some(n) = rec {
            if !self.counters.off {
                self.counters.rec = n;
            }
        }
    }

    /// How often eleven recessive levels are waited for after a start.
    pub(crate) fn integration_count(&self) -> u8
        ensures { result ≡ integration_count (context_of self.now) }
    {
        if self.counters.off { BUS_OFF_COUNT } else { 1 }
    }
}
