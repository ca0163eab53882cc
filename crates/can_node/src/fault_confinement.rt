//! Fault confinement: the rules of the error counters up to bus-off (Bosch CAN 2.0 part A section 7, ISO 11898-1).
use super::context::Context;
use super::ending::Ending;
use can_levels::Level;
use can_node_rules::{Cause, Counters, ERROR_PASSIVE, FaultSite, FlagKind, Role};

/// What a transmitter's error adds to TEC; so do eight dominant levels after a flag, to TEC or REC by role.
const ERROR_STEP: u8 = 8;
/// What an error that a receiver finds adds to REC.
const RECEIVER_STEP: u8 = 1;
/// REC after an acknowledged frame that found it error passive (this project's own place and value).
const REC_ACKNOWLEDGED: u8 = 127;

/// The counters' steps. TEC never comes far above 256, where the node goes bus-off.
impl Context {
    ghost use Rattle.std.specs.Prelude.{◌≡◌, ◌<◌, ◌+◌, ◌%◌, ◌==◌, ◌&&◌, List, [], fold, length};
    ghost use Rattle.can_node_rules.specs.declared.request.Request.{Request};
    ghost use Rattle.can_node_rules.specs.Bits.{Bit, seen_of};
    ghost use Rattle.can_node_rules.specs.Context.{is_passive};
    ghost use Rattle.can_node_rules.specs.Pieces.Piece.{Integration, Transmission};
    ghost use Rattle.can_node_rules.specs.Counting.{more_rec, more_tec, more_by, integration_bit, next_run};
    ghost use Rattle.can_node_rules.specs.Counting.{if_ack_step_owed};
    ghost use Rattle.can_node_rules.specs.Counting.{delimiter_level, are_dominant, after_error_flag, if_acknowledged};
    ghost use Rattle.can_node_rules.specs.Effects.{own_step, fault_step, transmitter_fault};
    ghost use Rattle.can_node.specs.Standing.{context_of};
    ghost use Rattle.can_node_rules.specs.KeptContexts.{is_nil};
    ghost use Rattle.can_node.specs.Inside.Turns.{piece_of};

    // ---- steps

    fn more_rec(&mut self, n: u8)
        ensures { context_of self.new ≡ more_rec n (context_of self.old) }
    {
        self.counters.rec = self.counters.rec.saturating_add(n);
    }

    fn more_tec(&mut self, n: u8)
        ensures kept { self.new.held ≡ self.old.held }
        ensures step { self.old.counters.tec < 1000 → context_of self.new ≡ more_tec n (context_of self.old) }
    {
        self.counters.tec = self.counters.tec.wrapping_add(u16::from(n));
    }

    /// So much by the role: transmitter, receiver.
    fn more_by(&mut self, transmitter: u8, receiver: u8)
        ensures { self.old.counters.tec < 1000
            → context_of self.new ≡ more_by self.old.role transmitter receiver (context_of self.old) }
    {
        match self.role {
            Role::Transmitter => self.more_tec(transmitter),
            Role::Receiver => self.more_rec(receiver),
        }
    }

    /// Error passive: a counter has come to 128.
    pub(crate) fn is_passive(&self) -> bool
        ensures { result ≡ is_passive (context_of self.now) }
    {
        self.counters.tec >= ERROR_PASSIVE || u16::from(self.counters.rec) >= ERROR_PASSIVE
    }

    // ---- bits

    /// A bit of bus integration, after a run of so many recessive levels: after bus-off each eleven take one from TEC.
    pub(crate) fn integration_bit(&mut self, run: u8, seen: Level)
        ensures { (done : List Bit) (b : Bit) → fold next_run 0 (seen_of done) ≡ run → b.seen ≡ seen
            → context_of self.new ≡ integration_bit (context_of self.old) done b }
    {
        if self.counters.off && !self.listen && seen.is_recessive() && run == 10 {
            self.counters.tec = self.counters.tec.saturating_sub(1);
        }
    }

    /// A receiver's bit of a frame: a dominant level of its own is its acknowledgement, which takes one from REC.
    pub(crate) fn acknowledged(&mut self, driven: Level, seen: Level)
        ensures { context_of self.new ≡ if_acknowledged driven seen (context_of self.old) }
    {
        if !driven.is_recessive() && !seen.is_recessive() {
            self.counters.rec = if u16::from(self.counters.rec) >= ERROR_PASSIVE {
                REC_ACKNOWLEDGED
            } else {
                self.counters.rec.saturating_sub(1)
            };
        }
    }

    /// A bit of a flag: the step that a passive transmitter owes for a missing acknowledgement comes with a dominant
    /// level.
    pub(crate) fn flag_bit(&mut self, seen: Level)
        ensures { self.old.counters.tec < 1000 → context_of self.new ≡ if_ack_step_owed seen (context_of self.old) }
    {
        if !seen.is_recessive() && self.ack_step_owed {
            self.more_tec(ERROR_STEP);
            self.ack_step_owed = false;
        }
    }

    /// A bit after a flag: the first one or not, and one that makes eight, sixteen .. dominant levels or not.
    pub(crate) fn delimiter_bit(&mut self, first: bool, eighth: bool, seen: Level)
        ensures { (done : List Bit) → self.old.counters.tec < 1000 → first ≡ is_nil done
            → eighth ≡ (are_dominant (seen_of done) && (length done + 1) % 8 == 0)
            → context_of self.new ≡ delimiter_level seen done (context_of self.old) }
    {
        if seen.is_recessive() || self.listen {
            return;
        }
        if first {
            self.after_error_flag();
        }
        if eighth {
            self.more_by(ERROR_STEP, ERROR_STEP);
        }
    }

    /// A dominant level right after a flag: a receiver's step, where that was an error flag.
    fn after_error_flag(&mut self)
        ensures { context_of self.new ≡ after_error_flag [] self.old.role self.old.flag (context_of self.old) }
    {
        match self.role {
            Role::Transmitter => {}
            Role::Receiver => match self.flag {
                FlagKind::ActiveError | FlagKind::PassiveError => self.more_rec(ERROR_STEP),
                FlagKind::Overload => {}
            },
        }
    }

    // ---- ends of pieces

    /// The step of a piece's end, beside those of its bits.
    pub(crate) fn end_step(&mut self, ending: &Ending)
        ensures { self.old.counters.tec < 900
            → context_of self.new ≡ own_step (piece_of ending.now) (context_of self.old) }
    {
        match ending {
            Ending::Integration => self.integrated(),
            Ending::Sent(_) => self.transmitted(),
            Ending::Fault {
                site,
                cause,
                segment: _,
            } => self.fault_step(*site, *cause),
            Ending::Flag => self.ack_step_owed = false,
            _ => {}
        }
    }

    /// The bus was waited for: bus-off is over, unless the node only listens.
    fn integrated(&mut self)
        ensures { context_of self.new ≡ own_step Integration (context_of self.old) }
    {
        if self.counters.off && !self.listen {
            self.counters = Counters::zero();
        }
    }

    /// The own frame was sent, which takes one from TEC.
    fn transmitted(&mut self)
        ensures { (request : Request) → context_of self.new ≡ own_step (Transmission request) (context_of self.old) }
    {
        self.counters.tec = self.counters.tec.saturating_sub(1);
        self.held = None;
        self.aborted = false;
    }

    /// The step of an error, by where it was.
    fn fault_step(&mut self, site: FaultSite, cause: Cause)
        ensures { self.old.counters.tec < 900 → context_of self.new ≡ fault_step site cause (context_of self.old) }
    {
        match site {
            FaultSite::InTransmission => {
                self.transmitter_fault(cause);
                self.drop_failed();
            }
            FaultSite::InReception => {
                if !self.listen {
                    self.more_rec(RECEIVER_STEP);
                }
            }
            FaultSite::InFlag => self.more_by(ERROR_STEP, ERROR_STEP),
            FaultSite::InDelimiter => {
                if !self.listen {
                    self.more_by(ERROR_STEP, RECEIVER_STEP);
                }
            }
        }
    }

    /// A transmitter's error: eight, but for a stuff bit overdriven before RTR, and for a frame that a passive
    /// transmitter gets no acknowledgement for: that step is owed.
    fn transmitter_fault(&mut self, cause: Cause)
        ensures kept { self.new.held ≡ self.old.held }
        ensures step { self.old.counters.tec < 900
            → context_of self.new ≡ transmitter_fault cause (context_of self.old) }
    {
        match cause {
            Cause::Stuff => {}
            Cause::Ack => {
                if self.is_passive() {
                    self.ack_step_owed = true;
                } else {
                    self.more_tec(ERROR_STEP);
                }
            }
            Cause::Bit | Cause::Form | Cause::Crc => self.more_tec(ERROR_STEP),
        }
    }
}
