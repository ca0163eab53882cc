//! The quick way of a bit: in most bits nothing happens that a node shows.
ghost use Rattle.std.specs.Prelude.{◌≡◌, ◌==◌, ◌&&◌, ◌||◌, not, nat_lt};
ghost use Rattle.can_levels.specs.Fields.{is_recessive};

use super::bus_integration::after_integration_bit;
use super::delimiter::{after_delimiter_bit, is_eighth, is_first};
use super::interframe_space::after_interframe_bit;
use super::node::Node;
use super::stage::Stage;
use can_levels::Level;
use can_node_rules::Role;

impl Node {
    ghost use Rattle.std.specs.Prelude.{◌≡◌, List, Some, true, false};
    ghost use Rattle.can_levels.specs.declared.level.Level.{Level as Bus};
    ghost use Rattle.can_levels.specs.declared.level.Level.TheVariants.{Recessive};
    ghost use Rattle.can_bits.specs.Shifts.{StandsFor};
    ghost use Rattle.can_levels.specs.Streaming.{IsRightInside};
    ghost use Rattle.can_node_rules.specs.declared.role.Role.TheVariants.{Transmitter, Receiver};
    ghost use Rattle.can_node.specs.declared.stage.Stage.TheVariants.{InFrame as StageInFrame, BusIdle as StageBusIdle};
    ghost use Rattle.can_node.specs.Inside.Quiet.{TurnsQuietly, is_outside};
    ghost use Rattle.can_node.specs.Stands.{Samples, ShowsSame, is_receiving};
    ghost use Rattle.can_node_rules.specs.Outcomes.{nothing};
    ghost use Rattle.can_node.specs.Together.{is_sending, kept_level, reader_of};

    /// Sees the level of the bus where the bit changes nothing that the node shows: no event, and the same error
    /// counters, phase, role and held request. Answers whether that was so; else the node is what it was, and
    /// [`sample_fully`](Node::sample_fully) is to be called (this project's own rule). It is so of each recessive bit
    /// of an idle bus in which the node drives recessive, and of each right bit of a frame's stuffed part past SOF that
    /// a transmitter sees as it drives it. Past that part, and outside a frame, it may answer false for such a bit too.
    #[inline(always)]
    pub fn sample_quietly(&mut self, level: Level) -> bool
        ensures quiet { result ≡ true → Samples self.old self.new level (nothing (is_receiving self.old)) }
        ensures shown { result ≡ true → ShowsSame self.old self.new }
        ensures same { result ≡ false → self.new ≡ self.old }
        ensures idle { self.old.stage ≡ StageBusIdle → kept_level self.old ≡ Recessive → level ≡ Recessive
            → result ≡ true }
        ensures inside { (l : List Bus) → self.old.stage ≡ StageInFrame → StandsFor (reader_of self.old) l
            → IsRightInside l level → (is_sending self.old ≡ true → level ≡ kept_level self.old) → result ≡ true }
    {
        if let Stage::InFrame = self.stage {
            self.frame_bit_quietly(level)
        } else if let Stage::BusIdle = self.stage {
            self.next.is_recessive() && level.is_recessive()
        } else {
            self.other_bit_quietly(level)
        }
    }

    /// A bit of a frame.
    #[inline(always)]
    fn frame_bit_quietly(&mut self, level: Level) -> bool
        ensures quiet { self.old.stage ≡ StageInFrame → result ≡ true
            → Samples self.old self.new level (nothing (is_receiving self.old)) }
        ensures shown { self.old.stage ≡ StageInFrame → result ≡ true → ShowsSame self.old self.new }
        ensures same { result ≡ false → self.new ≡ self.old }
        ensures inside { (l : List Bus) → self.old.stage ≡ StageInFrame → StandsFor (reader_of self.old) l
            → IsRightInside l level → (is_sending self.old ≡ true → level ≡ kept_level self.old) → result ≡ true }
    {
        match self.context.role {
            Role::Receiver => {
                if self.shift.take_inside(level) {
                    true
                } else {
                    self.receive_quietly(level)
                }
            }
            Role::Transmitter => {
                if level != self.next {
                    false
                } else if self.shift.take_inside(level) {
                    self.next = self.shift.next_of(&self.body);
                    true
                } else {
                    self.transmit_quietly()
                }
            }
        }
    }

    /// A receiver's bit past the stuffed part, but for its own acknowledgement where that counts or isn't seen, and the
    /// sixth bit of EOF.
    #[inline(never)]
    fn receive_quietly(&mut self, level: Level) -> bool
        ensures quiet { self.old.stage ≡ StageInFrame → self.old.context.role ≡ Receiver → result ≡ true
            → Samples self.old self.new level (nothing (is_receiving self.old)) }
        ensures shown { result ≡ true → ShowsSame self.old self.new }
        ensures same { result ≡ false → self.new ≡ self.old }
    {
        if self.acknowledgement_tells(level) || self.shift.frame_is_next() {
            return false;
        }
        if self.shift.take_past(level) {
            self.next = self.acknowledgement();
            true
        } else {
            false
        }
    }

    /// Whether the bit is the node's own acknowledgement and something happens in it: it isn't seen, or REC is above 0
    /// and steps down.
    #[inline(always)]
    fn acknowledgement_tells(&self, level: Level) -> bool
        ensures { result ≡ (not (is_recessive self.now.next)
            && (is_recessive level || nat_lt 0 self.now.context.counters.rec)) }
    {
        !self.next.is_recessive() && (level.is_recessive() || self.context.counters.rec > 0)
    }

    /// A transmitter's bit past the stuffed part that is seen as driven, but for the last one, and the ACK slot where
    /// that is an ACK error.
    #[inline(never)]
    fn transmit_quietly(&mut self) -> bool
        ensures quiet { self.old.stage ≡ StageInFrame → self.old.context.role ≡ Transmitter → result ≡ true
            → Samples self.old self.new self.old.next (nothing (is_receiving self.old)) }
        ensures shown { result ≡ true → ShowsSame self.old self.new }
        ensures same { result ≡ false → self.new ≡ self.old }
    {
        if self.shift.ack_is_due() && !self.context.self_test {
            return false;
        }
        if self.shift.take_past(self.next) {
            self.next = self.shift.next_of(&self.body);
            true
        } else {
            false
        }
    }

    /// A bit outside a frame, where the bus isn't idle: the level that the node drives is the same all along a piece.
    #[inline(never)]
    fn other_bit_quietly(&mut self, level: Level) -> bool
        ensures quiet { result ≡ true → Samples self.old self.new level (nothing (is_receiving self.old)) }
        ensures shown { result ≡ true → ShowsSame self.old self.new }
        ensures same { result ≡ false → self.new ≡ self.old }
    {
        match self.quiet_stage(level) {
            Some(stage) => {
                let phase = stage.phase();
                if phase != self.stage.phase() {
                    return false;
                }
                self.stage = stage;
                true
            }
            None => false,
        }
    }

    /// The stage to which a bit outside a frame leads, where its piece goes on and no counter may step.
    fn quiet_stage(&self, level: Level) -> Option<Stage>
        ensures turns { (stage : Stage) → result ≡ Some stage → TurnsQuietly self.now level stage }
        ensures outside { (stage : Stage) → result ≡ Some stage → is_outside self.now.stage ≡ true }
    {
        match self.stage {
            Stage::InReset => Some(Stage::InReset),
            Stage::Integrating { left, run } => {
                if run == 10 {
                    None
                } else {
                    after_integration_bit(left, run, level).stage()
                }
            }
            Stage::InFlag { bits, last } => {
                if self.context.ack_step_owed {
                    None
                } else {
                    self.after_flag_bit(bits, last, level).stage()
                }
            }
            Stage::InDelimiter {
                dominant,
                recessive,
            } => {
                if may_count(dominant, recessive, level) {
                    None
                } else {
                    after_delimiter_bit(dominant, recessive, level).stage()
                }
            }
            Stage::InInterframeSpace { bits } => after_interframe_bit(
                bits,
                self.context.owes_suspension(),
                level,
            ).stage(),
            Stage::BusIdle | Stage::InFrame | Stage::LastEofBit => None,
        }
    }
}

/// Whether a dominant level after a flag may be counted: the first one, or an eighth.
fn may_count(dominant: u8, recessive: u8, level: Level) -> bool
    ensures { result
        ≡ (not (is_recessive level) && ((dominant == 0 && recessive == 0) || (recessive == 0 && dominant == 7))) }
{
    !level.is_recessive() && (is_first(dominant, recessive) || is_eighth(dominant, recessive))
}
