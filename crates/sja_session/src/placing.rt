//! The bits of a session up to a place of a frame.

use super::place_outcome::PlaceOutcome;
use super::place_refusal::PlaceRefusal;
use super::session::Session;
use super::turns::note_bits;
use sja_plan::Place;

impl Session {
    ghost use Rattle.std.specs.Prelude.{◌≡◌, ◌<◌, ◌≤◌, None, List, IfOk, IfErr, OnOk, OnErr, length};
    ghost use Rattle.sja_driver.specs.StepRuns.{StepRun};
    ghost use Rattle.sja_serial.specs.SerialPlaces.{IsPlace};
    ghost use Rattle.sja_session.specs.SessionPlaces.{RunsTo, MayRunTo, IsPlaceRefusal};
    ghost use Rattle.sja_session.specs.Sessions.{IsAt};
    ghost use Rattle.sja_bus_rules.specs.Wire.{journal_at};

    /// At which place of a frame the next bit of a node, counted from 0, is: of one that it sends, or of one that it
    /// receives, as far as it has read it. It is that of the cut of its record. None where it's at none of them, or
    /// there is no such node.
    pub fn place(&self, node: u8) -> Option<Place>
        ensures place { node < length self.now.plan.nodes → IsPlace (journal_at self.now.run.bus.journals node) result }
        ensures none { length self.now.plan.nodes ≤ node → result ≡ None }
    {
        if usize::from(node) >= self.plan.nodes() {
            return None;
        }
        self.run.place(node)
    }

    /// Runs bits up to the one before which the next bit of a node, counted from 0, is at this place, so many at most,
    /// and as many as are left; none where it is there already. A strike of the node in the next bit strikes
    /// it there then. It says how many were run, and whether the node came there.
    ///
    /// Errors, the first that holds, and nothing changed: [`PlaceRefusal::NoNode`] where there is no such node;
    /// [`PlaceRefusal::TurnsUsed`] where [`bits`](Session::bits) would refuse so many.
    pub fn to_place(
        &mut self,
        node: u8,
        place: Place,
        limit: u32,
    ) -> Result<PlaceOutcome, PlaceRefusal>
        ensures runs { IfOk result (λ r. (step_runs : List (List StepRun)) → IsAt self.old step_runs →
            RunsTo self.old self.new node place limit r.bits r.there step_runs) }
        ensures may { OnOk result (MayRunTo self.old node limit) }
        ensures err { IfErr result (IsPlaceRefusal self.old node limit) }
        ensures kept { OnErr result (self.new ≡ self.old) }
    {
        if usize::from(node) >= self.plan.nodes() {
            return Err(PlaceRefusal::NoNode);
        }
        if self.lacks_bus_turn(limit) {
            return Err(PlaceRefusal::TurnsUsed);
        }
        let noted = !self.is_endless();
        let (bits, there) = self.run.place_turn(node, place, limit);
        note_bits(&mut self.turns, noted, bits);
        Ok(PlaceOutcome { bits, there })
    }
}
