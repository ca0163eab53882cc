//! The interrupt lines of a session's controllers.

ghost use Rattle.std.specs.Prelude.{◌≡◌, ◌+◌, ◌*◌, ◌<◌, if◌then◌else◌};

use super::session::Session;

impl Session {
    ghost use Rattle.std.specs.Prelude.{◌≡◌, ◌<◌, ◌≤◌, List, length, IfSome, OnSome, IfNone};
    ghost use Rattle.sja_driver.specs.StepRuns.{StepRun};
    ghost use Rattle.sja_session.specs.Lines.{Looks, AreLines, IsStill, line_at};
    ghost use Rattle.sja_session.specs.Sessions.{IsAt};

    /// Whether the interrupt line of a node, counted from 0, is active: some bit of IR is 1, as a read of it would
    /// answer now (SJA1000 data sheet, 6.4.6). None where there is no such node.
    ///
    /// It is no step: it clears nothing, no bit is run, and the plan stays as it is. What has come for the driver is
    /// taken in first, as a read does.
    pub fn irq(&mut self, node: u8) -> Option<bool>
        ensures line { IfSome result (λ line. (step_runs : List (List StepRun)) → IsAt self.old step_runs →
            Looks self.old self.new node line step_runs) }
        ensures there { OnSome result (node < length self.old.plan.nodes) }
        ensures none { IfNone result (length self.old.plan.nodes ≤ node) }
        ensures nodes { length self.new.plan.nodes ≡ length self.old.plan.nodes }
        ensures kept { IfNone result (self.new ≡ self.old) }
    {
        if usize::from(node) >= self.plan.nodes() {
            return None;
        }
        Some(self.run.irq(node))
    }
    /// Which interrupt lines are active: bit K is 1 where node K is there and its line is active, as
    /// [`irq`](Session::irq) tells it. It clears nothing, and no more happens than by `irq`.
    pub fn lines(&mut self) -> u8
        ensures lines { (step_runs : List (List StepRun)) → IsAt self.old step_runs →
            AreLines self.old step_runs result }
        ensures still { (step_runs : List (List StepRun)) → IsAt self.old step_runs →
            IsStill self.old self.new step_runs }
        ensures nodes { length self.new.plan.nodes ≡ length self.old.plan.nodes }
    {
        let nodes = self.nodes() as u8;
        let mut lines = 0u8;
        for place in 0..nodes {
            let line = self.is_active(nodes - 1 - place);
            lines = with_line(lines, line);
        }
        lines
    }

    /// Whether the interrupt line of a node is active; not, where there is no such node.
    fn is_active(&mut self, node: u8) -> bool
        ensures line { (step_runs : List (List StepRun)) → IsAt self.old step_runs → node < length self.old.plan.nodes →
            result ≡ line_at self.old step_runs node }
        ensures still { (step_runs : List (List StepRun)) → IsAt self.old step_runs →
            IsStill self.old self.new step_runs }
        ensures nodes { length self.new.plan.nodes ≡ length self.old.plan.nodes }
    {
        match self.irq(node) {
            Some(line) => line,
            None => false,
        }
    }
}

/// Lines, with the one in front of them, as the lowest bit.
fn with_line(lines: u8, line: bool) -> u8
    requires { lines < 128 }
    ensures { result ≡ (if line then 1 else 0) + 2 * lines }
{
    if line { 2 * lines + 1 } else { 2 * lines }
}
