//! The plan and the report of a session of C.

ghost use Rattle.std.specs.Prelude.{◌≡◌, IfOk, IfErr, OnErr};
ghost use Rattle.sja_calls.specs.Texts.{Puts, IsNoReport, PutsPlanOf, IsPlanFault};
ghost use Rattle.text_report.specs.ReportLines.{report_text};

use super::call_fault::CallFault;
use super::handle::Handle;
use super::put_text::put_text;
use super::state::State;
use sja_log::RunLog;
use sja_plan::Plan;
use sja_plan_text::{PlanTextFault, has_texts, plan_text};
use sja_session::NoPlan;
use std::alloc::Global;
use std::mem::replace;
use text_report::report;

impl Handle {
    ghost use Rattle.std.specs.Prelude.{◌≡◌, IfOk, IfErr, OnErr};
    ghost use Rattle.sja_calls.specs.Texts.{Ends, PutsReport, IsReportFault, PutsPlan, IsNoPlanText};

    /// Ends the session, and puts its report into a text, with a NUL at its end. It gives the length without it.
    ///
    /// Errors: [`CallFault::Endless`], and the session goes on; [`CallFault::NoRoom`], with the size that it needs;
    /// [`CallFault::Memory`]. Where a session with an end was going on it has ended then too; the text stays as it was.
    pub fn report(&mut self, text: &mut [u8]) -> Result<usize, CallFault>
        ensures ends { Ends self.old.state self.new.state }
        ensures puts { IfOk result (PutsReport self.new.state text.old text.new) }
        ensures err { IfErr result (IsReportFault self.new.state text.old) }
        ensures kept { OnErr result (text.new ≡ text.old) }
    {
        let alloc = self.alloc;
        self.end(alloc);
        match &self.state {
            State::Ended(_, log) => put_report(alloc, log, text),
            State::Going(_) => Err(CallFault::Endless),
            State::Lost => Err(CallFault::Memory),
        }
    }

    /// Puts the plan that the session wrote so far into a text, as a document, with a NUL at its end. It gives the
    /// length without it.
    ///
    /// Errors, and nothing changed: [`CallFault::Endless`]; [`CallFault::NoDocument`] where no document says the plan,
    /// or it would be too long; [`CallFault::NoRoom`], with the size that it needs; [`CallFault::Memory`].
    pub fn plan(&self, text: &mut [u8]) -> Result<usize, CallFault>
        ensures puts { IfOk result (PutsPlan self.now.state text.old text.new) }
        ensures err { IfErr result (IsNoPlanText self.now.state text.old) }
        ensures kept { OnErr result (text.new ≡ text.old) }
    {
        match &self.state {
            State::Going(session) => match session.plan(self.alloc) {
                Ok(plan) => put_plan(self.alloc, &plan, text),
                Err(NoPlan::Endless) => Err(CallFault::Endless),
                Err(NoPlan::Memory) => Err(CallFault::Memory),
            },
            State::Ended(plan, _) => put_plan(self.alloc, plan, text),
            State::Lost => Err(CallFault::Memory),
        }
    }

    /// Ends the session, where it has an end. Where memory is refused it is lost.
    fn end(&mut self, alloc: Global)
        ensures ends { Ends self.old.state self.new.state }
    {
        if let State::Going(session) = &self.state {
            if session.is_endless() {
                return;
            }
        }
        match replace(&mut self.state, State::Lost) {
            State::Going(session) => {
                if let Ok((plan, log)) = session.finish(alloc) {
                    self.state = State::Ended(plan, log);
                }
            }
            State::Ended(plan, log) => self.state = State::Ended(plan, log),
            State::Lost => {}
        }
    }
}

/// Puts the report of a log into a text.
fn put_report(alloc: Global, log: &RunLog, text: &mut [u8]) -> Result<usize, CallFault>
    ensures puts { IfOk result (Puts (report_text log.now) text.old text.new) }
    ensures err { IfErr result (IsNoReport log.now text.old) }
    ensures kept { OnErr result (text.new ≡ text.old) }
{
    match report(alloc, log) {
        Ok(all) => put_text(all.as_bytes(), text),
        Err(_) => Err(CallFault::Memory),
    }
}

/// Puts a plan into a text, as a document.
fn put_plan(alloc: Global, plan: &Plan, text: &mut [u8]) -> Result<usize, CallFault>
    ensures puts { IfOk result (PutsPlanOf plan.now text.old text.new) }
    ensures err { IfErr result (IsPlanFault plan.now text.old) }
    ensures kept { OnErr result (text.new ≡ text.old) }
{
    if !has_texts(plan) {
        return Err(CallFault::NoDocument);
    }
    match plan_text(alloc, plan) {
        Ok(document) => put_text(document.as_bytes(), text),
        Err(PlanTextFault::TooLong) => Err(CallFault::NoDocument),
        Err(PlanTextFault::NoMemory) => Err(CallFault::Memory),
    }
}
