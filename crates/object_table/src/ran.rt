//! What a run did.

ghost use Rattle.std.specs.Prelude.{◌≡◌, IfOk, MatchOption};
ghost use Rattle.jade_syntax.specs.Image.{program as abstracted};
ghost use Rattle.jade_meaning.specs.Answer.{Cells};
ghost use Rattle.jade_meaning.specs.Report.{report};
ghost use Rattle.jade_meaning.specs.Turns.{Full, turns_in};
ghost use Rattle.jade_meaning.specs.ReportAnswer.{report_answer};
ghost use Rattle.object_table.specs.Calls.{IsFault};

use jade_base::{CellLists, Memory, Report, TurnLists};
use jade_meaning::Plan;
use part_notes::Notes;
use schedule_core::reports::report_of;
use std::alloc::Global;
use std::marker::Model;

/// What a run did, to its end: the report, and the plan that it is of. `ObjectTable::finish` alone
/// makes one, and its report is the one that the meaning has for the plan's program, its numbers and
/// its limit by the report's own turns, which are full. Its parts are put in order only where the
/// report is asked for.
#[derive(Drop)]
pub struct Ran<'c> {
    pub(crate) objects: CellLists,
    pub(crate) turns: TurnLists,
    pub(crate) notes: Notes,
    pub(crate) plan: Plan<'c>,
}

impl<'c> Model for Ran<'c> {
    ghost use Rattle.std.specs.Prelude.{◌≡◌};
    ghost use Rattle.jade_meaning.specs.Turns.{Full, turns_in};
    ghost use Rattle.jade_syntax.specs.Image.{program as abstracted};
    ghost use Rattle.jade_meaning.specs.Report.{report as reported};
    ghost use Rattle.task_roll.specs.Rolls.{by_key};
    ghost use Rattle.schedule_core.specs.Reports.{told_of};
    ghost use Rattle.object_table.specs.Calls.{RanView};
    ghost use Rattle.object_table.specs.Encodings.{coded_ran};

    ghost Value = { RanView };

    ghost coded = { coded_ran };

    ghost view = { λ r. record { report = told_of r.objects r.turns (by_key r.notes); plan = r.plan } };

    ghost invariant = { λ r. (told_of r.objects r.turns (by_key r.notes)
        ≡ reported (abstracted r.plan.program) r.plan.numbers r.plan.limit (turns_in r.turns))
        × (Full (abstracted r.plan.program) r.plan.numbers r.plan.limit (turns_in r.turns)) };
}

impl<'c> Ran<'c> {
    /// The contents of the objects, where they are what the report tells, with so many steps allowed
    /// in all; `None` exactly where it tells a fault. It takes no memory.
    pub fn cells(&self, limit: u32) -> Option<&CellLists>
        ensures meaning { self.now.report
            ≡ report (abstracted self.now.plan.program) self.now.plan.numbers self.now.plan.limit (turns_in self.now.report.turns) }
        ensures full { Full (abstracted self.now.plan.program) self.now.plan.numbers self.now.plan.limit (turns_in self.now.report.turns) }
        ensures told { MatchOption result (IsFault (report_answer limit self.now.report)) (λ cells. report_answer limit self.now.report ≡ Cells cells.now) }
    {
        match self.notes.left_of(u64::from(limit)) {
            Some(_) => Some(&self.objects),
            None => None,
        }
    }

    /// The report: that of the meaning, for the plan's program, its numbers and its limit, by its own
    /// turns, which are full. The error is want of memory.
    pub fn report(self, alloc: Global) -> Result<Report, Memory>
        ensures is { IfOk result (λ r. r ≡ self.entry.report) }
        ensures meaning { IfOk result (λ r. r
            ≡ report (abstracted self.entry.plan.program) self.entry.plan.numbers self.entry.plan.limit (turns_in self.entry.report.turns)) }
        ensures full { IfOk result (λ r. Full (abstracted self.entry.plan.program) self.entry.plan.numbers self.entry.plan.limit (turns_in self.entry.report.turns)) }
    {
        let Ran {
            objects,
            turns,
            notes,
            plan: _,
        } = self;
        let notes = notes.into_vec(alloc)?;
        report_of(alloc, objects, turns, notes)
    }
}
