//! What a drill comes to: a program that is made from a number of tasks, run, and told by a sum.

ghost use Rattle.std.specs.Prelude.{◌≡◌, ◌≤◌, [], length, IfOk};
ghost use Rattle.std.specs.List.{sum_by};
ghost use Rattle.jade_syntax.specs.Image.{program};
ghost use Rattle.jade_syntax.specs.Objects.{input_names};
ghost use Rattle.jade_meaning.specs.Report.{report};
ghost use Rattle.jade_meaning.specs.ReportAnswer.{report_answer};
ghost use Rattle.jade_meaning.specs.Turns.{Full, turns_in};
ghost use Rattle.jade_run.specs.Answered.{BySomeTurns};
ghost use Rattle.jade_run.specs.Outcome.{IsCrew};
ghost use Rattle.jade_meaning.specs.Moved.{moved_answer};
ghost use Rattle.jade_run.specs.steps.Homes.{home_of};
ghost use Rattle.jade_run.specs.steps.Drilling.{IsDrillOf, IsRunDrill, ShowsSum};

use crate::answer::{Answer, Ready, prepare};
use crate::laws::drills_are_plain;
use crate::run::answer_of;
use crate::standing::Home;
use crate::sums::total;
use crate::witness::Witness;
use crate::{Status, texts};
use jade_base::Memory;
use jade_gen::drill_text;
use jade_meaning::laws::{report_ascends, report_tells, runs_plainly, without_cm};
use jade_syntax::Checked;
use object_table::Ran;
use std::alloc::Global;
use std::sync::Wait;
use std::thread::Threads;
use steal_workers::{Gate, run_tasks};
use task_codegen::compile;

/// The most steps of a drill: the greatest limit.
const MOST_STEPS: u32 = u32::MAX;

/// What the run of a drill is answered with: a fault as that of any run, or else the sum of all cells.
fn sum_of_run(
    alloc: Global,
    checked: &Checked,
    home: &Home,
    tasks: u32,
    ran: Ran<'_>,
) -> Result<Answer, Memory>
    requires few { sum_by length (report (program ran.plan.program) ran.plan.numbers ran.plan.limit (turns_in ran.report.turns)).objects ≤ 1048576 }
    ensures full { IfOk result (λ _. Full (program ran.entry.plan.program) ran.entry.plan.numbers ran.entry.plan.limit (turns_in ran.entry.report.turns)) }
    ensures shows { IfOk result (λ a. ShowsSum (program checked.now.program) tasks
        (moved_answer (home_of home.now)
        (report_answer 4294967295 (report (program ran.entry.plan.program) ran.entry.plan.numbers ran.entry.plan.limit (turns_in ran.entry.report.turns))))
        a.text.items a.status) }
{
    match ran.cells(MOST_STEPS) {
        Some(cells) => {
            return Ok(Answer {
                text: texts::drilled(alloc, tasks, total(cells))?,
                status: Status::Good,
            });
        }
        None => {}
    }
    report_ascends();
    let report = ran.report(alloc)?;
    answer_of(alloc, checked, home, &report, MOST_STEPS)
}

/// What the program of a drill comes to, where so many workers run its tasks. The witness is shown
/// what the run did.
fn drill_checked<R: Threads + Wait + Sync, G: Gate, W: Witness>(
    rt: &R,
    alloc: Global,
    checked: Checked,
    home: &Home,
    tasks: u32,
    workers: u32,
    gate: &G,
    witness: &mut W,
) -> Result<Answer, Memory>
    requires given { 0 ≡ length (input_names checked.program.items) }
    requires crew { IsCrew workers }
    ensures { IfOk result (λ a. BySomeTurns
        (λ turns. IsDrillOf checked.program (home_of home.now) tasks turns a.text.items a.status (W.seen witness.old) (W.seen witness.new))) }
{
    report_tells();
    let compiled = compile(alloc, checked)?;
    let ran = run_tasks(rt, alloc, &compiled, &[], workers, MOST_STEPS, gate)?;
    witness.see(&ran);
    let seen = compiled.checked();
    let _program = seen.program();
    let answer = sum_of_run(alloc, seen, home, tasks, ran)?;
    Ok(answer)
}

/// What a drill of so many tasks comes to, where so many workers run them. The witness is shown the
/// run, where it comes to an answer.
pub fn run_drill<R: Threads + Wait + Sync, G: Gate, W: Witness>(
    rt: &R,
    alloc: Global,
    tasks: u32,
    workers: u32,
    gate: &G,
    witness: &mut W,
) -> Result<Answer, Memory>
    requires amount { (1 ≤ tasks) × (tasks ≤ 10000) }
    requires crew { IsCrew workers }
    ensures { IfOk result (λ a. BySomeTurns
        (λ turns. IsRunDrill tasks turns a.text.items a.status (W.seen witness.old) (W.seen witness.new))) }
{
    drills_are_plain();
    without_cm();
    runs_plainly();
    let text = drill_text(alloc, tasks)?;
    let ready = prepare(alloc, &text, &[])?;
    match ready {
        Ready::Program(checked, home) => {
            drill_checked(rt, alloc, checked, &home, tasks, workers, gate, witness)
        }
        Ready::Answered(answer) => Ok(answer),
    }
}
