//! What a program comes to where it is run: by workers, or serially.

ghost use Rattle.std.specs.Prelude.{◌≡◌, ◌≤◌, length, map, IfOk, MatchOption};
ghost use Rattle.std.specs.Option.{option_copied};
ghost use Rattle.jade_syntax.specs.Image.{program};
ghost use Rattle.jade_syntax.specs.Objects.{input_names};
ghost use Rattle.jade_meaning.specs.Answer.{answer, Faulted, Cells};
ghost use Rattle.jade_meaning.specs.Report.{Ascends, report};
ghost use Rattle.jade_meaning.specs.ReportAnswer.{report_answer, first_note, step_over};
ghost use Rattle.jade_meaning.specs.Turns.{Full, in_order, turns_in};
ghost use Rattle.serial_machine.specs.Answers.{told};
ghost use Rattle.jade_run.specs.Answered.{fault_key, BySomeTurns, IsAnswered, Shows};
ghost use Rattle.jade_run.specs.Outcome.{IsCrew};
ghost use Rattle.jade_meaning.specs.Moved.{moved_answer};
ghost use Rattle.jade_run.specs.steps.Homes.{home_of};
ghost use Rattle.jade_run.specs.steps.Ending.{IsRunOf, IsRunText};

use crate::answer::{Answer, Ready, prepare};
use crate::standing::Home;
use crate::witness::Witness;
use crate::{Status, texts};
use fault_order::{first, key_is_before, limit_place};
use jade_base::{
    Blame, FaultKind, FaultNote, FaultNotes, Memory, PartStep, PartSteps, Path, Report,
};
use jade_meaning::laws::{report_ascends, report_tells};
use jade_syntax::Checked;
use object_table::Ran;
use serial_machine::{RunAnswer, run_serial};
use std::alloc::Global;
use std::sync::Wait;
use std::thread::Threads;
use steal_workers::{Gate, run_tasks};
use task_codegen::compile;

/// The blame of a task whose part passes the limit.
const LIMIT: Blame = Blame {
    kind: FaultKind::Limit,
    pos: None,
};

/// The answer that a report tells: the task that faults first and why, or nothing where the
/// objects are the answer.
pub(crate) fn fault_of(report: &Report, limit: u32) -> Option<(&Path, Blame)>
    requires { Ascends (map fault_key report.now.faults) }
    ensures { MatchOption result (report_answer limit report.now ≡ Cells report.now.objects) (λ f. report_answer limit report.now ≡ Faulted f.0.now f.1) }
{
    match (
        first_fault(&report.faults),
        place_of_limit(&report.steps, limit),
    ) {
        (None, None) => None,
        (Some(fault), None) => Some((&fault.path, fault.blame)),
        (None, Some(part)) => Some((&part.path, LIMIT)),
        (Some(fault), Some(part)) => {
            if key_is_before(&fault.path, fault.children, &part.path, part.children) {
                Some((&fault.path, fault.blame))
            } else {
                Some((&part.path, LIMIT))
            }
        }
    }
}

/// The first fault of a report.
fn first_fault(notes: &FaultNotes) -> Option<&FaultNote>
    requires { Ascends (map fault_key notes.now) }
    ensures { option_copied result ≡ first_note notes.now }
{
    first(notes)
}

/// The part of a report in which the steps pass the limit.
fn place_of_limit(steps: &PartSteps, limit: u32) -> Option<&PartStep>
    ensures { option_copied result ≡ step_over limit steps.now }
{
    limit_place(steps, limit)
}

/// What a report is answered with.
pub(crate) fn answer_of(
    alloc: Global,
    checked: &Checked,
    home: &Home,
    report: &Report,
    limit: u32,
) -> Result<Answer, Memory>
    requires { Ascends (map fault_key report.now.faults) }
    ensures { IfOk result (λ a. Shows (program checked.now.program) (moved_answer (home_of home.now) (report_answer limit report.now)) a.text.items a.status) }
{
    match fault_of(report, limit) {
        Some((path, blame)) => Ok(Answer {
            text: texts::fault(alloc, path, home.blame(blame))?,
            status: Status::Fault,
        }),
        None => Ok(Answer {
            text: texts::objects(alloc, checked, &report.objects)?,
            status: Status::Good,
        }),
    }
}

/// What a run is answered with, of which the report tells the answer. It is put in order only where it
/// tells a fault.
fn answer_of_run(
    alloc: Global,
    checked: &Checked,
    home: &Home,
    ran: Ran<'_>,
    limit: u32,
) -> Result<Answer, Memory>
    ensures full { IfOk result (λ _. Full (program ran.entry.plan.program) ran.entry.plan.numbers ran.entry.plan.limit (turns_in ran.entry.report.turns)) }
    ensures shows { IfOk result (λ a. Shows (program checked.now.program)
        (moved_answer (home_of home.now)
        (report_answer limit (report (program ran.entry.plan.program) ran.entry.plan.numbers ran.entry.plan.limit (turns_in ran.entry.report.turns))))
        a.text.items a.status) }
{
    match ran.cells(limit) {
        Some(cells) => {
            return Ok(Answer {
                text: texts::objects(alloc, checked, cells)?,
                status: Status::Good,
            });
        }
        None => {}
    }
    report_ascends();
    let report = ran.report(alloc)?;
    answer_of(alloc, checked, home, &report, limit)
}

/// What an answer is written as.
fn shown(
    alloc: Global,
    checked: &Checked,
    home: &Home,
    answer: &RunAnswer,
) -> Result<Answer, Memory>
    ensures { IfOk result (λ a. Shows (program checked.now.program) (moved_answer (home_of home.now) (told answer.now)) a.text.items a.status) }
{
    match answer {
        RunAnswer::Fault(path, blame) => {
            let status = Status::Fault;
            let text = texts::fault(alloc, path, home.blame(*blame))?;
            Ok(Answer { text, status })
        }
        RunAnswer::Objects(cells) => Ok(Answer {
            text: texts::objects(alloc, checked, cells)?,
            status: Status::Good,
        }),
    }
}

/// What a program comes to with these numbers, where so many workers run its tasks, by the turns
/// that the tasks took which commute. The witness is shown what the run did.
fn run_by_workers<R: Threads + Wait + Sync, G: Gate, W: Witness>(
    rt: &R,
    alloc: Global,
    checked: Checked,
    home: &Home,
    numbers: &[i64],
    workers: u32,
    limit: u32,
    gate: &G,
    witness: &mut W,
) -> Result<Answer, Memory>
    requires given { length numbers.now ≡ length (input_names checked.program.items) }
    requires crew { IsCrew workers }
    ensures { IfOk result (λ a. BySomeTurns
        (λ turns. IsRunOf checked.program (home_of home.now) numbers.now limit turns a.text.items a.status (W.seen witness.old) (W.seen witness.new))) }
{
    report_tells();
    let compiled = compile(alloc, checked)?;
    let ran = run_tasks(rt, alloc, &compiled, numbers, workers, limit, gate)?;
    witness.see(&ran);
    let answer = answer_of_run(alloc, compiled.checked(), home, ran, limit)?;
    Ok(answer)
}

/// What a program comes to with these numbers: its code is run serially, up to where the answer is
/// known. The tasks that commute take their turns in the order of creation.
fn run_serially(
    alloc: Global,
    checked: Checked,
    home: &Home,
    numbers: &[i64],
    limit: u32,
) -> Result<Answer, Memory>
    requires { length numbers.now ≡ length (input_names checked.program.items) }
    ensures { IfOk result (λ a. Shows (program checked.program) (moved_answer (home_of home.now) (answer (program checked.program) numbers.now limit in_order)) a.text.items a.status) }
{
    let compiled = compile(alloc, checked)?;
    let answer = run_serial(alloc, &compiled, numbers, limit)?;
    let text = shown(alloc, compiled.checked(), home, &answer)?;
    Ok(text)
}

/// What a text of at most 1,048,576 bytes comes to, run by so many workers with these numbers and a
/// limit. The witness is shown the run, where the text comes to an answer.
pub fn run_text<R: Threads + Wait + Sync, G: Gate, W: Witness>(
    rt: &R,
    alloc: Global,
    text: &[u8],
    numbers: &[i64],
    workers: u32,
    limit: u32,
    gate: &G,
    witness: &mut W,
) -> Result<Answer, Memory>
    requires crew { IsCrew workers }
    requires some { 1 ≤ limit }
    requires within { length text.now ≤ 1048576 }
    requires few { length numbers.now ≤ 64 }
    ensures { IfOk result (λ a. BySomeTurns
        (λ turns. IsRunText text.now numbers.now limit turns a.text.items a.status (W.seen witness.old) (W.seen witness.new))) }
{
    let ready = prepare(alloc, text, numbers)?;
    match ready {
        Ready::Program(checked, home) => run_by_workers(
            rt, alloc, checked, &home, numbers, workers, limit, gate, witness,
        ),
        Ready::Answered(answer) => Ok(answer),
    }
}

/// What a text of at most 1,048,576 bytes comes to, run serially with these numbers and a limit.
pub fn serial_text(
    alloc: Global,
    text: &[u8],
    numbers: &[i64],
    limit: u32,
) -> Result<Answer, Memory>
    requires some { 1 ≤ limit }
    requires within { length text.now ≤ 1048576 }
    requires few { length numbers.now ≤ 64 }
    ensures { IfOk result (λ a. IsAnswered text.now numbers.now limit in_order a.text.items a.status) }
{
    let ready = prepare(alloc, text, numbers)?;
    match ready {
        Ready::Program(checked, home) => run_serially(alloc, checked, &home, numbers, limit),
        Ready::Answered(answer) => Ok(answer),
    }
}
