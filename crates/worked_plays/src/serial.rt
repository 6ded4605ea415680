//! Whether the serial runs come to what was played, by turns in the order of creation.

ghost use Rattle.std.specs.Prelude.{◌≡◌, ◌≤◌, length};
ghost use Rattle.jade_syntax.specs.Objects.{input_names};

use crate::text::{fault_text, objects_text, report_text, turns_text};
use code_keeps::Compiled;
use fault_order::{first, key_is_before, limit_place};
use jade_base::{Blame, FaultKind, Report};
use jade_meaning::serial_run;
use jade_syntax::Checked;
use serial_machine::{RunAnswer, run_serial};
use std::alloc::Global;
use task_codegen::compile;
use worked_case::Stop;

/// The blame of a task whose part passes the limit.
const LIMIT: Blame = Blame {
    kind: FaultKind::Limit,
    pos: None,
};

/// The answer that a report tells.
fn told_text(
    alloc: Global,
    checked: &Checked,
    report: &Report,
    limit: u32,
) -> Result<String, Stop> {
    match (first(&report.faults), limit_place(&report.steps, limit)) {
        (None, None) => objects_text(alloc, checked, &report.objects),
        (Some(fault), None) => fault_text(alloc, &fault.path, fault.blame),
        (None, Some(part)) => fault_text(alloc, &part.path, LIMIT),
        (Some(fault), Some(part)) => {
            if key_is_before(&fault.path, fault.children, &part.path, part.children) {
                fault_text(alloc, &fault.path, fault.blame)
            } else {
                fault_text(alloc, &part.path, LIMIT)
            }
        }
    }
}

/// An answer.
fn answer_text(alloc: Global, checked: &Checked, answer: &RunAnswer) -> Result<String, Stop> {
    match answer {
        RunAnswer::Fault(path, blame) => fault_text(alloc, path, *blame),
        RunAnswer::Objects(objects) => objects_text(alloc, checked, objects),
    }
}

/// Whether the plain serial run reports the same as was played, and the run of the code up to the
/// answer comes to the one that the report tells. Both take the turns in the order of creation, and
/// say nothing of a play that took others.
pub(crate) fn agrees(
    alloc: Global,
    checked: Checked,
    numbers: &[i64],
    limit: u32,
    report: &Report,
) -> Result<bool, Stop>
    requires given { length numbers.now ≡ length (input_names checked.program.items) }
    requires limit { 1 ≤ limit }
{
    let serial = serial_run(alloc, &checked, numbers, limit)?;
    let turns = turns_text(alloc, &checked, &serial.turns)?;
    if turns != turns_text(alloc, &checked, &report.turns)? {
        return Ok(true);
    }
    let reported = report_text(alloc, &checked, &serial)?;
    if reported != report_text(alloc, &checked, report)? {
        return Ok(false);
    }
    let compiled = compile(alloc, checked)?;
    let answered = code_text(alloc, &compiled, numbers, limit)?;
    Ok(answered == told_text(alloc, compiled.checked(), report, limit)?)
}

/// The text of the answer to which the code was run.
fn code_text(
    alloc: Global,
    compiled: &Compiled,
    numbers: &[i64],
    limit: u32,
) -> Result<String, Stop>
    requires { length numbers.now ≡ length (input_names compiled.now.program.items) }
{
    let answer = run_serial(alloc, compiled, numbers, limit)?;
    answer_text(alloc, compiled.checked(), &answer)
}
