//! What a text comes to whose run is recorded.

ghost use Rattle.std.specs.Prelude.{◌≡◌, ◌<◌, ◌≤◌, length, slice_get, true, IfOk, Some};
ghost use Rattle.std.specs.List.{list_all};
ghost use Rattle.jade_syntax.specs.Image.{program};
ghost use Rattle.jade_syntax.specs.Objects.{input_names};
ghost use Rattle.jade_meaning.specs.Report.{report as reported};
ghost use Rattle.jade_meaning.specs.Turns.{Full, turns_in};
ghost use Rattle.number_words.specs.Numbers.{is_number};
ghost use Rattle.jade_run.specs.Answered.{BySomeTurns, IsGood};
ghost use Rattle.jade_run.specs.Outcome.{IsCrew};
ghost use Rattle.jade_run.specs.Recordings.{IsRecordingOf};
ghost use Rattle.jade_run.specs.steps.Homes.{home_of};
ghost use Rattle.jade_run.specs.steps.Recording.{IsKeptRun, IsKeptText, IsWrittenAs};

use crate::Status;
use crate::answer::{Answer, Ready, prepare};
use crate::run::answer_of;
use crate::standing::Home;
use crate::witness::Witness;
use jade_base::{Memory, Numbers, Report, Word};
use jade_meaning::laws::{report_ascends, report_tells};
use jade_reading::laws::read_is_shaped;
use jade_syntax::Checked;
use record_parts::laws::turns_are_rooted;
use record_parts::{labelled, lines_of};
use run_record::{Record, RecordError, write_record};
use std::alloc::Global;
use std::sync::Wait;
use std::thread::Threads;
use steal_workers::{Gate, run_tasks};
use task_codegen::compile;

/// One of the numbers.
fn number_at(numbers: &[i64], place: usize) -> i64
    requires { place < length numbers.now }
    ensures { slice_get numbers.now place ≡ Some result }
{
    numbers[place]
}

/// Goes over numbers, each of which has 64 bits with its sign.
fn fit(numbers: &[i64])
    ensures { list_all is_number numbers.now ≡ true }
{
    for i in 0..numbers.len() {
        number_at(numbers, i);
    }
}

/// The same numbers once more.
fn copied(alloc: Global, numbers: &[i64]) -> Result<Numbers, Memory>
    ensures { IfOk result (λ copies. copies ≡ numbers.now) }
{
    let mut copies = Numbers::empty(alloc);
    for i in 0..numbers.len() {
        if copies.push(number_at(numbers, i)).is_err() {
            return Err(Memory);
        }
    }
    Ok(copies)
}

/// What a recording is answered with: its text, or that it would be too long.
fn written(alloc: Global, kept: &Record) -> Result<Answer, Memory>
    ensures { IfOk result (λ a. IsWrittenAs kept.now a.text.items a.status) }
{
    match write_record(alloc, kept) {
        Ok(text) => Ok(Answer {
            text,
            status: Status::Good,
        }),
        Err(RecordError::Long) => Ok(Answer {
            text: Vec::from_slice(alloc, b"record: long\n")?,
            status: Status::Replay,
        }),
        Err(RecordError::Memory) => Err(Memory),
    }
}

/// The recording of a run, of which the report tells the answer and the turns.
fn record_of(
    alloc: Global,
    checked: &Checked,
    home: &Home,
    text: &[u8],
    numbers: &[i64],
    limit: u32,
    report: &Report,
) -> Result<Record, Memory>
    requires within { length text.now ≤ 1048576 }
    requires good { IsGood text.now checked.now.program (home_of home.now) }
    requires some { 1 ≤ limit }
    requires few { length numbers.now ≤ 64 }
    requires meaning { report.now ≡ reported (program checked.now.program) numbers.now limit (turns_in report.now.turns) }
    requires full { Full (program checked.now.program) numbers.now limit (turns_in report.now.turns) }
    ensures { IfOk result (IsRecordingOf text.now checked.now.program (home_of home.now) numbers.now limit (turns_in report.now.turns)) }
{
    report_ascends();
    report_tells();
    turns_are_rooted();
    read_is_shaped();
    fit(numbers);
    checked.program();
    let answer = answer_of(alloc, checked, home, report, limit)?;
    let lines = lines_of(alloc, answer.text.as_slice())?;
    let turns = labelled(alloc, checked, &report.turns)?;
    let given = copied(alloc, numbers)?;
    let source = Word::of(alloc, text)?;
    Ok(Record {
        limit,
        numbers: given,
        turns,
        answer: lines,
        text: source,
    })
}

/// What a program comes to with these numbers, where so many workers run its tasks and the run is
/// recorded. The witness is shown what the run did.
fn record_by_workers<R: Threads + Wait + Sync, G: Gate, W: Witness>(
    rt: &R,
    alloc: Global,
    checked: Checked,
    home: &Home,
    text: &[u8],
    numbers: &[i64],
    workers: u32,
    limit: u32,
    gate: &G,
    witness: &mut W,
) -> Result<Answer, Memory>
    requires within { length text.now ≤ 1048576 }
    requires good { IsGood text.now checked.program (home_of home.now) }
    requires given { length numbers.now ≡ length (input_names checked.program.items) }
    requires crew { IsCrew workers }
    requires some { 1 ≤ limit }
    requires few { length numbers.now ≤ 64 }
    ensures { IfOk result (λ a. BySomeTurns
        (λ turns. IsKeptRun text.now checked.program (home_of home.now) numbers.now limit turns a.text.items a.status (W.seen witness.old) (W.seen witness.new))) }
{
    let compiled = compile(alloc, checked)?;
    let ran = run_tasks(rt, alloc, &compiled, numbers, workers, limit, gate)?;
    witness.see(&ran);
    let report = ran.report(alloc)?;
    let kept = record_of(
        alloc,
        compiled.checked(),
        home,
        text,
        numbers,
        limit,
        &report,
    )?;
    let answer = written(alloc, &kept)?;
    Ok(answer)
}

/// What a text of at most 1,048,576 bytes comes to whose run by so many workers with these numbers
/// and a limit is recorded. The witness is shown the run, where the text comes to an answer.
pub fn record_text<R: Threads + Wait + Sync, G: Gate, W: Witness>(
    rt: &R,
    alloc: Global,
    text: &[u8],
    numbers: &[i64],
    workers: u32,
    limit: u32,
    gate: &G,
    witness: &mut W,
) -> Result<Answer, Memory>
    requires crew { IsCrew workers }
    requires some { 1 ≤ limit }
    requires within { length text.now ≤ 1048576 }
    requires few { length numbers.now ≤ 64 }
    ensures { IfOk result (λ a. BySomeTurns
        (λ turns. IsKeptText text.now numbers.now limit turns a.text.items a.status (W.seen witness.old) (W.seen witness.new))) }
{
    let ready = prepare(alloc, text, numbers)?;
    match ready {
        Ready::Program(checked, home) => record_by_workers(
            rt, alloc, checked, &home, text, numbers, workers, limit, gate, witness,
        ),
        Ready::Answered(answer) => Ok(answer),
    }
}
