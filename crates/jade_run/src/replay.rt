//! What a recording comes to that is replayed.

ghost use Rattle.std.specs.Prelude.{◌≡◌, ◌≤◌, ◌↔◌, length, IfOk, IfSome, IsTrue};
ghost use Rattle.jade_syntax.specs.Image.{program};
ghost use Rattle.jade_syntax.specs.Objects.{sizes};
ghost use Rattle.jade_meaning.specs.Report.{report as reported};
ghost use Rattle.jade_meaning.specs.Turns.{Full, turns_in};
ghost use Rattle.record_parts.specs.Named.{AreNamed};
ghost use Rattle.jade_run.specs.Recordings.{IsReplayed, Plays};
ghost use Rattle.jade_run.specs.steps.Homes.{home_of};
ghost use Rattle.jade_run.specs.steps.Recording.{IsCompared};
ghost use Rattle.jade_run.specs.Texts.{form_text, no_turns_text};

use crate::answer::{Answer, Ready, prepare};
use crate::run::answer_of;
use crate::standing::Home;
use crate::{Status, texts};
use code_keeps::Compiled;
use jade_base::{Memory, PathList, Report, TurnLists};
use jade_meaning::laws::{report_ascends, report_tells};
use jade_reading::laws::read_is_shaped;
use jade_syntax::Checked;
use record_parts::{are_lines, turn_lists};
use run_record::{ReadError, Record, read_record};
use run_replay::{FollowError, follow};
use std::alloc::Global;
use std::sync::Wait;
use std::thread::Threads;
use steal_workers::{EmptyGate, run_tasks};
use task_codegen::compile;

/// What bytes are answered with of which this line is the first that breaks the form.
fn formless(alloc: Global, line: u32) -> Result<Answer, Memory>
    ensures { IfOk result (λ a. (a.text.items ≡ form_text line) × (a.status ≡ Status.Replay)) }
{
    Ok(Answer {
        text: texts::form(alloc, line)?,
        status: Status::Replay,
    })
}

/// What a recording is answered with whose turns are those of no run of its program.
fn turnless(alloc: Global) -> Result<Answer, Memory>
    ensures { IfOk result (λ a. (a.text.items ≡ no_turns_text) × (a.status ≡ Status.Replay)) }
{
    Ok(Answer {
        text: Vec::from_slice(alloc, b"replay: turns\n")?,
        status: Status::Replay,
    })
}

/// Whether two lists of paths are the same.
fn are_paths(one: &PathList, other: &PathList) -> bool
    ensures { IsTrue result ↔ (one.now ≡ other.now) }
{
    if one.len() != other.len() {
        return false;
    }
    for i in 0..one.len() {
        if !one.at(i).is_same(other.at(i)) {
            return false;
        }
    }
    true
}

/// Whether turn lists are the same.
fn are_turns(one: &TurnLists, other: &TurnLists) -> bool
    ensures { IsTrue result ↔ (one.now ≡ other.now) }
{
    if one.len() != other.len() {
        return false;
    }
    for i in 0..one.len() {
        if !are_paths(one.at(i), other.at(i)) {
            return false;
        }
    }
    true
}

/// What a recording is answered with whose turns are those of the run that a report tells: whether its
/// lines are the answer of that run.
fn compared(
    alloc: Global,
    checked: &Checked,
    home: &Home,
    recorded: &Record,
    report: &Report,
) -> Result<Answer, Memory>
    requires meaning { report.now ≡ reported (program checked.now.program) recorded.now.numbers recorded.now.limit (turns_in report.now.turns) }
    ensures { IfOk result (λ a. IsCompared recorded.now checked.now.program (home_of home.now) report.now.turns a.text.items a.status) }
{
    report_ascends();
    report_tells();
    let answer = answer_of(alloc, checked, home, report, recorded.limit)?;
    if are_lines(&recorded.answer, &answer.text) {
        return Ok(Answer {
            text: Vec::from_slice(alloc, b"same\n")?,
            status: Status::Good,
        });
    }
    Ok(Answer {
        text: Vec::from_slice(alloc, b"replay: answer\n")?,
        status: Status::Replay,
    })
}

/// Whether each path of a list stands after the one before it.
fn ascend(paths: &PathList) -> bool {
    for i in 1..paths.len() {
        if !paths.at(i).compare(paths.at(i - 1)).is_gt() {
            return false;
        }
    }
    true
}

/// Whether the turns on each object are in serial order, as those of a run by one worker mostly are.
fn are_in_order(lists: &TurnLists) -> bool {
    for i in 0..lists.len() {
        if !ascend(lists.at(i)) {
            return false;
        }
    }
    true
}

/// What a recording comes to whose program is this one, and whose turns are named by these lists, if a
/// run by one worker takes these turns; `None` where the run takes others.
fn replay_by_run<R: Threads + Wait + Sync>(
    rt: &R,
    alloc: Global,
    compiled: &Compiled,
    home: &Home,
    recorded: &Record,
    lists: &TurnLists,
    bytes: &[u8],
) -> Result<Option<Answer>, Memory>
    requires plays { Plays bytes.now recorded.now compiled.now.program (home_of home.now) }
    requires named { AreNamed compiled.now.program.items recorded.now.turns lists.now }
    ensures { IfOk result (λ found. IfSome found (λ a. IsReplayed bytes.now a.text.items a.status)) }
{
    let numbers = recorded.numbers.as_slice();
    let ran = run_tasks(rt, alloc, compiled, numbers, 1, recorded.limit, &EmptyGate)?;
    let report = ran.report(alloc)?;
    if are_turns(&report.turns, lists) {
        let answer = compared(alloc, compiled.checked(), home, recorded, &report)?;
        return Ok(Some(answer));
    }
    Ok(None)
}

/// What a recording comes to whose program is this one, and whose turns are named by these lists:
/// the program is followed by them.
fn replay_followed(
    alloc: Global,
    checked: &Checked,
    home: &Home,
    recorded: &Record,
    lists: &TurnLists,
    bytes: &[u8],
) -> Result<Answer, Memory>
    requires plays { Plays bytes.now recorded.now checked.now.program (home_of home.now) }
    requires named { AreNamed checked.now.program.items recorded.now.turns lists.now }
    ensures { IfOk result (λ a. IsReplayed bytes.now a.text.items a.status) }
{
    match follow(
        alloc,
        checked,
        recorded.numbers.as_slice(),
        recorded.limit,
        lists,
    ) {
        Ok(report) => compared(alloc, checked, home, recorded, &report),
        Err(FollowError::Off) => turnless(alloc),
        Err(FollowError::Memory) => Err(Memory),
    }
}

/// What a recording comes to whose program is this one, and whose turns are named by these lists.
/// Where the turns are in serial order, a run by one worker may take just these, and is then the run
/// to compare with; the program is followed by the lists only where it takes others.
fn replay_by<R: Threads + Wait + Sync>(
    rt: &R,
    alloc: Global,
    checked: Checked,
    home: &Home,
    recorded: &Record,
    lists: &TurnLists,
    bytes: &[u8],
) -> Result<Answer, Memory>
    requires plays { Plays bytes.now recorded.now checked.program (home_of home.now) }
    requires named { AreNamed checked.program.items recorded.now.turns lists.now }
    ensures { IfOk result (λ a. IsReplayed bytes.now a.text.items a.status) }
{
    if !are_in_order(lists) {
        return replay_followed(alloc, &checked, home, recorded, lists, bytes);
    }
    let compiled = compile(alloc, checked)?;
    match replay_by_run(rt, alloc, &compiled, home, recorded, lists, bytes)? {
        Some(answer) => Ok(answer),
        None => replay_followed(alloc, compiled.checked(), home, recorded, lists, bytes),
    }
}

/// What a recording comes to whose program is this one, for which it has the right count of numbers.
fn replay_checked<R: Threads + Wait + Sync>(
    rt: &R,
    alloc: Global,
    checked: Checked,
    home: &Home,
    recorded: &Record,
    bytes: &[u8],
) -> Result<Answer, Memory>
    requires plays { Plays bytes.now recorded.now checked.program (home_of home.now) }
    requires within { length bytes.now ≤ 1048576 }
    ensures { IfOk result (λ a. IsReplayed bytes.now a.text.items a.status) }
{
    read_is_shaped();
    match turn_lists(alloc, &checked, &recorded.turns)? {
        Some(lists) => replay_by(rt, alloc, checked, home, recorded, &lists, bytes),
        None => turnless(alloc),
    }
}

/// What bytes come to that are replayed, at most 1,048,576 of them.
pub fn replay_text<R: Threads + Wait + Sync>(
    rt: &R,
    alloc: Global,
    bytes: &[u8],
) -> Result<Answer, Memory>
    requires { length bytes.now ≤ 1048576 }
    ensures { IfOk result (λ a. IsReplayed bytes.now a.text.items a.status) }
{
    let record = match read_record(alloc, bytes) {
        Ok(record) => record,
        Err(ReadError::Form(line)) => return formless(alloc, line),
        Err(ReadError::Memory) => return Err(Memory),
    };
    let ready = prepare(alloc, record.text.bytes(), record.numbers.as_slice())?;
    match ready {
        Ready::Program(checked, home) => replay_checked(rt, alloc, checked, &home, &record, bytes),
        Ready::Answered(answer) => Ok(answer),
    }
}
