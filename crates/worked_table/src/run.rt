//! The run of the program by a schedule.

ghost use Rattle.std.specs.Prelude.{◌≡◌, [], length};
ghost use Rattle.jade_syntax.specs.Objects.{input_names};
ghost use Rattle.object_table.specs.Rule.{first_view};

use crate::schedules::{Move, Schedule};
use crate::stop::Stop;
use crate::tasks::{Answer, Tasks};
use crate::words::{answer_word, report_text};
use code_keeps::Compiled;
use jade_meaning::Plan;
use object_table::{ObjectTable, Ran, TaskPass};
use std::alloc::Global;
use std::marker::Brand;
use std::sync::Wait;
use task_suspend::{Capsule, Resigned, RunName, attempt};

/// The most steps of a part of a task.
const LIMIT: u32 = 1000;

/// The plan of a program without inputs.
fn plan_of<'c>(compiled: &'c Compiled) -> Plan<'c>
    ensures { result ≡ record { program = compiled.now.program; numbers = []; limit = 1000 } }
{
    Plan::of(compiled.checked(), &[], LIMIT)
}

/// Runs the program by a schedule, and prints each try; the text of the report.
pub(crate) fn run_by<R: Wait + Print>(
    rt: &R,
    alloc: Global,
    compiled: &Compiled,
    schedule: &Schedule,
) -> Result<String, Stop>
    requires { 0 ≡ length (input_names compiled.now.program.items) }
{
    let (table, pass) = ObjectTable::start(alloc, &plan_of(compiled))?;
    let ran = run_named::<Brand, R>(rt, alloc, table, pass, compiled, schedule)?;
    let report = ran.report(alloc)?;
    report_text(alloc, &report)
}

/// The run of a table, under a name.
fn run_named<'c, N: RunName, R: Wait + Print>(
    rt: &R,
    alloc: Global,
    table: ObjectTable<'c>,
    pass: TaskPass,
    compiled: &'c Compiled,
    schedule: &Schedule,
) -> Result<Ran<'c>, Stop>
    requires table { (table.mark ≡ N.mark) × (table.plan ≡ N.plan) }
    requires pass { (pass.mark ≡ N.mark) × (pass.shows ≡ first_view N.plan) }
    requires plan { N.plan ≡ record { program = compiled.now.program; numbers = []; limit = 1000 } }
    requires given { 0 ≡ length (input_names compiled.now.program.items) }
{
    let root: Capsule<'c, N> = Capsule::root(alloc, pass, compiled, &[], LIMIT)?;
    match play(rt, alloc, &table, root, schedule)? {
        Some(last) => closed(alloc, table, compiled, last),
        None => Err(Stop::Schedule),
    }
}

/// The tries of a run, from its root on; the passes of the tasks that have ended, as one.
fn play<'c, N: RunName, R: Wait + Print>(
    rt: &R,
    alloc: Global,
    table: &ObjectTable,
    root: Capsule<'c, N>,
    schedule: &Schedule,
) -> Result<Option<Resigned<'c, N>>, Stop>
    requires { (table.now.mark ≡ N.mark) × (table.now.plan ≡ N.plan) }
{
    let mut tasks = Tasks::with_rooms(alloc, schedule.rooms)?;
    tasks.put(root)?;
    for step in schedule.moves {
        go(rt, alloc, table, &mut tasks, step)?;
    }
    Ok(tasks.last())
}

/// A task's next tries.
fn go<'c, N: RunName, R: Wait + Print>(
    rt: &R,
    alloc: Global,
    table: &ObjectTable,
    tasks: &mut Tasks<'c, N>,
    step: &Move,
) -> Result<(), Stop>
    requires { (table.now.mark ≡ N.mark) × (table.now.plan ≡ N.plan) }
{
    let Move(path, tries) = step;
    for _ in 0..*tries {
        let asked = tasks.word(alloc, path)?;
        let answer = one_try(rt, alloc, table, tasks, path)?;
        tell(rt, alloc, asked.as_str(), answer)?;
        drain(rt, alloc, tasks, answer)?;
    }
    Ok(())
}

/// One try at what the task of a path asks for.
fn one_try<'c, N: RunName, R: Wait>(
    rt: &R,
    alloc: Global,
    table: &ObjectTable,
    tasks: &mut Tasks<'c, N>,
    path: &[u32],
) -> Result<Answer, Stop>
    requires { (table.now.mark ≡ N.mark) × (table.now.plan ≡ N.plan) }
{
    let task = tasks.take(path)?;
    let went = attempt(alloc, table, task);
    tasks.settle(rt, table, went)
}

/// Prints a try and what came of it.
fn tell<R: Print>(rt: &R, alloc: Global, asked: &str, answer: Answer) -> Result<(), Stop> {
    let came = answer_word(alloc, answer)?;
    println!(rt; "{asked}: {came}")?;
    Ok(())
}

/// Drains the room of an object that was freed, and prints which tasks come out.
fn drain<'c, N: RunName, R: Wait + Print>(
    rt: &R,
    alloc: Global,
    tasks: &mut Tasks<'c, N>,
    answer: Answer,
) -> Result<(), Stop> {
    let Answer::Freed(object) = answer else {
        return Ok(());
    };
    let before = tasks.drain(rt, object)?;
    let given = tasks.given(alloc, object, before)?;
    print!(rt; "{given}")?;
    Ok(())
}

/// What the run did, where all is over.
fn closed<'c, N: RunName>(
    alloc: Global,
    table: ObjectTable<'c>,
    compiled: &'c Compiled,
    last: Resigned<'c, N>,
) -> Result<Ran<'c>, Stop>
    requires table { (table.mark ≡ N.mark) × (table.plan ≡ N.plan) }
    requires plan { N.plan ≡ record { program = compiled.now.program; numbers = []; limit = 1000 } }
{
    if !last.task.pass.over() {
        return Err(Stop::Schedule);
    }
    let pass = Box::into_inner(last.task).pass;
    Ok(table.finish(alloc, plan_of(compiled), pass)?)
}
