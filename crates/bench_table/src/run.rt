//! The run of a load.

ghost use Rattle.std.specs.Prelude.{◌≡◌, [], length};
ghost use Rattle.jade_syntax.specs.Objects.{input_names};
ghost use Rattle.object_table.specs.Rule.{first_view};

use crate::cycles::{Done, run_cycles};
use crate::stop::Stop;
use crate::tries::next_child;
use code_keeps::Compiled;
use jade_meaning::Plan;
use object_table::{ObjectTable, TaskPass};
use std::alloc::Global;
use std::marker::Brand;
use std::mem::forget;
use std::thread::{Threads, map_vec};
use task_suspend::{Capsule, RunName};

/// The most steps of a task.
const LIMIT: u32 = 4_294_967_295;

/// So many words of memory lie between two tasks that one thread makes.
const APART: usize = 512;

/// How many threads, how many tasks that are live all the while, and how many cycles. The threads
/// share the tasks and the cycles evenly; what is left over is left out.
#[derive(Clone, Copy)]
pub(crate) struct Load {
    pub threads: u32,
    pub live: u32,
    pub cycles: u32,
}

impl Load {
    /// The part of a number that is one thread's. The error is that there is no thread.
    fn share(&self, all: u32) -> Result<u32, Stop> {
        match all.checked_div(self.threads) {
            Some(part) => Ok(part),
            None => Err(Stop::Words),
        }
    }
}

/// The plan of a program without inputs.
fn plan_of<'c>(compiled: &'c Compiled) -> Plan<'c>
    ensures { result ≡ record { program = compiled.now.program; numbers = []; limit = 4294967295 } }
{
    Plan::of(compiled.checked(), &[], LIMIT)
}

/// Does the cycles of a load; what was done of it.
pub(crate) fn run_load<R: Threads + Sync>(
    rt: &R,
    alloc: Global,
    compiled: &Compiled,
    load: Load,
) -> Result<Load, Stop>
    requires { 0 ≡ length (input_names compiled.now.program.items) }
{
    let (table, pass) = ObjectTable::start(alloc, &plan_of(compiled))?;
    run_named::<Brand, R>(rt, alloc, table, pass, compiled, load)
}

/// The run of a table, under a name. What is left in the end is not freed, so that only the cycles
/// take time.
fn run_named<'c, N: RunName + Send + Sync, R: Threads + Sync>(
    rt: &R,
    alloc: Global,
    table: ObjectTable<'c>,
    pass: TaskPass,
    compiled: &'c Compiled,
    load: Load,
) -> Result<Load, Stop>
    requires table { (table.mark ≡ N.mark) × (table.plan ≡ N.plan) }
    requires pass { (pass.mark ≡ N.mark) × (pass.shows ≡ first_view N.plan) }
    requires plan { N.plan ≡ record { program = compiled.now.program; numbers = []; limit = 4294967295 } }
    requires given { 0 ≡ length (input_names compiled.now.program.items) }
{
    let live = load.share(load.live)?;
    let cycles = load.share(load.cycles)?;
    let root: Capsule<'c, N> = Capsule::root(alloc, pass, compiled, &[], LIMIT)?;
    let mut tasks = Vec::new(alloc);
    let root = create(alloc, &table, root, load.threads, &mut tasks)?;
    let mut idle = Vec::new(alloc);
    let tasks = create_for_each(alloc, &table, tasks, live, &mut idle)?;
    let done = all_cycles(rt, alloc, &table, tasks, cycles)?;
    let ended = count_ended(done.as_slice())?;
    forget(done);
    forget(idle);
    forget(root);
    forget(table);
    Ok(Load {
        threads: load.threads,
        live: live.wrapping_mul(load.threads),
        cycles: ended,
    })
}

/// Takes memory that nothing uses, so that what is taken behind it lies apart from what lies before it.
/// In a run a worker's tasks lie in memory that it took itself; here one thread makes all of them.
fn leave_room(alloc: Global) -> Result<(), Stop> {
    let room: Vec<u64> = Vec::with_capacity(alloc, APART)?;
    forget(room);
    Ok(())
}

/// Has a task create so many children, which are put to the others; the task.
fn create<'c, N: RunName>(
    alloc: Global,
    table: &ObjectTable,
    first: Capsule<'c, N>,
    count: u32,
    children: &mut Vec<Capsule<'c, N>>,
) -> Result<Capsule<'c, N>, Stop>
    requires { (table.now.mark ≡ N.mark) × (table.now.plan ≡ N.plan) }
{
    let mut task = first;
    for _ in 0..count {
        let (parent, child) = next_child(alloc, table, task)?;
        leave_room(alloc)?;
        if children.push(child).is_err() {
            return Err(Stop::Failed);
        }
        task = parent;
    }
    Ok(task)
}

/// Has each task create so many children, which are put to the others; the tasks.
fn create_for_each<'c, N: RunName>(
    alloc: Global,
    table: &ObjectTable,
    tasks: Vec<Capsule<'c, N>>,
    count: u32,
    children: &mut Vec<Capsule<'c, N>>,
) -> Result<Vec<Capsule<'c, N>>, Stop>
    requires { (table.now.mark ≡ N.mark) × (table.now.plan ≡ N.plan) }
{
    let mut parents = Vec::new(alloc);
    for task in tasks {
        let parent = create(alloc, table, task, count, children)?;
        if parents.push(parent).is_err() {
            return Err(Stop::Failed);
        }
    }
    Ok(parents)
}

/// Has each task go through so many cycles, in a thread of its own where one can be made. The
/// caller's is one of the threads.
fn all_cycles<'c, N: RunName + Send + Sync, R: Threads + Sync>(
    rt: &R,
    alloc: Global,
    table: &ObjectTable,
    tasks: Vec<Capsule<'c, N>>,
    count: u32,
) -> Result<Vec<Result<Done<'c, N>, Stop>>, Stop>
    requires { (table.now.mark ≡ N.mark) × (table.now.plan ≡ N.plan) }
{
    let cycles = |task| run_cycles(alloc, table, task, count);
    match map_vec(rt, tasks, &cycles) {
        Ok(done) => Ok(done),
        Err(_) => Err(Stop::Failed),
    }
}

/// How many children have ended, if nothing stopped a thread.
fn count_ended<'c, N: RunName>(all: &[Result<Done<'c, N>, Stop>]) -> Result<u32, Stop> {
    let mut count: u32 = 0;
    for one in all {
        match one {
            Ok(done) => count = count.wrapping_add(done.ended),
            Err(stop) => return Err(*stop),
        }
    }
    Ok(count)
}
