//! The run of a program.

ghost use Rattle.std.specs.Prelude.{◌≡◌, ◌≤◌, length, vec_len, IfOk};
ghost use Rattle.jade_syntax.specs.Objects.{input_names};
ghost use Rattle.object_table.specs.Views.{count_of};
ghost use Rattle.object_table.specs.Rule.{first_view};

use crate::board::{Board, OtherDeque};
use crate::crew::{crew, seen_out};
use crate::gate::Gate;
use crate::keeper::Over;
use crate::signals::{Signals, padded_count};
use crate::worker::Worker;
use code_keeps::Compiled;
use crossbeam_utils::CachePadded;
use jade_base::Memory;
use jade_meaning::Plan;
use object_table::{ObjectTable, Ran, TaskPass};
use std::alloc::Global;
use std::marker::Brand;
use std::sync::atomic::AtomicU64;
use std::sync::{Mutex, Wait};
use std::thread::Threads;
use task_deque::{Owner, Thief, empty, put_task, thief_of};
use task_suspend::{Capsule, CapsuleLine, Rooms, RunName};

/// What is run: the code of a program, a number for each of its inputs, and the limit of its steps.
#[derive(Clone, Copy)]
struct Job<'c> {
    compiled: &'c Compiled,
    numbers: &'c [i64],
    limit: u32,
}

impl<'c> Job<'c> {
    fn plan(&self) -> Plan<'c>
        ensures { result ≡ record { program = self.now.compiled.now.program; numbers = self.now.numbers.now; limit = self.now.limit } }
    {
        Plan::of(self.compiled.checked(), self.numbers, self.limit)
    }
}

/// Runs the program on these numbers, under this limit, by so many workers, of which the caller is
/// one. What the run did is of this program, these numbers and this limit, so that its report is the
/// meaning's. The error is want of memory. What is not claimed: that the call returns, that more than
/// one thread ran, that work was stolen, and what the gate held.
pub fn run_tasks<'c, G: Gate, R: Threads + Wait + Sync>(
    rt: &R,
    alloc: Global,
    compiled: &'c Compiled,
    numbers: &'c [i64],
    workers: u32,
    limit: u32,
    gate: &G,
) -> Result<Ran<'c>, Memory>
    requires given { length numbers.now ≡ length (input_names compiled.now.program.items) }
    requires workers { (1 ≤ workers) × (workers ≤ 64) }
    ensures { IfOk result (λ ran. ran.plan ≡ record { program = compiled.now.program; numbers = numbers.now; limit = limit }) }
{
    let job = Job {
        compiled,
        numbers,
        limit,
    };
    let (table, pass) = ObjectTable::start(alloc, &job.plan())?;
    run_named::<Brand, G, R>(rt, alloc, table, pass, job, workers, gate)
}

// The run of a table, under a name.
fn run_named<'c, N: RunName + Send + Sync, G: Gate, R: Threads + Wait + Sync>(
    rt: &R,
    alloc: Global,
    table: ObjectTable<'c>,
    pass: TaskPass,
    job: Job<'c>,
    workers: u32,
    gate: &G,
) -> Result<Ran<'c>, Memory>
    requires table { (table.mark ≡ N.mark) × (table.plan ≡ N.plan) }
    requires pass { (pass.mark ≡ N.mark) × (pass.shows ≡ first_view N.plan) }
    requires job { N.plan ≡ record { program = job.compiled.now.program; numbers = job.numbers.now; limit = job.limit } }
    requires given { length job.numbers.now ≡ length (input_names job.compiled.now.program.items) }
    ensures { IfOk result (λ ran. ran.plan ≡ N.plan) }
{
    let root = Capsule::root(alloc, pass, job.compiled, job.numbers, job.limit)?;
    let (locals, others) = deques(alloc, workers)?;
    let locals = with_first(locals, root)?;
    let board = board_of::<N>(alloc, table, job, workers, others)?;
    let mut crew_rest = workers_of(alloc, locals)?;
    let Some(worker) = crew_rest.pop() else {
        return Err(Memory);
    };
    let worker = crew(rt, alloc, &board, gate, worker, crew_rest);
    match seen_out(rt, alloc, &board, gate, worker) {
        Some(over) => closed(alloc, board, job, over),
        None => Err(Memory),
    }
}

// What the run did.
fn closed<'c, N: RunName>(
    alloc: Global,
    board: Board<'c, N>,
    job: Job<'c>,
    over: Over<N>,
) -> Result<Ran<'c>, Memory>
    requires job { N.plan ≡ record { program = job.compiled.now.program; numbers = job.numbers.now; limit = job.limit } }
    ensures { IfOk result (λ ran. ran.plan ≡ N.plan) }
{
    let Board { table, .. } = board;
    table.finish(alloc, job.plan(), over.pass)
}

// So many empty deques, and each as the other workers see it.
fn deques<T: Drop>(alloc: Global, count: u32) -> Result<(Vec<Owner<T>>, Vec<Thief<T>>), Memory> {
    let mut locals = Vec::new(alloc);
    let mut others = Vec::new(alloc);
    for _ in 0..count {
        let local = empty(alloc)?;
        let other = thief_of(&local)?;
        if others.push(other).is_err() || locals.push(local).is_err() {
            return Err(Memory);
        }
    }
    Ok((locals, others))
}

// Makes a first task ready, in the last deque.
fn with_first<T: Drop>(mut locals: Vec<Owner<T>>, task: T) -> Result<Vec<Owner<T>>, Memory> {
    let Some(mut last) = locals.pop() else {
        return Err(Memory);
    };
    if put_task(&mut last, task).is_err() || locals.push(last).is_err() {
        return Err(Memory);
    }
    Ok(locals)
}

// A worker for each deque.
fn workers_of<T: Drop, P: Drop>(
    alloc: Global,
    locals: Vec<Owner<T>>,
) -> Result<Vec<Worker<T, P>>, Memory> {
    let mut workers = Vec::new(alloc);
    for local in locals {
        let worker = Worker::new(alloc, workers.len(), local);
        if workers.push(worker).is_err() {
            return Err(Memory);
        }
    }
    Ok(workers)
}

// The board of the run.
fn board_of<'c, N: RunName>(
    alloc: Global,
    table: ObjectTable<'c>,
    job: Job<'c>,
    workers: u32,
    others: Vec<OtherDeque<'c, N>>,
) -> Result<Board<'c, N>, Memory>
    requires table { (table.mark ≡ N.mark) × (table.plan ≡ N.plan) }
    requires job { N.plan ≡ record { program = job.compiled.now.program; numbers = job.numbers.now; limit = job.limit } }
{
    let objects = job.plan().objects();
    let rooms = Rooms::new(alloc, objects)?;
    let freed = counters(alloc, objects)?;
    let holding = counters(alloc, workers)?;
    Ok(Board {
        table,
        objects,
        rooms,
        freed,
        held_back: Mutex::new(CapsuleLine::new(alloc)),
        holding,
        others,
        signals: Signals::new(workers as u64),
    })
}

// So many counters, each at 0 and with a cache line of its own.
fn counters(alloc: Global, count: u32) -> Result<Vec<CachePadded<AtomicU64>>, Memory>
    ensures { IfOk result (λ counters. vec_len counters ≡ count) }
{
    let mut counters = Vec::new(alloc);
    for _ in 0..count {
        if counters.push(padded_count()).is_err() {
            return Err(Memory);
        }
    }
    Ok(counters)
}
