//! The tasks of a serial run, ask by ask.

use crate::store::Store;
use crate::told::{tell_ask, tell_declarations};
use code_keeps::Compiled;
use picture_base::Stop;
use std::alloc::Global;
use std::mem;
use task_machine::{Ask, Machine, MachineRoom};

/// A task: its path, and the steps that it had begun when it created its last child.
#[derive(Drop)]
struct Level<'c> {
    machine: Machine<'c>,
    path: String,
    before: u64,
}

/// What comes of one ask.
#[derive(Drop)]
enum Going<'c> {
    On,
    Ended,
    /// A child of this path begins.
    Child(String, Machine<'c>),
}

/// The tasks that are created: the lines of their `withonly`, and how many there are so far.
#[derive(Drop)]
struct Creations<'l> {
    lines: &'l [u32],
    made: usize,
}

/// The line of the next creation.
fn next_line(creations: &mut Creations) -> u32 {
    let place = creations.made;
    creations.made = place.saturating_add(1);
    if place < creations.lines.len() {
        creations.lines[place]
    } else {
        0
    }
}

/// Grants what a task asks for, but a child.
fn grant(alloc: Global, machine: &mut Machine, store: &mut Store) -> Result<(), Stop> {
    match machine.asked() {
        Some(Ask::Take(object, mode)) => {
            let content = store.take(alloc, object, mode)?;
            machine.supply(object, content);
        }
        Some(Ask::GiveBack(object)) => {
            let content = machine.surrender(object);
            store.put(object, content);
        }
        Some(Ask::Change) => machine.changed(),
        _ => {}
    }
    Ok(())
}

/// Prints a creation, and makes the child of this path.
fn create<'c>(
    rt: &HostRuntime,
    machine: &mut Machine<'c>,
    path: &str,
    steps: u64,
    line: u32,
) -> Result<Going<'c>, Stop> {
    let number = machine.children();
    let child = format!(in rt.alloc(); "{path}.{number}")?;
    println!(rt; "create {path} {steps} {child} {line}")?;
    tell_declarations(rt, machine, child.as_str())?;
    match machine.asked() {
        Some(Ask::Create) => Ok(Going::Child(
            child,
            machine.child(rt.alloc(), &mut MachineRoom::none(rt.alloc()))?,
        )),
        _ => Err(Stop::Failed),
    }
}

/// Goes on with a task to its next ask, prints it, and goes past it.
fn go_on<'c>(
    rt: &HostRuntime,
    level: &mut Level<'c>,
    store: &mut Store,
    creations: &mut Creations,
) -> Result<Going<'c>, Stop> {
    match level.machine.asked() {
        None => {}
        Some(_) => return Err(Stop::Failed),
    }
    let ask = level.machine.advance(rt.alloc())?;
    let steps = level.before.saturating_add(level.machine.steps());
    let path = level.path.as_str();
    tell_ask(rt, &level.machine, path, steps, ask)?;
    match ask {
        Ask::End => Ok(Going::Ended),
        Ask::Fault(_) => Err(Stop::Fault),
        Ask::Create => {
            level.before = steps;
            let line = next_line(creations);
            create(rt, &mut level.machine, path, steps, line)
        }
        Ask::Take(_, _) | Ask::GiveBack(_) | Ask::Change => {
            grant(rt.alloc(), &mut level.machine, store)?;
            Ok(Going::On)
        }
    }
}

/// The task of a machine at its begin.
fn begun<'c>(path: String, machine: Machine<'c>) -> Level<'c> {
    Level {
        machine,
        path,
        before: 0,
    }
}

/// Goes through the tasks from the root on, each child whole where it is created.
fn run<'c>(
    rt: &HostRuntime,
    root: Machine<'c>,
    store: &mut Store,
    creations: &mut Creations,
) -> Result<(), Stop> {
    let mut waiting = Vec::new(rt.alloc());
    let mut level = begun(String::from_str(rt.alloc(), "0")?, root);
    for _ in 0..u64::MAX {
        match go_on(rt, &mut level, store, creations)? {
            Going::On => {}
            Going::Ended => match waiting.pop() {
                Some(parent) => level = parent,
                None => break,
            },
            Going::Child(path, child) => {
                let parent = mem::replace(&mut level, begun(path, child));
                if waiting.push(parent).is_err() {
                    return Err(Stop::Failed);
                }
            }
        }
    }
    Ok(())
}

/// The machine of the root.
fn root_of<'c>(
    alloc: Global,
    compiled: &'c Compiled,
    numbers: &'c [i64],
    limit: u32,
) -> Result<Machine<'c>, Stop> {
    let code = compiled.decoded();
    if numbers.len() != compiled.code().raw().inputs as usize {
        return Err(Stop::Words);
    }
    if code.sizes().len() > u32::MAX as usize {
        return Err(Stop::Failed);
    }
    Ok(Machine::root(alloc, code, numbers, limit)?)
}

/// Prints the tasks of a serial run. The lines are those of the `withonly` of each task but the root,
/// in the order of their creation.
pub(crate) fn tell_tasks(
    rt: &HostRuntime,
    compiled: &Compiled,
    numbers: &[i64],
    limit: u32,
    lines: &[u32],
) -> Result<(), Stop> {
    let mut store = Store::whole(rt.alloc(), compiled.checked())?;
    let root = root_of(rt.alloc(), compiled, numbers, limit)?;
    let mut creations = Creations { lines, made: 0 };
    run(rt, root, &mut store, &mut creations)
}
