//! The lines on which the tasks of a serial run are created.

use crate::store::Store;
use access_spec::mode_of;
use code_keeps::Compiled;
use code_meaning::Body;
use code_meaning::code::Instruction;
use jade_base::ObjectId;
use picture_base::Stop;
use std::alloc::Global;
use std::mem;
use task_machine::{Execution, MachineRoom, Pause};

/// What comes of one pause.
#[derive(Drop)]
enum Going<'c> {
    On,
    /// Its rights have changed.
    Changed,
    Ended,
    /// A child with the body of this number begins.
    Child(u32, Execution<'c>),
}

/// The line of the `withonly` that creates tasks with the body of this number; 0 where there is none.
fn line_of(bodies: &[Body], number: u32) -> u32 {
    for i in 0..bodies.len() {
        let body = &bodies[i];
        for place in 0..body.code.len() {
            match body.code[place] {
                Instruction::Create(created, pos) if created == number => return pos.line,
                _ => {}
            }
        }
    }
    0
}

/// What a task has taken goes back to the store.
fn give_back(execution: &mut Execution, store: &mut Store, taken: &mut Vec<ObjectId>) {
    for place in 0..taken.len() {
        let object = taken[place];
        match execution.surrender(0, object) {
            Some(content) => store.put(object, content),
            None => {}
        }
    }
    taken.clear();
}

/// An object is taken, as the rights of the task say.
fn take(
    alloc: Global,
    execution: &mut Execution,
    store: &mut Store,
    object: ObjectId,
) -> Result<(), Stop> {
    let Some(mode) = mode_of(execution.rights(object)) else {
        return Err(Stop::Failed);
    };
    let content = store.take(alloc, object, mode)?;
    execution.supply(0, object, content);
    Ok(())
}

/// Runs the code of a task to its next pause, and past it. Where it pauses for an object, that is
/// taken, and noted.
fn go_on<'c>(
    alloc: Global,
    execution: &mut Execution<'c>,
    store: &mut Store,
    taken: &mut Vec<ObjectId>,
) -> Result<Going<'c>, Stop> {
    let pause = execution.advance();
    match pause {
        Pause::Declare(object, rights) => {
            execution.declare(alloc, object, rights)?;
            Ok(Going::On)
        }
        Pause::Take(number) => {
            take(alloc, execution, store, ObjectId(number))?;
            taken.push(ObjectId(number))?;
            Ok(Going::On)
        }
        Pause::Create(number) => {
            let child = execution.child(alloc, number, &mut MachineRoom::none(alloc))?;
            Ok(Going::Child(number, child))
        }
        Pause::Change => {
            execution.change();
            Ok(Going::Changed)
        }
        Pause::End => Ok(Going::Ended),
        Pause::Fault(_) => Err(Stop::Fault),
        Pause::Other => Err(Stop::Failed),
    }
}

/// Runs the tasks from the root on, and notes the line of each creation.
fn run<'c>(
    alloc: Global,
    bodies: &[Body],
    root: Execution<'c>,
    store: &mut Store,
) -> Result<Vec<u32>, Stop> {
    let mut lines = Vec::new(alloc);
    let mut waiting = Vec::new(alloc);
    let mut taken = Vec::new(alloc);
    let mut execution = root;
    for _ in 0..u64::MAX {
        match go_on(alloc, &mut execution, store, &mut taken)? {
            Going::On => {}
            Going::Changed => give_back(&mut execution, store, &mut taken),
            Going::Ended => {
                give_back(&mut execution, store, &mut taken);
                match waiting.pop() {
                    Some(parent) => execution = parent,
                    None => break,
                }
            }
            Going::Child(number, child) => {
                give_back(&mut execution, store, &mut taken);
                lines.push(line_of(bodies, number))?;
                let parent = mem::replace(&mut execution, child);
                if waiting.push(parent).is_err() {
                    return Err(Stop::Failed);
                }
            }
        }
    }
    Ok(lines)
}

/// The execution of the root.
fn root_of<'c>(
    alloc: Global,
    compiled: &'c Compiled,
    numbers: &'c [i64],
    limit: u32,
) -> Result<Execution<'c>, Stop> {
    let code = compiled.decoded();
    if numbers.len() != compiled.code().raw().inputs as usize {
        return Err(Stop::Words);
    }
    if code.sizes().len() > u32::MAX as usize {
        return Err(Stop::Failed);
    }
    Ok(Execution::root(alloc, code, numbers, limit)?)
}

/// The line of the `withonly` of each task but the root, in the order in which a serial run creates
/// them.
pub(crate) fn lines_of_creations(
    alloc: Global,
    compiled: &Compiled,
    numbers: &[i64],
    limit: u32,
) -> Result<Vec<u32>, Stop> {
    let mut store = Store::whole(alloc, compiled.checked())?;
    let root = root_of(alloc, compiled, numbers, limit)?;
    run(alloc, &compiled.code().raw().bodies, root, &mut store)
}
