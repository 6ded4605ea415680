//! The words of what is printed.

use crate::stop::Stop;
use crate::tasks::Answer;
use jade_base::{Blame, Mode, ObjectId, Path, Report};
use std::alloc::Global;
use task_machine::{Ask, Machine};
use task_suspend::{Capsule, RunName};

/// A path's numbers with dots.
fn path_word(alloc: Global, path: &Path) -> Result<String, Stop> {
    let mut text = String::new(alloc);
    for number in path.numbers() {
        let dot = if text.is_empty() { "" } else { "." };
        let piece = format!(in alloc; "{dot}{number}")?;
        text.push_str(piece.as_str())?;
    }
    Ok(text)
}

/// A mode.
fn mode_word(mode: Mode) -> &'static str {
    match mode {
        Mode::Reading => "reading",
        Mode::Writing => "writing",
        Mode::Commuting => "commuting",
    }
}

/// What a task asks for, which is done on the objects below a number.
fn ask_word(alloc: Global, machine: &Machine, from: u32) -> Result<String, Stop> {
    let text = match machine.asked() {
        None => format!(in alloc; "goes on to its next ask"),
        Some(Ask::Take(object, mode)) => {
            let word = mode_word(mode);
            format!(in alloc; "takes object {} for {word}", object.0)
        }
        Some(Ask::GiveBack(object)) => format!(in alloc; "gives object {} back", object.0),
        Some(Ask::Create) => return create_word(alloc, machine, from),
        Some(Ask::Change) => return change_word(alloc, machine, from),
        Some(Ask::End) => return end_word(alloc, machine, from, "ends"),
        Some(Ask::Fault(_)) => return end_word(alloc, machine, from, "ends by a fault"),
    };
    Ok(text?)
}

/// The next thing for a child that is created.
fn create_word(alloc: Global, machine: &Machine, from: u32) -> Result<String, Stop> {
    match machine.next_enter(ObjectId(from)) {
        Some((object, _)) => Ok(format!(in alloc; "enters its child on object {}", object.0)?),
        None => Ok(format!(in alloc; "enrolls its child")?),
    }
}

/// The next thing for a change of rights.
fn change_word(alloc: Global, machine: &Machine, from: u32) -> Result<String, Stop> {
    match machine.next_change(ObjectId(from)) {
        Some((object, rights)) if rights.any() => {
            Ok(format!(in alloc; "shifts its rights on object {}", object.0)?)
        }
        Some((object, _)) => Ok(format!(in alloc; "leaves object {}", object.0)?),
        None => Ok(format!(in alloc; "has changed its rights")?),
    }
}

/// The next thing for an end.
fn end_word(alloc: Global, machine: &Machine, from: u32, end: &str) -> Result<String, Stop> {
    match machine.next_leave(ObjectId(from)) {
        Some(object) => Ok(format!(in alloc; "leaves object {}", object.0)?),
        None => Ok(format!(in alloc; "{end}")?),
    }
}

/// A try: the task, how many events it has done, and what it asks for.
pub(crate) fn try_word<'c, N: RunName>(
    alloc: Global,
    capsule: &Capsule<'c, N>,
) -> Result<String, Stop> {
    let path = path_word(alloc, capsule.path())?;
    let task = &*capsule.task;
    let ask = ask_word(alloc, &task.machine, task.from)?;
    Ok(format!(in alloc; "{path} at event {} {ask}", task.events)?)
}

/// What came of a try.
pub(crate) fn answer_word(alloc: Global, answer: Answer) -> Result<String, Stop> {
    let text = match answer {
        Answer::Done => format!(in alloc; "done"),
        Answer::Busy => format!(in alloc; "another has a turn"),
        Answer::Waits(object) => format!(in alloc; "waits for object {}", object.0),
        Answer::Lies(object) => format!(in alloc; "waits in the room of object {}", object.0),
        Answer::Freed(object) => format!(in alloc; "done, frees object {}", object.0),
        Answer::Parted => format!(in alloc; "done, the child begins"),
        Answer::Ended => format!(in alloc; "done"),
        Answer::Over => format!(in alloc; "done, all is over"),
    };
    Ok(text?)
}

/// A task that came out of an object's room.
pub(crate) fn given_word(alloc: Global, object: ObjectId, path: &Path) -> Result<String, Stop> {
    let path = path_word(alloc, path)?;
    Ok(format!(in alloc; "the room of object {} gives {path}\n", object.0)?)
}

/// Why a task ended early.
fn blame_word(alloc: Global, blame: Blame) -> Result<String, Stop> {
    let kind = blame.kind;
    match blame.pos {
        Some(pos) => Ok(format!(in alloc; "{kind:?} at {}:{}", pos.line, pos.column)?),
        None => Ok(format!(in alloc; "{kind:?}")?),
    }
}

/// Puts the cells of the objects last.
fn put_objects(alloc: Global, text: &mut String, report: &Report) -> Result<(), Stop> {
    for place in 0..report.objects.len() {
        let head = format!(in alloc; "object {place} =")?;
        text.push_str(head.as_str())?;
        for cell in report.objects.at(place).as_slice() {
            let piece = format!(in alloc; " {cell}")?;
            text.push_str(piece.as_str())?;
        }
        text.push_str("\n")?;
    }
    Ok(())
}

/// Puts the faults last.
fn put_faults(alloc: Global, text: &mut String, report: &Report) -> Result<(), Stop> {
    for note in report.faults.as_slice() {
        let path = path_word(alloc, &note.path)?;
        let blame = blame_word(alloc, note.blame)?;
        let line = format!(in alloc;
            "fault of {path} after {} children: {blame}\n",
            note.children
        )?;
        text.push_str(line.as_str())?;
    }
    Ok(())
}

/// Puts the steps of the parts last.
fn put_steps(alloc: Global, text: &mut String, report: &Report) -> Result<(), Stop> {
    for part in report.steps.as_slice() {
        let path = path_word(alloc, &part.path)?;
        let line = format!(in alloc;
            "steps of {path} after {} children: {}\n",
            part.children, part.steps
        )?;
        text.push_str(line.as_str())?;
    }
    Ok(())
}

/// A report.
pub(crate) fn report_text(alloc: Global, report: &Report) -> Result<String, Stop> {
    let mut text = String::new(alloc);
    put_objects(alloc, &mut text, report)?;
    put_faults(alloc, &mut text, report)?;
    put_steps(alloc, &mut text, report)?;
    Ok(text)
}
