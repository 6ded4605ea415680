//! The text of a report, and of an answer.

use crate::words::{blame, key, path_word};
use jade_base::{Blame, CellLists, FaultNotes, ObjectId, PartSteps, Path, Report, TurnLists};
use jade_syntax::Checked;
use std::alloc::Global;
use std::str;
use worked_case::Stop;

/// An object's name, with its number in its family.
fn label(alloc: Global, checked: &Checked, object: u32) -> Result<String, Stop> {
    let mut label = String::new(alloc);
    if object >= checked.objects() {
        return Ok(label);
    }
    let (name, member) = checked.label(ObjectId(object));
    label.push_str(str::from_utf8(name.bytes())?)?;
    if let Some(member) = member {
        let piece = format!(in alloc; "[{member}]")?;
        label.push_str(piece.as_str())?;
    }
    Ok(label)
}

/// An object's name and its cells, as a line.
fn object_line(
    alloc: Global,
    checked: &Checked,
    objects: &CellLists,
    object: u32,
) -> Result<String, Stop> {
    let mut line = label(alloc, checked, object)?;
    if object as usize >= objects.len() {
        return Ok(line);
    }
    line.push_str(" =")?;
    for cell in objects.at(object as usize).as_slice() {
        let piece = format!(in alloc; " {cell}")?;
        line.push_str(piece.as_str())?;
    }
    line.push_str("\n")?;
    Ok(line)
}

/// The objects, a line each.
pub(crate) fn objects_text(
    alloc: Global,
    checked: &Checked,
    objects: &CellLists,
) -> Result<String, Stop> {
    let mut text = String::new(alloc);
    for object in 0..checked.objects() {
        let line = object_line(alloc, checked, objects, object)?;
        text.push_str(line.as_str())?;
    }
    Ok(text)
}

/// The word `turns`, an object's name and the tasks of its turns, as a line; nothing where there are
/// none.
fn turns_line(
    alloc: Global,
    checked: &Checked,
    turns: &TurnLists,
    object: u32,
) -> Result<String, Stop> {
    let mut line = String::new(alloc);
    if object as usize >= turns.len() || turns.at(object as usize).len() == 0 {
        return Ok(line);
    }
    let label = label(alloc, checked, object)?;
    line.push_str("turns ")?;
    line.push_str(label.as_str())?;
    for task in turns.at(object as usize).as_slice() {
        let task = path_word(alloc, task)?;
        line.push_str(" ")?;
        line.push_str(task.as_str())?;
    }
    line.push_str("\n")?;
    Ok(line)
}

/// The turns, a line for each object that has some.
pub(crate) fn turns_text(
    alloc: Global,
    checked: &Checked,
    turns: &TurnLists,
) -> Result<String, Stop> {
    let mut text = String::new(alloc);
    for object in 0..checked.objects() {
        let line = turns_line(alloc, checked, turns, object)?;
        text.push_str(line.as_str())?;
    }
    Ok(text)
}

/// The faults, a line each.
fn faults_text(alloc: Global, faults: &FaultNotes) -> Result<String, Stop> {
    let mut text = String::new(alloc);
    for fault in faults.as_slice() {
        let key = key(alloc, &fault.path, fault.children)?;
        let blame = blame(alloc, fault.blame)?;
        let line = format!(in alloc; "fault {key} {blame}\n")?;
        text.push_str(line.as_str())?;
    }
    Ok(text)
}

/// The steps of the parts, a line each.
fn steps_text(alloc: Global, steps: &PartSteps) -> Result<String, Stop> {
    let mut text = String::new(alloc);
    for part in steps.as_slice() {
        let key = key(alloc, &part.path, part.children)?;
        let line = format!(in alloc; "steps {key} {}\n", part.steps)?;
        text.push_str(line.as_str())?;
    }
    Ok(text)
}

/// The objects, the turns, the faults and the steps of a report.
pub(crate) fn report_text(
    alloc: Global,
    checked: &Checked,
    report: &Report,
) -> Result<String, Stop> {
    let mut text = objects_text(alloc, checked, &report.objects)?;
    let turns = turns_text(alloc, checked, &report.turns)?;
    text.push_str(turns.as_str())?;
    let faults = faults_text(alloc, &report.faults)?;
    text.push_str(faults.as_str())?;
    let steps = steps_text(alloc, &report.steps)?;
    text.push_str(steps.as_str())?;
    Ok(text)
}

/// The task that faults first, and why.
pub(crate) fn fault_text(alloc: Global, path: &Path, why: Blame) -> Result<String, Stop> {
    let task = key(alloc, path, 0)?;
    let why = blame(alloc, why)?;
    Ok(format!(in alloc; "{task} {why}\n")?)
}
