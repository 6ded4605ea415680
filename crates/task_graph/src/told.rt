//! The lines that are printed.

use jade_base::{Mode, ObjectId, Right, Rights};
use jade_syntax::Checked;
use picture_base::{Stop, labels};
use std::alloc::Global;
use task_machine::{Ask, Machine};

/// The most objects of a program.
const MOST_OBJECTS: u32 = 4096;

/// Prints the objects by their numbers.
pub(crate) fn tell_objects(rt: &HostRuntime, checked: &Checked) -> Result<(), Stop> {
    let labels = labels(rt.alloc(), checked)?;
    for number in 0..labels.len() {
        let label = &labels[number];
        println!(rt; "object {number} {label}")?;
    }
    Ok(())
}

/// The word of a right in a declaration.
fn right_word(right: Right, now: &'static str, later: &'static str) -> &'static str {
    match right {
        Right::Absent => "",
        Right::Deferred => later,
        Right::Immediate => now,
    }
}

/// The words of the rights on an object, joined by a comma, or a dash. Beside `cm` there is no other.
fn rights_word(alloc: Global, rights: Rights) -> Result<String, Stop> {
    let reads = right_word(rights.reads, "rd", "df_rd");
    let writes = right_word(rights.writes, "wr", "df_wr");
    let between = if reads.is_empty() || writes.is_empty() {
        ""
    } else {
        ","
    };
    let commutes = right_word(rights.commutes, "cm", "");
    let none = if rights.any() { "" } else { "-" };
    Ok(format!(in alloc; "{reads}{between}{writes}{commutes}{none}")?)
}

/// The word of a mode.
fn mode_word(mode: Mode) -> &'static str {
    match mode {
        Mode::Reading => "reading",
        Mode::Writing => "writing",
        Mode::Commuting => "commuting",
    }
}

/// Prints what the child declares that a task is about to create.
pub(crate) fn tell_declarations(
    rt: &HostRuntime,
    machine: &Machine,
    child: &str,
) -> Result<(), Stop> {
    let mut from = 0;
    for _ in 0..MOST_OBJECTS {
        let Some((object, rights)) = machine.next_enter(ObjectId(from)) else {
            break;
        };
        let word = rights_word(rt.alloc(), rights)?;
        println!(rt; "declares {child} {} {word}", object.0)?;
        from = object.0.saturating_add(1);
    }
    Ok(())
}

/// Prints the rights that a task is about to have in place of others.
fn tell_changes(rt: &HostRuntime, machine: &Machine, path: &str) -> Result<(), Stop> {
    let mut from = 0;
    for _ in 0..MOST_OBJECTS {
        let Some((object, rights)) = machine.next_change(ObjectId(from)) else {
            break;
        };
        let word = rights_word(rt.alloc(), rights)?;
        println!(rt; "shift {path} {} {word}", object.0)?;
        from = object.0.saturating_add(1);
    }
    Ok(())
}

/// Prints an ask of the task of a path, which has begun so many steps; a creation is printed by
/// itself.
pub(crate) fn tell_ask(
    rt: &HostRuntime,
    machine: &Machine,
    path: &str,
    steps: u64,
    ask: Ask,
) -> Result<(), Stop> {
    match ask {
        Ask::Take(object, mode) => {
            let word = mode_word(mode);
            println!(rt; "take {path} {steps} {} {word}", object.0)?;
        }
        Ask::GiveBack(object) => println!(rt; "give {path} {steps} {}", object.0)?,
        Ask::Create => {}
        Ask::Change => {
            println!(rt; "change {path} {steps}")?;
            tell_changes(rt, machine, path)?;
        }
        Ask::End => println!(rt; "end {path} {steps}")?,
        Ask::Fault(_) => {}
    }
    Ok(())
}
