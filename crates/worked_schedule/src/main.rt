//! Walks a program event by event: a task that writes a cell, and `main`, which then adds one to it.
//! It prints each event with what it carries; every read is answered with 5.
//!
//! Floor `worked`, over `jade_base`, `jade_lexer`, `jade_meaning`, `jade_parser` and `jade_syntax`.
#![tactic(auto)]

use jade_base::Memory;
use jade_lexer::tokens;
use jade_meaning::can_run;
use jade_meaning::walker::{Act, Carried, Walker};
use jade_parser::parse;
use jade_syntax::tree::Program;
use std::alloc::Global;
use std::io;

const TEXT: &str =
    "object s : 1; main { withonly { wr(s); } do () { s[0] = 5; } s[0] = s[0] + 1; }";

/// The most events that are printed of a task.
const EVENTS: u32 = 100;

/// The tree of a text; nothing where the text is refused, or for want of memory.
fn program_of(alloc: Global, text: &str) -> Option<Program> {
    let bytes = text.as_bytes();
    if bytes.len() > 1_048_576 {
        return None;
    }
    match tokens(alloc, bytes) {
        Ok(tokens) => match parse(alloc, &tokens) {
            Ok(program) => Some(program),
            Err(_) => None,
        },
        Err(_) => None,
    }
}

/// The answer to a read, and none to any other event.
fn answer_to(carried: Carried) -> Option<i64> {
    match carried {
        Carried::Read(..) => Some(5),
        _ => None,
    }
}

/// Prints an event of a task.
fn tell(rt: &HostRuntime, path: &str, act: Act, carried: Carried) -> io::Result<()> {
    println!(rt; "{path} {act:?} {carried:?}")
}

/// Whether the next event was printed.
fn is_told(rt: &HostRuntime, path: &str, walker: &Walker) -> bool {
    tell(rt, path, walker.next(), walker.carried()).is_ok()
}

/// There is no going on: the task is over, or memory was wanting.
#[derive(Clone, Copy)]
struct Over;

/// Goes past the next event, and gives the child of a creation.
fn go_past<'c>(alloc: Global, walker: &mut Walker<'c>) -> Result<Option<Walker<'c>>, Over> {
    let value = answer_to(walker.carried());
    if !walker.can_go_on(value) {
        return Err(Over);
    }
    match walker.go_on(alloc, value) {
        Ok(child) => Ok(child),
        Err(Memory) => Err(Over),
    }
}

/// Goes past the events of a task that creates none, and prints them.
fn walk_child(rt: &HostRuntime, alloc: Global, path: &str, walker: &mut Walker) {
    for _ in 0..EVENTS {
        if !is_told(rt, path, walker) {
            return;
        }
        match go_past(alloc, walker) {
            Ok(_) => {}
            Err(Over) => return,
        }
    }
}

/// Walks a child that was created, if there is one.
fn walk_new(rt: &HostRuntime, alloc: Global, child: Option<Walker>) {
    if let Some(mut child) = child {
        walk_child(rt, alloc, "0.0", &mut child);
    }
}

/// Goes past the events of the task of `main`, and prints them, with those of its child where it is
/// created.
fn walk_root(rt: &HostRuntime, alloc: Global, walker: &mut Walker) {
    for _ in 0..EVENTS {
        if !is_told(rt, "0", walker) {
            return;
        }
        match go_past(alloc, walker) {
            Ok(child) => walk_new(rt, alloc, child),
            Err(Over) => return,
        }
    }
}

fn main(rt: HostRuntime) -> io::Result<()> {
    let alloc = rt.alloc();
    let Some(program) = program_of(alloc, TEXT) else {
        return println!(rt; "no program");
    };
    if !can_run(&program, &[]) {
        return println!(rt; "not to be run");
    }
    match Walker::of_program(alloc, &program, &[], 100) {
        Ok(mut root) => walk_root(&rt, alloc, &mut root),
        Err(Memory) => return println!(rt; "no memory"),
    }
    Ok(())
}
