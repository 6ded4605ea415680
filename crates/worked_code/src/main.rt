//! Compiles a program, and prints the instructions of its bodies, and then where some code breaks a rule
//! of code.
//!
//! Floor `worked`, over `code_meaning`, `jade_base`, `jade_syntax`, `task_code`, `task_codegen` and
//! `worked_case`.
#![tactic(auto)]

mod rules;

use code_meaning::Body;
use jade_base::{StdSource, read_text};
use rules::tell_rules;
use std::io;
use task_codegen::compile;
use worked_case::checked;

/// Prints a body: what it is given, and its instructions with their places.
fn tell(rt: &HostRuntime, number: usize, body: &Body) -> io::Result<()> {
    println!(rt; "body {number}")?;
    for i in 0..body.call.len() {
        println!(rt; "  given {:?}", body.call[i])?;
    }
    for place in 0..body.code.len() {
        println!(rt; "  {place}: {:?}", body.code[place])?;
    }
    Ok(())
}

fn main(rt: HostRuntime) -> io::Result<()> {
    let alloc = rt.alloc();
    let mut source = StdSource::new(rt.stdin());
    let Ok(text) = read_text(alloc, &mut source) else {
        return println!(rt; "no text");
    };
    let Some(checked) = checked(alloc, &text) else {
        return println!(rt; "no checked program");
    };
    let Ok(compiled) = compile(alloc, checked) else {
        return println!(rt; "no memory");
    };
    let bodies = &compiled.code().raw().bodies;
    for number in 0..bodies.len() {
        tell(&rt, number, &bodies[number])?;
    }
    tell_rules(&rt)
}
