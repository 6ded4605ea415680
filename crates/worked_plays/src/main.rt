//! Plays each case of standard input by the core, and prints its report. A case begins with a line
//! `> play LIMIT NUMBER* : PICK*`; the lines up to the next one are its program's text, of whatever
//! bytes, with a line feed between two lines and none at the end. A line `* N PIECE` stands for N
//! times the piece, with no line feed before or after it. Where the text or the count of numbers is
//! refused, it prints what `run` would write. Where the turns are in the order of creation, both
//! serial runs, the plain one and that of the code, must come to the same: where one does not, it
//! prints a line that says so.
//!
//! Floor `worked`, over `code_keeps`, `fault_order`, `jade_base`, `jade_lexer`, `jade_meaning`,
//! `jade_parser`, `jade_syntax`, `jade_types`, `schedule_core`, `serial_machine`, `task_codegen`
//! and `worked_case`.
#![tactic(auto)]

mod case;
mod serial;
mod text;
mod words;

use case::Case;
use jade_base::{StdSource, read_text};
use std::alloc::Global;
use std::process::ExitCode;
use worked_case::{Stop, cases_in};

/// Plays the cases of an input.
fn play_cases(rt: &HostRuntime, alloc: Global, bytes: &[u8]) -> Result<(), Stop> {
    for lines in cases_in(alloc, bytes, "> play ")? {
        println!(rt; "> play {}", lines.head)?;
        let case = Case::of(alloc, lines.head, lines.text)?;
        case.play(rt, alloc)?;
    }
    Ok(())
}

fn main(rt: HostRuntime) -> ExitCode {
    let alloc = rt.alloc();
    let mut source = StdSource::new(rt.stdin());
    let Ok(bytes) = read_text(alloc, &mut source) else {
        return ExitCode::from(2);
    };
    match play_cases(&rt, alloc, &bytes) {
        Ok(()) => ExitCode::SUCCESS,
        Err(_) => ExitCode::from(1),
    }
}
