//! The text of a program.

use crate::stop::Stop;
use jade_base::{Source, read_text};
use jade_lexer::tokens;
use jade_parser::parse;
use jade_syntax::Checked;
use jade_types::check;
use std::alloc::Global;

/// The longest text, in bytes.
const LONGEST: usize = 1_048_576;

/// The checked program of a text; nothing where it is refused, or for want of memory.
fn checked(alloc: Global, text: &[u8]) -> Option<Checked> {
    if text.len() > LONGEST {
        return None;
    }
    let tokens = tokens(alloc, text).ok()?;
    let program = parse(alloc, &tokens).ok()?;
    check(alloc, program).ok()
}

/// The checked program that is read from a source. The error is a text that can't be read or is
/// refused, or want of memory; which of them is not told.
pub fn read_program<S: Source>(alloc: Global, source: &mut S) -> Result<Checked, Stop> {
    let Ok(text) = read_text(alloc, source) else {
        return Err(Stop::Text);
    };
    match checked(alloc, &text) {
        Some(checked) => Ok(checked),
        None => Err(Stop::Text),
    }
}
