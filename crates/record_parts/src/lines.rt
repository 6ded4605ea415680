//! The lines of a text.

ghost use Rattle.std.specs.Prelude.{◌≡◌, ℕ, ◌∷◌, ◌++◌, ◌↔◌, List, IfOk, IsTrue, MatchOption, All};
ghost use Rattle.record_parts.specs.Lines.{AreLines};
ghost use Rattle.run_record.specs.Pieces.{Lacks};

use jade_base::{Memory, Word};
use jade_list::sequence::Sequence;
use run_record::{Lines, first_line};
use std::alloc::Global;

/// The lines of a text that a line feed ends, if it is not empty. The error is want of memory.
pub fn lines_of(alloc: Global, text: &[u8]) -> Result<Lines, Memory>
    requires { (lines : List (List ℕ)) × AreLines lines text.now }
    ensures { IfOk result (λ lines. AreLines lines text.now) }
{
    let mut lines = Sequence::empty(alloc);
    let mut left = text;
    'lines: while let Some((line, rest)) = first_line(left) {
        let line = Word::of(alloc, line)?;
        if lines.push(line).is_err() {
            return Err(Memory);
        }
        left = rest;
    }
    Ok(lines)
}

/// What stands after a line feed; `None` where the bytes do not begin with one.
fn after_feed(bytes: &[u8]) -> Option<&[u8]>
    ensures { MatchOption result ((rest : List ℕ) → bytes.now ≡ 10 ∷ rest → ⊥) (λ rest. bytes.now ≡ 10 ∷ rest.now) }
{
    match bytes.split_first() {
        Some((first, rest)) if *first == b'\n' => Some(rest),
        _ => None,
    }
}

/// What stands after a line; `None` where the bytes do not begin with it.
fn after<'a>(bytes: &'a [u8], line: &[u8]) -> Option<&'a [u8]>
    ensures { MatchOption result ((rest : List ℕ) → bytes.now ≡ line.now ++ rest → ⊥) (λ rest. bytes.now ≡ line.now ++ rest.now) }
{
    bytes.strip_prefix(line)
}

/// What stands after a line and its line feed; `None` where the bytes do not begin with them.
fn after_line<'a>(bytes: &'a [u8], line: &[u8]) -> Option<&'a [u8]>
    ensures { MatchOption result ((rest : List ℕ) → bytes.now ≡ line.now ++ 10 ∷ rest → ⊥) (λ rest. bytes.now ≡ line.now ++ 10 ∷ rest.now) }
{
    match after(bytes, line) {
        Some(left) => match after_feed(left) {
            Some(rest) => Some(rest),
            None => None,
        },
        None => None,
    }
}

/// Whether lines with no line feed in them are those of a text.
pub fn are_lines(lines: &Lines, text: &[u8]) -> bool
    requires { All (Lacks 10) lines.now }
    ensures { IsTrue result ↔ AreLines lines.now text.now }
{
    let mut left = text;
    for i in 0..lines.len() {
        match after_line(left, lines.at(i).bytes()) {
            Some(rest) => left = rest,
            None => return false,
        }
    }
    left.is_empty()
}
