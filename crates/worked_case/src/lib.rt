//! What the programs share that run cases of standard input, or check a text.
//!
//! Floor `worked`, over `jade_base`, `jade_lexer`, `jade_parser`, `jade_syntax` and `jade_types`,
//! with `bstr` of the kit.
#![tactic(auto)]

ghost use Rattle.std.specs.Prelude.{◌≡◌};

use bstr::ByteSlice;
use jade_base::Memory;
use jade_lexer::tokens;
use jade_parser::parse;
use jade_syntax::Checked;
use jade_types::check;
use std::alloc::{AllocError, AllocFailed, Global};
use std::io;
use std::num::ParseIntError;
use std::str::{self, Utf8Error};

/// Why the cases could not be run to their end.
#[derive(Clone, Copy, Debug, PartialEq, Eq)]
pub enum Stop {
    /// A line is no line of a case.
    Line,
    /// Memory was wanting, or a line could not be written.
    Failed,
}

impl From<Memory> for Stop {
    fn from(_error: Memory) -> Stop
        ensures { result ≡ Stop.Failed }
    {
        Stop::Failed
    }
}

impl From<io::Error> for Stop {
    fn from(_error: io::Error) -> Stop
        ensures { result ≡ Stop.Failed }
    {
        Stop::Failed
    }
}

impl From<AllocError> for Stop {
    fn from(_error: AllocError) -> Stop
        ensures { result ≡ Stop.Failed }
    {
        Stop::Failed
    }
}

impl<T: Copy> From<AllocFailed<T>> for Stop {
    fn from(_error: AllocFailed<T>) -> Stop
        ensures { result ≡ Stop.Failed }
    {
        Stop::Failed
    }
}

impl From<ParseIntError> for Stop {
    fn from(_error: ParseIntError) -> Stop
        ensures { result ≡ Stop.Line }
    {
        Stop::Line
    }
}

impl From<Utf8Error> for Stop {
    fn from(_error: Utf8Error) -> Stop
        ensures { result ≡ Stop.Line }
    {
        Stop::Line
    }
}

/// The text of a case so far: its lines with a line feed between two of them and none at the end. A
/// line `* N PIECE` stands for N times the piece, with no line feed before or after it.
#[derive(Drop)]
pub struct CaseText {
    bytes: Vec<u8>,
    is_joined: bool,
}

impl CaseText {
    /// The text without a line.
    pub fn new(alloc: Global) -> CaseText {
        CaseText {
            bytes: Vec::new(alloc),
            is_joined: true,
        }
    }

    /// Puts a line last, whatever its bytes are.
    pub fn put(&mut self, line: &[u8]) -> Result<(), Stop> {
        if let Some(rest) = line.strip_prefix(b"* ") {
            return self.repeat(rest);
        }
        if !self.is_joined {
            self.bytes.push(b'\n')?;
        }
        self.is_joined = false;
        self.bytes.extend_from_slice(line)?;
        Ok(())
    }

    // Puts so many times a piece last.
    fn repeat(&mut self, rest: &[u8]) -> Result<(), Stop> {
        let Some((count, piece)) = rest.split_once_str(b" ") else {
            return Err(Stop::Line);
        };
        let count = str::from_utf8(count)?.parse::<u32>()?;
        for _ in 0..count {
            self.bytes.extend_from_slice(piece)?;
        }
        self.is_joined = true;
        Ok(())
    }

    /// The bytes of the text.
    pub fn bytes(&self) -> &[u8] {
        self.bytes.as_slice()
    }

    /// The bytes of the text, as a list.
    pub fn into_bytes(self) -> Vec<u8> {
        self.bytes
    }
}

/// A case: its first line without the mark, and its text.
#[derive(Drop)]
pub struct CaseLines<'t> {
    pub head: &'t str,
    pub text: CaseText,
}

/// The cases of a text. Each begins with a line that begins with the mark, and the lines up to the next
/// such line are its text.
pub fn cases_of<'t>(alloc: Global, text: &'t str, mark: &str) -> Result<Vec<CaseLines<'t>>, Stop> {
    cases_in(alloc, text.as_bytes(), mark)
}

/// The same of bytes: the lines of a case's text are taken as they are, and its first line is UTF-8.
pub fn cases_in<'t>(
    alloc: Global,
    bytes: &'t [u8],
    mark: &str,
) -> Result<Vec<CaseLines<'t>>, Stop> {
    let mut cases: Vec<CaseLines<'t>> = Vec::new(alloc);
    for line in bytes.lines() {
        match line.strip_prefix(mark.as_bytes()) {
            Some(head) => begin(&mut cases, str::from_utf8(head)?, CaseText::new(alloc))?,
            None => match cases.last_mut() {
                Some(case) => case.text.put(line)?,
                None => return Err(Stop::Line),
            },
        }
    }
    Ok(cases)
}

// One case more.
fn begin<'t>(cases: &mut Vec<CaseLines<'t>>, head: &'t str, text: CaseText) -> Result<(), Stop> {
    match cases.push(CaseLines { head, text }) {
        Ok(()) => Ok(()),
        Err(_) => Err(Stop::Failed),
    }
}

/// The checked program of a text; nothing where it is longer than 1 MB or refused, or for want of
/// memory.
pub fn checked(alloc: Global, text: &[u8]) -> Option<Checked> {
    if text.len() > 1_048_576 {
        return None;
    }
    let tokens = tokens(alloc, text).ok()?;
    let program = parse(alloc, &tokens).ok()?;
    check(alloc, program).ok()
}
