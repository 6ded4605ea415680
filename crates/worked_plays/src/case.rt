//! A case: the limit, the numbers, the picks, and the text.

ghost use Rattle.std.specs.Prelude.{◌≡◌, ◌≤◌, length};
ghost use Rattle.jade_syntax.specs.Objects.{input_names};

use crate::serial::agrees;
use crate::text::report_text;
use crate::words::static_word;
use jade_base::{Pos, Report};
use jade_lexer::{LexError, tokens};
use jade_parser::{ParseError, parse};
use jade_syntax::Checked;
use jade_types::{TypeError, check};
use schedule_core::play;
use std::alloc::Global;
use worked_case::{CaseText, Stop};

/// What a text is refused for, and where.
struct Refused {
    at: Pos,
    why: &'static str,
}

/// A case, and its text.
#[derive(Drop)]
pub(crate) struct Case {
    limit: u32,
    numbers: Vec<i64>,
    picks: Vec<u32>,
    text: CaseText,
}

impl Case {
    /// The case of a line's words, the limit and the numbers, a colon, and the picks; and its text.
    pub(crate) fn of(alloc: Global, line: &str, text: CaseText) -> Result<Case, Stop> {
        let mut case = Case {
            limit: 0,
            numbers: Vec::new(alloc),
            picks: Vec::new(alloc),
            text,
        };
        let mut picking = false;
        for word in line.split(' ') {
            if word == ":" {
                picking = true;
            } else if picking {
                let pick = word.parse::<u32>()?;
                case.picks.push(pick)?;
            } else {
                case.put_word(word)?;
            }
        }
        Ok(case)
    }

    /// The limit, or a number after it.
    fn put_word(&mut self, word: &str) -> Result<(), Stop> {
        if self.limit == 0 {
            self.limit = word.parse::<u32>()?;
        } else {
            let number = word.parse::<i64>()?;
            self.numbers.push(number)?;
        }
        Ok(())
    }

    /// Plays the case, and prints its report, or why its text or its count of numbers is refused. Where
    /// a serial run comes to something else, it says so.
    pub(crate) fn play(self, rt: &HostRuntime, alloc: Global) -> Result<(), Stop> {
        let told = self.told(alloc)?;
        print!(rt; "{told}")?;
        Ok(())
    }

    // What is printed of the case.
    fn told(&self, alloc: Global) -> Result<String, Stop> {
        let text = self.text.bytes();
        if text.len() > 1_048_576 || self.limit == 0 {
            return Err(Stop::Line);
        }
        match checked_of(alloc, text)? {
            Ok(checked) => self.played(alloc, checked),
            Err(Refused { at, why }) => {
                Ok(format!(in alloc; "refused {}:{} {why}\n", at.line, at.column)?)
            }
        }
    }

    // The report of its program, or why its count of numbers is refused.
    fn played(&self, alloc: Global, checked: Checked) -> Result<String, Stop>
        requires { 1 ≤ self.now.limit }
    {
        let (want, got) = (checked.inputs() as usize, self.numbers.len());
        if want != got {
            return Ok(format!(in alloc; "numbers: want {want}, got {got}\n")?);
        }
        let (numbers, picks) = (self.numbers.as_slice(), self.picks.as_slice());
        let report = play(alloc, &checked, numbers, self.limit, picks)?;
        compared(alloc, checked, numbers, self.limit, &report)
    }
}

/// The text of a report, and whether a serial run comes to something else.
fn compared(
    alloc: Global,
    checked: Checked,
    numbers: &[i64],
    limit: u32,
    report: &Report,
) -> Result<String, Stop>
    requires given { length numbers.now ≡ length (input_names checked.program.items) }
    requires limit { 1 ≤ limit }
{
    let mut text = report_text(alloc, &checked, report)?;
    if !agrees(alloc, checked, numbers, limit, report)? {
        text.push_str("the serial runs differ\n")?;
    }
    Ok(text)
}

/// The checked program of a text, or what the text is refused for. The error is want of memory.
fn checked_of(alloc: Global, text: &[u8]) -> Result<Result<Checked, Refused>, Stop>
    requires { length text.now ≤ 1048576 }
{
    let tokens = match tokens(alloc, text) {
        Ok(tokens) => tokens,
        Err(LexError::Byte(at)) => return Ok(Err(Refused { at, why: "byte" })),
        Err(LexError::Number(at)) => return Ok(Err(Refused { at, why: "number" })),
        Err(LexError::Deep(at)) => return Ok(Err(Refused { at, why: "deep" })),
        Err(LexError::Memory) => return Err(Stop::Failed),
    };
    let program = match parse(alloc, &tokens) {
        Ok(program) => program,
        Err(ParseError::Token(at)) => return Ok(Err(Refused { at, why: "token" })),
        Err(ParseError::Long(at)) => return Ok(Err(Refused { at, why: "long" })),
        Err(ParseError::Memory) => return Err(Stop::Failed),
    };
    match check(alloc, program) {
        Ok(checked) => Ok(Ok(checked)),
        Err(TypeError::Refused(at, kind)) => Ok(Err(Refused {
            at,
            why: static_word(kind),
        })),
        Err(TypeError::Memory) => Err(Stop::Failed),
    }
}
