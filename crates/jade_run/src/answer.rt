//! What a text comes to.

ghost use Rattle.std.specs.Prelude.{◌≡◌, ◌≤◌, length, IfErr, IfOk};
ghost use Rattle.jade_parser.specs.Grammar.{IsReading};
ghost use Rattle.jade_reading.specs.Reading.{ReadsAs};
ghost use Rattle.proc_expand.specs.Expanded.{origin_of, text_of};
ghost use Rattle.jade_run.specs.Answered.{IsExpanded, IsGood, IsNotRead, IsRead, IsShown, IsTested, NotRead, OnRefused, RefusedAs, RefusedFor};
ghost use Rattle.jade_run.specs.Texts.{numbers_text, refused_text};
ghost use Rattle.jade_run.specs.steps.Homes.{home_of, RefusedIn, RefusedTokens};
ghost use Rattle.jade_run.specs.steps.Preparing.{IsReady};

use crate::standing::{Home, Standing, standing_of, tokens_of};
use crate::texts::static_word;
use crate::{Status, texts};
use jade_base::{Memory, Pos};
use jade_layout::print_program;
use jade_lexer::Tokens;
use jade_parser::{ParseError, parse};
use jade_syntax::Checked;
use jade_syntax::tree::Program;
use jade_types::{TypeError, check};
use proc_expand::Expanded;
use std::alloc::Global;

/// A text to write, and the status with which it is written.
#[derive(Debug, Drop)]
pub struct Answer {
    pub text: Vec<u8>,
    pub status: Status,
}

/// Why a text is no good program: its place and the word for it, or want of memory, which says nothing
/// of the text.
#[derive(Clone, Copy, Debug)]
pub enum ReadError {
    Refused(Pos, &'static [u8]),
    Memory,
}

/// The program that tokens are read as.
fn parsed(alloc: Global, tokens: &Tokens<'_>) -> Result<Program, ReadError>
    ensures read { IfOk result (IsReading tokens.now) }
    ensures refused { IfErr result (λ e. OnRefused e (RefusedTokens tokens.now)) }
{
    match parse(alloc, tokens) {
        Ok(program) => Ok(program),
        Err(ParseError::Token(pos)) => Err(ReadError::Refused(pos, b"token")),
        Err(ParseError::Long(pos)) => Err(ReadError::Refused(pos, b"long")),
        Err(ParseError::Memory) => Err(ReadError::Memory),
    }
}

/// The program that a text is read as, where it stands.
fn tree_of(alloc: Global, text: &[u8]) -> Result<Program, ReadError>
    requires { length text.now ≤ 1048576 }
    ensures read { IfOk result (ReadsAs text.now) }
    ensures refused { IfErr result (λ e. OnRefused e (RefusedAs text.now)) }
{
    match tokens_of(alloc, text) {
        Ok(tokens) => parsed(alloc, &tokens),
        Err(error) => Err(error),
    }
}

/// The program that an expanded text is read as.
fn expanded_tree(alloc: Global, expanded: &Expanded) -> Result<Program, ReadError>
    requires { length (text_of expanded.now) ≤ 1048576 }
    ensures read { IfOk result (ReadsAs (text_of expanded.now)) }
    ensures refused { IfErr result (λ e. OnRefused e (RefusedIn (text_of expanded.now) (origin_of expanded.now))) }
{
    match tree_of(alloc, expanded.text()) {
        Ok(program) => Ok(program),
        Err(ReadError::Refused(pos, why)) => Err(ReadError::Refused(expanded.origin(pos), why)),
        Err(ReadError::Memory) => Err(ReadError::Memory),
    }
}

/// The program of a text, and where its places come from.
fn program_of(alloc: Global, text: &[u8]) -> Result<(Program, Home), ReadError>
    requires { length text.now ≤ 1048576 }
    ensures read { IfOk result (λ r. IsRead text.now r.0 (home_of r.1)) }
    ensures refused { IfErr result (λ e. OnRefused e (NotRead text.now)) }
{
    match standing_of(alloc, text) {
        Ok(Standing::Itself(tokens)) => match parsed(alloc, &tokens) {
            Ok(program) => Ok((program, Home::Here)),
            Err(error) => Err(error),
        },
        Ok(Standing::Expanded(expanded)) => match expanded_tree(alloc, &expanded) {
            Ok(program) => Ok((program, Home::There(expanded))),
            Err(error) => Err(error),
        },
        Err(error) => Err(error),
    }
}

/// What a refused text is answered with.
fn refused(alloc: Global, pos: Pos, why: &[u8]) -> Result<Answer, Memory>
    ensures text { IfOk result (λ a. a.text.items ≡ refused_text pos why.now) }
    ensures status { IfOk result (λ a. a.status ≡ Status.Refused) }
{
    Ok(Answer {
        text: texts::refused(alloc, pos, why)?,
        status: Status::Refused,
    })
}

/// What a text that is no good program is answered with.
fn not_read(alloc: Global, error: ReadError) -> Result<Answer, Memory>
    ensures { IfOk result (λ a. IsNotRead error a.text.items a.status) }
{
    match error {
        ReadError::Refused(pos, why) => refused(alloc, pos, why),
        ReadError::Memory => Err(Memory),
    }
}

/// The program of a text with which nothing is wrong before it runs, and where its places come from.
fn checked_of(alloc: Global, text: &[u8]) -> Result<(Checked, Home), ReadError>
    requires { length text.now ≤ 1048576 }
    ensures good { IfOk result (λ r. IsGood text.now r.0.program (home_of r.1)) }
    ensures refused { IfErr result (λ e. OnRefused e (RefusedFor text.now)) }
{
    let (program, home) = match program_of(alloc, text) {
        Ok(read) => read,
        Err(error) => return Err(error),
    };
    match check(alloc, program) {
        Ok(checked) => Ok((checked, home)),
        Err(TypeError::Refused(pos, kind)) => {
            Err(ReadError::Refused(home.place(pos), static_word(kind)))
        }
        Err(TypeError::Memory) => Err(ReadError::Memory),
    }
}

/// What a program is answered with that has so many inputs and was given so many numbers.
fn miscounted(alloc: Global, wanted: u32, got: u32) -> Result<Answer, Memory>
    ensures text { IfOk result (λ a. a.text.items ≡ numbers_text wanted got) }
    ensures status { IfOk result (λ a. a.status ≡ Status.Numbers) }
{
    Ok(Answer {
        text: texts::numbers(alloc, wanted, got)?,
        status: Status::Numbers,
    })
}

/// How many numbers were given.
fn count_of(numbers: &[i64]) -> u32
    requires { length numbers.now ≤ 64 }
    ensures { result ≡ length numbers.now }
{
    numbers.len() as u32
}

/// A program that is ready to be run, with a number for each of its inputs, and where its places come
/// from, or what its text is answered with.
#[derive(Drop)]
pub(crate) enum Ready {
    Program(Checked, Home),
    Answered(Answer),
}

/// The program of a text of at most 1,048,576 bytes, where it can be run with these numbers.
pub(crate) fn prepare(alloc: Global, text: &[u8], numbers: &[i64]) -> Result<Ready, Memory>
    requires within { length text.now ≤ 1048576 }
    requires few { length numbers.now ≤ 64 }
    ensures { IfOk result (IsReady text.now numbers.now) }
{
    let (checked, home) = match checked_of(alloc, text) {
        Ok(good) => good,
        Err(error) => {
            let answer = not_read(alloc, error)?;
            return Ok(Ready::Answered(answer));
        }
    };
    let wanted = checked.inputs();
    let got = count_of(numbers);
    if got != wanted {
        let answer = miscounted(alloc, wanted, got)?;
        return Ok(Ready::Answered(answer));
    }
    Ok(Ready::Program(checked, home))
}

/// What a text of at most 1,048,576 bytes comes to where it is checked.
pub fn check_text(alloc: Global, text: &[u8]) -> Result<Answer, Memory>
    requires { length text.now ≤ 1048576 }
    ensures { IfOk result (λ a. IsTested text.now a.text.items a.status) }
{
    let _good = match checked_of(alloc, text) {
        Ok(good) => good,
        Err(error) => return not_read(alloc, error),
    };
    Ok(Answer {
        text: Vec::from_slice(alloc, b"ok\n")?,
        status: Status::Good,
    })
}

/// What a text of at most 1,048,576 bytes comes to where it is shown.
pub fn show_text(alloc: Global, text: &[u8]) -> Result<Answer, Memory>
    requires { length text.now ≤ 1048576 }
    ensures { IfOk result (λ a. IsShown text.now a.text.items a.status) }
{
    let (program, _home) = match program_of(alloc, text) {
        Ok(read) => read,
        Err(error) => return not_read(alloc, error),
    };
    Ok(Answer {
        text: print_program(alloc, &program)?,
        status: Status::Good,
    })
}

/// What a text is answered with that is written as it is.
fn written(alloc: Global, text: &[u8]) -> Result<Answer, Memory>
    ensures text { IfOk result (λ a. a.text.items ≡ text.now) }
    ensures status { IfOk result (λ a. a.status ≡ Status.Good) }
{
    Ok(Answer {
        text: Vec::from_slice(alloc, text)?,
        status: Status::Good,
    })
}

/// What a text of at most 1,048,576 bytes comes to where its procedures are expanded: the text without
/// them, or itself where no token of it is the word `proc`.
pub fn expand_text(alloc: Global, text: &[u8]) -> Result<Answer, Memory>
    requires { length text.now ≤ 1048576 }
    ensures { IfOk result (λ a. IsExpanded text.now a.text.items a.status) }
{
    let standing = match standing_of(alloc, text) {
        Ok(standing) => standing,
        Err(error) => return not_read(alloc, error),
    };
    match standing {
        Standing::Itself(_tokens) => written(alloc, text),
        Standing::Expanded(expanded) => Ok(Answer {
            text: expanded.into_text(),
            status: Status::Good,
        }),
    }
}
