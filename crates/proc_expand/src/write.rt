//! The tokens of an expanded text, written one after the other with open bodies on a stack.

ghost use Rattle.std.specs.Prelude.{◌≡◌, ◌∷◌, ◌++◌, ◌+◌, ◌-◌, ◌^◌, ◌<◌, ◌≤◌, [], ℕ, List, length, map, true, None, Some, IfOk, OnOk, Err};
ghost use Rattle.std.specs.Prelude.{slice_index_or};
ghost use Rattle.proc_expand.specs.Words.{signs};
ghost use Rattle.proc_expand.specs.steps.Brackets.{AreEndsFrom};
ghost use Rattle.proc_expand.specs.Refusals.{procedure, head, body_end, is_call, call_end, count, meant};
ghost use Rattle.proc_expand.specs.Written.{text_names, closed_at, expansion, pos_at, from, made_at, token_at};
ghost use Rattle.proc_expand.specs.steps.Frames.{names_in, end_of};
ghost use Rattle.proc_expand.specs.steps.Sheets.{tokens_of, spaced_out, IsSheet};
ghost use Rattle.proc_expand.specs.steps.Pens.{IsPen, Wrote, IsTooLong, number_in};
ghost use Rattle.proc_expand.specs.steps.Sources.{IsSource, IsOpen, StandsIn, StandIn, InBrackets, EndsArgument, param_token, given_one, given_all, start_tokens};
ghost use Rattle.proc_expand.specs.steps.Sources.{IsFrame, IsNext, IsWriting, GoesOn, IsWholeTooLong, RunsOn};
ghost use Rattle.proc_expand.specs.declared.sheet.Stop.TheVariants.{Grown};
ghost use Rattle.proc_expand.specs.declared.sign.End.TheVariants.{Closed};
ghost use Rattle.proc_expand.specs.declared.frame.Call.{Call};
ghost use Rattle.proc_expand.specs.declared.frame.Frame.{Frame};

use crate::brackets::next_place;
use crate::calls::{call_end, end_place, is_call};
use crate::frame::{Call, Frame};
use crate::known::meant;
use crate::pen::{Pen, new_pen, put_bytes, put_name};
use crate::procedures::{Procedure, read_head};
use crate::sheet::{Sheet, Stop};
use crate::sign::{End, Sign, bytes_at, is_comma, sign_at};
use crate::source::Source;
use jade_base::Pos;
use jade_lexer::Tokens;
use std::alloc::Global;

/// Where the token at a place stands; past the last it is where the text ends.
#[tactic(auto, using(crate::proofs::OpenBodies::pos_got, crate::proofs::OpenBodies::no_pos))]
pub(crate) fn pos_at(tokens: &Tokens<'_>, place: usize) -> Pos
    ensures { result ≡ pos_at tokens.now.lexemes tokens.now.end tokens.now.lexemes place }
{
    if place < tokens.len() {
        tokens.at(place).pos
    } else {
        tokens.end()
    }
}

/// The number of the name at a place of an open body, if it is replaced.
fn number_at(source: &Source<'_>, call: Option<Call>, place: usize) -> Option<usize>
    requires within { place < length source.now.marks.numbers.items }
    requires small { (c : Call) (i : ℕ) → call ≡ Some c → slice_index_or source.now.marks.numbers.items place None ≡ Some i → c.base + i ≤ 1099511627776 }
    ensures { result ≡ number_in call (slice_index_or source.now.marks.numbers.items place None) }
{
    match call {
        None => None,
        Some(call) => match source.marks.numbers[place] {
            None => None,
            Some(number) => Some(call.base + number),
        },
    }
}

/// Writes the token at a place of the text or of an open body.
#[inline(always)]
fn put_token(
    tokens: &Tokens<'_>,
    source: &Source<'_>,
    pen: &mut Pen,
    call: Option<Call>,
    place: usize,
) -> Result<(), Stop>
    requires source { IsSource tokens.now.lexemes tokens.now.end source.now }
    requires pen { IsPen (text_names tokens.now.lexemes tokens.now.end) pen.old }
    requires stands { StandsIn tokens.now.lexemes tokens.now.end call place }
    ensures wrote { OnOk result (Wrote (text_names tokens.now.lexemes tokens.now.end) (token_at tokens.now.lexemes tokens.now.end (names_in tokens.now.lexemes tokens.now.end call) place ∷ []) pen.old pen.new) }
    ensures grown { result ≡ Err Grown → IsTooLong pen.old (token_at tokens.now.lexemes tokens.now.end (names_in tokens.now.lexemes tokens.now.end call) place ∷ []) }
{
    let number = number_at(source, call, place);
    put_name(
        &source.taken,
        pen,
        number,
        bytes_at(tokens, place),
        pos_at(tokens, place),
    )
}

/// Writes the tokens from a place on, before another.
fn put_tokens(
    tokens: &Tokens<'_>,
    source: &Source<'_>,
    pen: &mut Pen,
    call: Option<Call>,
    start: usize,
    stop: usize,
) -> Result<(), Stop>
    requires source { IsSource tokens.now.lexemes tokens.now.end source.now }
    requires pen { IsPen (text_names tokens.now.lexemes tokens.now.end) pen.old }
    requires stand { StandIn tokens.now.lexemes tokens.now.end call start stop }
    ensures wrote { OnOk result (Wrote (text_names tokens.now.lexemes tokens.now.end) (map (token_at tokens.now.lexemes tokens.now.end (names_in tokens.now.lexemes tokens.now.end call)) (from tokens.now.lexemes tokens.now.end start (stop - start))) pen.old pen.new) }
    ensures grown { result ≡ Err Grown → IsTooLong pen.old (map (token_at tokens.now.lexemes tokens.now.end (names_in tokens.now.lexemes tokens.now.end call)) (from tokens.now.lexemes tokens.now.end start (stop - start))) }
{
    for place in start..stop {
        put_token(tokens, source, pen, call, place)?;
    }
    Ok(())
}

/// Writes a token that is made for a call at a place.
fn put_made(tokens: &Tokens<'_>, pen: &mut Pen, call: usize, bytes: &[u8]) -> Result<(), Stop>
    requires { IsPen (text_names tokens.now.lexemes tokens.now.end) pen.old }
    ensures wrote { OnOk result (Wrote (text_names tokens.now.lexemes tokens.now.end) (made_at tokens.now.lexemes tokens.now.end call bytes.now ∷ []) pen.old pen.new) }
    ensures grown { result ≡ Err Grown → IsTooLong pen.old (made_at tokens.now.lexemes tokens.now.end call bytes.now ∷ []) }
{
    put_bytes(pen, bytes, pos_at(tokens, call))
}

/// Writes the new name of a parameter of a call's procedure.
fn put_param(
    tokens: &Tokens<'_>,
    source: &Source<'_>,
    pen: &mut Pen,
    call: Call,
    i: usize,
) -> Result<(), Stop>
    requires source { IsSource tokens.now.lexemes tokens.now.end source.now }
    requires pen { IsPen (text_names tokens.now.lexemes tokens.now.end) pen.old }
    requires opened { IsOpen tokens.now.lexemes tokens.now.end call }
    requires param { i < (head (signs tokens.now.lexemes) call.procedure).params }
    ensures wrote { OnOk result (Wrote (text_names tokens.now.lexemes tokens.now.end) (param_token tokens.now.lexemes tokens.now.end call i ∷ []) pen.old pen.new) }
    ensures grown { result ≡ Err Grown → IsTooLong pen.old (param_token tokens.now.lexemes tokens.now.end call i ∷ []) }
{
    let param = call.procedure + 4 + 3 * i;
    let number = number_at(source, Some(call), param);
    put_name(
        &source.taken,
        pen,
        number,
        bytes_at(tokens, param),
        pos_at(tokens, call.place),
    )
}

/// Writes what a parameter gets: its kind, its new name, `=`, and before a `;` the tokens of the
/// argument.
fn put_argument(
    tokens: &Tokens<'_>,
    source: &Source<'_>,
    pen: &mut Pen,
    around: Option<Call>,
    call: Call,
    i: usize,
    start: usize,
    stop: usize,
) -> Result<(), Stop>
    requires source { IsSource tokens.now.lexemes tokens.now.end source.now }
    requires pen { IsPen (text_names tokens.now.lexemes tokens.now.end) pen.old }
    requires opened { IsOpen tokens.now.lexemes tokens.now.end call }
    requires param { i < (head (signs tokens.now.lexemes) call.procedure).params }
    requires stand { StandIn tokens.now.lexemes tokens.now.end around start stop }
    ensures wrote { OnOk result (Wrote (text_names tokens.now.lexemes tokens.now.end) (given_one tokens.now.lexemes tokens.now.end around call i start stop) pen.old pen.new) }
    ensures grown { result ≡ Err Grown → IsTooLong pen.old (given_one tokens.now.lexemes tokens.now.end around call i start stop) }
{
    let kind = bytes_at(tokens, call.procedure + 3 + 3 * i);
    put_made(tokens, pen, call.place, kind)?;
    put_param(tokens, source, pen, call, i)?;
    put_made(tokens, pen, call.place, b"=")?;
    put_tokens(tokens, source, pen, around, start, stop)?;
    put_made(tokens, pen, call.place, b";")
}

/// Where an argument ends that begins at a place: at a comma, or where the brackets of the call are
/// closed.
fn argument_end(signs: &[Sign], ends: &[End], start: usize, close: usize) -> usize
    requires ends { AreEndsFrom signs.now ends.now 0 }
    requires inside { InBrackets signs.now start close }
    ensures { EndsArgument signs.now start close result }
{
    let mut place = start;
    'inside: while place < signs.len() {
        if is_comma(sign_at(signs, place)) {
            return place;
        }
        match next_place(signs, ends, place) {
            Some(next) => place = next,
            None => return close,
        }
    }
    close
}

/// Writes what the parameters of a call get.
fn put_given(
    tokens: &Tokens<'_>,
    source: &Source<'_>,
    pen: &mut Pen,
    around: Option<Call>,
    call: Call,
    close: usize,
) -> Result<(), Stop>
    requires source { IsSource tokens.now.lexemes tokens.now.end source.now }
    requires pen { IsPen (text_names tokens.now.lexemes tokens.now.end) pen.old }
    requires opened { IsOpen tokens.now.lexemes tokens.now.end call }
    requires called { is_call (signs tokens.now.lexemes) call.place ≡ true }
    requires count { count (signs tokens.now.lexemes) call.place ≡ (head (signs tokens.now.lexemes) call.procedure).params }
    requires close { call_end (signs tokens.now.lexemes) call.place ≡ Closed close }
    requires stand { StandIn tokens.now.lexemes tokens.now.end around call.place close }
    ensures wrote { OnOk result (Wrote (text_names tokens.now.lexemes tokens.now.end) (given_all tokens.now.lexemes tokens.now.end around call) pen.old pen.new) }
    ensures grown { result ≡ Err Grown → IsTooLong pen.old (given_all tokens.now.lexemes tokens.now.end around call) }
{
    let head = read_head(&source.scan.signs, call.procedure);
    let mut start = call.place + 2;
    for i in 0..head.params {
        let stop = argument_end(&source.scan.signs, &source.scan.ends, start, close);
        put_argument(tokens, source, pen, around, call, i, start, stop)?;
        start = stop + 1;
    }
    Ok(())
}

/// Writes `if true {` for a call.
fn put_start(tokens: &Tokens<'_>, pen: &mut Pen, call: usize) -> Result<(), Stop>
    requires { IsPen (text_names tokens.now.lexemes tokens.now.end) pen.old }
    ensures wrote { OnOk result (Wrote (text_names tokens.now.lexemes tokens.now.end) (start_tokens tokens.now.lexemes tokens.now.end call) pen.old pen.new) }
    ensures grown { result ≡ Err Grown → IsTooLong pen.old (start_tokens tokens.now.lexemes tokens.now.end call) }
{
    put_made(tokens, pen, call, b"if")?;
    put_made(tokens, pen, call, b"true")?;
    put_made(tokens, pen, call, b"{")
}

/// The place that comes next of those that are left.
fn place_in(tokens: &Tokens<'_>, source: &Source<'_>, frame: Frame) -> usize
    requires source { IsSource tokens.now.lexemes tokens.now.end source.now }
    requires frame { IsFrame tokens.now.lexemes tokens.now.end source.now.outer.items frame }
    requires left { frame.next < frame.stop }
    ensures { IsNext tokens.now.lexemes tokens.now.end source.now.outer.items frame result }
{
    match frame.call {
        None => source.outer[frame.next],
        Some(_) => frame.next,
    }
}

/// Writes the `}` of an open body of which nothing is left.
fn end_body(tokens: &Tokens<'_>, pen: &mut Pen, call: Option<Call>) -> Result<(), Stop>
    requires { IsPen (text_names tokens.now.lexemes tokens.now.end) pen.old }
    ensures wrote { OnOk result (Wrote (text_names tokens.now.lexemes tokens.now.end) (end_of tokens.now.lexemes tokens.now.end call) pen.old pen.new) }
    ensures grown { result ≡ Err Grown → IsTooLong pen.old (end_of tokens.now.lexemes tokens.now.end call) }
{
    match call {
        None => Ok(()),
        Some(call) => put_made(tokens, pen, call.place, b"}"),
    }
}

/// The procedure that a call means.
fn callee_of(tokens: &Tokens<'_>, source: &Source<'_>, place: usize) -> Procedure
    requires source { IsSource tokens.now.lexemes tokens.now.end source.now }
    requires within { place < length tokens.now.lexemes }
    requires call { is_call (signs tokens.now.lexemes) place ≡ true }
    ensures value { result ≡ procedure (signs tokens.now.lexemes) result.place }
    ensures meant { meant tokens.now.lexemes place ≡ Some result.place }
{
    match meant(&source.known, tokens, place) {
        Some(procedure) => procedure,
        None => unreachable!(),
    }
}

/// Where the brackets of a call are closed.
fn close_of(tokens: &Tokens<'_>, source: &Source<'_>, place: usize) -> usize
    requires source { IsSource tokens.now.lexemes tokens.now.end source.now }
    requires within { place < length tokens.now.lexemes }
    requires call { is_call (signs tokens.now.lexemes) place ≡ true }
    ensures { call_end (signs tokens.now.lexemes) place ≡ Closed result }
{
    end_place(
        &source.scan.signs,
        call_end(&source.scan.signs, &source.scan.ends, place),
    )
}

/// The whole body of a procedure, for a call.
fn body_of(tokens: &Tokens<'_>, source: &Source<'_>, callee: Procedure, call: Call) -> Frame
    requires source { IsSource tokens.now.lexemes tokens.now.end source.now }
    requires callee { callee ≡ procedure (signs tokens.now.lexemes) callee.place }
    requires within { callee.head.stop < length tokens.now.lexemes }
    ensures call { result.call ≡ Some call }
    ensures next { result.next ≡ (head (signs tokens.now.lexemes) callee.place).stop + 1 }
    ensures stop { result.stop ≡ closed_at tokens.now.lexemes tokens.now.end (body_end (signs tokens.now.lexemes) callee.place) }
{
    Frame {
        next: callee.head.stop + 1,
        stop: end_place(&source.scan.signs, callee.end),
        call: Some(call),
    }
}

/// What is left of an open body after a call in it.
fn after_call(frame: Frame, place: usize, close: usize) -> Frame
    requires ordered { place ≤ close }
    requires next { frame.next < 2 ^ 63 }
    requires close { close < 2 ^ 63 - 2 }
    ensures next { result.next ≡ frame.next + (close - place) + 2 }
    ensures stop { result.stop ≡ frame.stop }
    ensures call { result.call ≡ frame.call }
{
    Frame {
        next: frame.next + (close - place) + 2,
        stop: frame.stop,
        call: frame.call,
    }
}

/// Opens the body of a call: writes what comes before it, and puts what is left of the open body
/// and the new one onto the stack. The number from which the next call's names are given.
fn write_call(
    tokens: &Tokens<'_>,
    source: &Source<'_>,
    pen: &mut Pen,
    frames: &mut Vec<Frame>,
    frame: Frame,
    place: usize,
    given: usize,
) -> Result<usize, Stop>
    requires source { IsSource tokens.now.lexemes tokens.now.end source.now }
    requires writing { IsWriting tokens.now.lexemes tokens.now.end source.now.outer.items pen.old (frames.old.items ++ frame ∷ []) given }
    requires left { frame.next < frame.stop }
    requires next { IsNext tokens.now.lexemes tokens.now.end source.now.outer.items frame place }
    requires call { is_call (signs tokens.now.lexemes) place ≡ true }
    ensures goes { IfOk result (GoesOn tokens.now.lexemes tokens.now.end source.now.outer.items pen.old (frames.old.items ++ frame ∷ []) given pen.new frames.new.items) }
    ensures grown { result ≡ Err Grown → IsWholeTooLong tokens.now.lexemes tokens.now.end source.now.outer.items pen.old (frames.old.items ++ frame ∷ []) given }
{
    let callee = callee_of(tokens, source, place);
    let close = close_of(tokens, source, place);
    let call = Call {
        procedure: callee.place,
        place,
        base: given,
    };
    put_start(tokens, pen, place)?;
    put_given(tokens, source, pen, frame.call, call, close)?;
    frames.push(after_call(frame, place, close))?;
    frames.push(body_of(tokens, source, callee, call))?;
    Ok(given + source.marks.counts[callee.place])
}

/// Writes the tokens of an open body, or of what lies outside of procedures, that come before its
/// next call or its end, and says what is left of it.
fn put_run(
    tokens: &Tokens<'_>,
    source: &Source<'_>,
    pen: &mut Pen,
    frame: Frame,
) -> Result<Frame, Stop>
    requires source { IsSource tokens.now.lexemes tokens.now.end source.now }
    requires pen { IsPen (text_names tokens.now.lexemes tokens.now.end) pen.old }
    requires frame { IsFrame tokens.now.lexemes tokens.now.end source.now.outer.items frame }
    ensures runs { IfOk result (RunsOn tokens.now.lexemes tokens.now.end source.now.outer.items pen.old frame pen.new) }
    ensures grown { result ≡ Err Grown → (fs : List Frame) (n : ℕ) → IsWholeTooLong tokens.now.lexemes tokens.now.end source.now.outer.items pen.old (fs ++ frame ∷ []) n }
{
    let mut rest = frame;
    'running: while rest.next < rest.stop {
        let place = place_in(tokens, source, rest);
        if is_call(&source.scan.signs, place) {
            return Ok(rest);
        }
        put_token(tokens, source, pen, rest.call, place)?;
        rest.next += 1;
    }
    Ok(rest)
}

/// Writes what comes next: tokens, what a call begins with, or the end of a body. The number from
/// which the next call's names are given.
fn write_next(
    tokens: &Tokens<'_>,
    source: &Source<'_>,
    pen: &mut Pen,
    frames: &mut Vec<Frame>,
    frame: Frame,
    given: usize,
) -> Result<usize, Stop>
    requires source { IsSource tokens.now.lexemes tokens.now.end source.now }
    requires writing { IsWriting tokens.now.lexemes tokens.now.end source.now.outer.items pen.old (frames.old.items ++ frame ∷ []) given }
    ensures goes { IfOk result (GoesOn tokens.now.lexemes tokens.now.end source.now.outer.items pen.old (frames.old.items ++ frame ∷ []) given pen.new frames.new.items) }
    ensures grown { result ≡ Err Grown → IsWholeTooLong tokens.now.lexemes tokens.now.end source.now.outer.items pen.old (frames.old.items ++ frame ∷ []) given }
{
    if frame.next >= frame.stop {
        end_body(tokens, pen, frame.call)?;
        return Ok(given);
    }
    let place = place_in(tokens, source, frame);
    if is_call(&source.scan.signs, place) {
        return write_call(tokens, source, pen, frames, frame, place, given);
    }
    put_token(tokens, source, pen, frame.call, place)?;
    let rest = Frame {
        next: frame.next + 1,
        stop: frame.stop,
        call: frame.call,
    };
    frames.push(put_run(tokens, source, pen, rest)?)?;
    Ok(given)
}

/// Writes the tokens of an expanded text. Each turn writes a token at least, or ends the part outside
/// of procedures.
pub(crate) fn write_all(
    alloc: Global,
    tokens: &Tokens<'_>,
    source: &Source<'_>,
) -> Result<Sheet, Stop>
    requires { IsSource tokens.now.lexemes tokens.now.end source.now }
    ensures sheet { IfOk result IsSheet }
    ensures tokens { IfOk result (λ sheet. tokens_of sheet ≡ expansion tokens.now.lexemes tokens.now.end) }
    ensures grown { result ≡ Err Grown → 1048576 < length (spaced_out (expansion tokens.now.lexemes tokens.now.end)) }
{
    let mut pen = new_pen(alloc);
    let mut frames: Vec<Frame> = Vec::new(alloc);
    frames.push(Frame {
        next: 0,
        stop: source.outer.len(),
        call: None,
    })?;
    let mut given = 0;
    'writing: while let Some(frame) = frames.pop() {
        given = write_next(tokens, source, &mut pen, &mut frames, frame, given)?;
    }
    Ok(pen.sheet)
}
