//! A text whose calls stand as the bodies of their procedures.

ghost use Rattle.std.specs.Prelude.{◌≡◌, ◌≢◌, ◌+◌, ◌≤◌, length, Ok, Err, None, IfOk, IfErr};
ghost use Rattle.proc_expand.specs.Words.{has_proc};
ghost use Rattle.proc_expand.specs.Refusals.{refusal};
ghost use Rattle.proc_expand.specs.steps.Looking.{IsScan, Knows};
ghost use Rattle.proc_expand.specs.Written.{pos_at};
ghost use Rattle.proc_expand.specs.steps.Sheets.{tokens_of, IsSheet};
ghost use Rattle.proc_expand.specs.Expanded.{text_of, origin_of, outcome, error_for};
ghost use Rattle.proc_expand.specs.steps.Kept.{origin_among, Ascend};
ghost use Rattle.proc_expand.specs.declared.error.ExpandError.TheVariants.{Memory};

use crate::error::ExpandError;
use crate::known::procedures_by_name;
use crate::procedures::Procedure;
use crate::refusal::{Reason, Refusal, first_refusal};
use crate::scan::{Scan, scan_of};
use crate::sheet::{Piece, Sheet, Stop};
use crate::source::source_of;
use crate::write::{pos_at, write_all};
use jade_base::Pos;
use jade_lexer::Tokens;
use jade_syntax::name::same_name;
use name_scope::NameScope;
use std::alloc::Global;
use std::marker::Model;

/// An expanded text. Contracts see its tokens, each with the position in the source that it comes
/// from, and the position at which the source ends.
#[derive(Debug, Drop)]
pub struct Expanded {
    text: Vec<u8>,
    pieces: Vec<Piece>,
    end: Pos,
}

impl Model for Expanded {
    ghost use Rattle.proc_expand.specs.Expanded.{ExpandedText};
    ghost use Rattle.proc_expand.specs.steps.Kept.{IsExpanded, tokens_in};

    ghost Value = { ExpandedText };

    ghost view = { λ e. record { tokens = tokens_in e.text.items e.pieces.items; end = e.end } };

    ghost invariant = { λ e. IsExpanded e.text.items e.pieces.items };
}

/// Whether a text has a token that is the word `proc`.
pub fn has_proc(tokens: &Tokens<'_>) -> bool
    ensures { result ≡ has_proc tokens.now.lexemes }
{
    for place in 0..tokens.len() {
        if same_name(tokens.at(place).text, b"proc") {
            return true;
        }
    }
    false
}

/// The text, of at most 1,048,576 tokens, in which each call stands as the body of its procedure, and
/// procedures stand no more. A text is refused at the first place with a reason; it has grown if it
/// is not refused, and would be longer than 1,048,576 bytes.
pub fn expand(alloc: Global, tokens: &Tokens<'_>) -> Result<Expanded, ExpandError>
    requires few { length tokens.now.lexemes ≤ 1048576 }
    ensures expanded { IfOk result (λ text. outcome tokens.now ≡ Ok text) }
    ensures refused { IfErr result (λ error. error ≢ Memory → outcome tokens.now ≡ Err error) }
{
    let scan = scan_of(alloc, tokens)?;
    let known = procedures_by_name(alloc, tokens, &scan)?;
    match first_refusal(alloc, tokens, &scan, &known)? {
        Some(refusal) => Err(error_at(tokens, refusal)),
        None => write_text(alloc, tokens, scan, known),
    }
}

/// A refusal by its position.
fn error_at(tokens: &Tokens<'_>, refusal: Refusal) -> ExpandError
    ensures { result ≡ error_for refusal.why (pos_at tokens.now.lexemes tokens.now.end tokens.now.lexemes refusal.place) }
{
    let pos = pos_at(tokens, refusal.place);
    match refusal.why {
        Reason::Shape => ExpandError::Shape(pos),
        Reason::Unknown => ExpandError::Unknown(pos),
        Reason::Count => ExpandError::Count(pos),
        Reason::Twice => ExpandError::Twice(pos),
    }
}

/// The expanded text of one that is not refused.
fn write_text<'t>(
    alloc: Global,
    tokens: &Tokens<'t>,
    scan: Scan,
    known: NameScope<'t, Procedure>,
) -> Result<Expanded, ExpandError>
    requires accepted { refusal tokens.now.lexemes ≡ None }
    requires few { length tokens.now.lexemes ≤ 1048576 }
    requires scan { IsScan tokens.now.lexemes scan }
    requires known { Knows tokens.now.lexemes (length tokens.now.lexemes) known }
    ensures expanded { IfOk result (λ text. outcome tokens.now ≡ Ok text) }
    ensures refused { IfErr result (λ error. error ≢ Memory → outcome tokens.now ≡ Err error) }
{
    let source = source_of(alloc, tokens, scan, known)?;
    match write_all(alloc, tokens, &source) {
        Ok(sheet) => finished(sheet, tokens.end()),
        Err(Stop::Grown) => Err(ExpandError::Grown),
        Err(Stop::Memory) => Err(ExpandError::Memory),
    }
}

/// What is written, with a line feed in place of the last space.
fn finished(sheet: Sheet, end: Pos) -> Result<Expanded, ExpandError>
    requires { IsSheet sheet }
    ensures expanded { IfOk result (λ text. text ≡ record { tokens = tokens_of sheet; end = end }) }
    ensures refused { IfErr result (λ error. error ≡ Memory) }
{
    let mut text = sheet.text;
    let kept = text.len().saturating_sub(1);
    text.truncate(kept);
    text.push(b'\n')?;
    Ok(Expanded {
        text,
        pieces: sheet.pieces,
        end,
    })
}

/// The origin of the piece that begins at a byte, counted from 0, or else another position.
fn origin_in(pieces: &[Piece], start: usize, end: Pos) -> Pos
    requires { Ascend pieces.now }
    ensures { result ≡ origin_among end (start + 1) pieces.now }
{
    let place = pieces.partition_point(|piece| piece.start < start);
    if place == pieces.len() {
        return end;
    }
    if pieces[place].start == start {
        pieces[place].origin
    } else {
        end
    }
}

impl Expanded {
    /// The bytes of the text: its tokens with one space between, and a line feed at the end. It takes
    /// no memory.
    pub fn text(&self) -> &[u8]
        ensures { result.now ≡ text_of self.now }
    {
        &self.text
    }

    /// The bytes of the text in their own memory, without a copy. It takes no memory.
    pub fn into_text(self) -> Vec<u8>
        ensures { result.items ≡ text_of self }
    {
        self.text
    }

    /// Where a token comes from whose first byte stands at a position of the text; for other
    /// positions it is where the source ends. Found by halves, without memory.
    pub fn origin(&self, pos: Pos) -> Pos
        ensures { result ≡ origin_of self.now pos }
    {
        if pos.line != 1 {
            return self.end;
        }
        if pos.column == 0 {
            return self.end;
        }
        origin_in(&self.pieces, pos.column as usize - 1, self.end)
    }
}
