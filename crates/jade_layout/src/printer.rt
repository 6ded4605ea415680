//! A text that grows by tokens.

ghost use Rattle.std.specs.Prelude.{◌≡◌, ◌+◌, ◌<◌, ◌≤◌, [], ◌∷◌, ◌++◌, length, IfOk, OnOk};
ghost use Rattle.std.specs.Fmt.{signed_decimal};
ghost use Rattle.jade_layout.specs.Layout.{gap, depth_after, depth_before, indent};
ghost use Rattle.jade_layout.specs.Printed.{gap_bytes, blank, with_token, Adds};

use crate::tokens::{breaks, closes_block, is_sign, opens_block, touches};
use jade_base::Memory;
use std::alloc::Global;
use std::marker::Model;

/// What stands between two tokens: nothing, a space, or a new line with the indent of so many open
/// blocks.
#[derive(Clone, Copy, Debug, PartialEq, Eq)]
pub(crate) enum Gap {
    Nothing,
    Space,
    Line(usize),
}

/// The text so far. Its last token begins at `start`.
#[derive(Drop)]
pub(crate) struct Printer {
    text: Vec<u8>,
    start: usize,
    sign: bool,
    depth: usize,
}

impl Model for Printer {
    ghost use Rattle.std.specs.Prelude.{◌≤◌, length, drop};
    ghost use Rattle.jade_layout.specs.Printed.{Printed};

    ghost Value = { Printed };

    ghost view = { λ p. record { text = p.text.items; last = drop p.start p.text.items; sign = p.sign; depth = p.depth } };

    ghost invariant = { λ p. (p.start ≤ length p.text.items) × (p.depth ≤ length p.text.items) };
}

impl Printer {
    /// Nothing is written yet.
    pub(crate) fn new(alloc: Global) -> Printer
        ensures { result ≡ blank }
    {
        Printer {
            text: Vec::new(alloc),
            start: 0,
            sign: false,
            depth: 0,
        }
    }

    /// Lays out one more token.
    fn lay(&mut self, token: &[u8]) -> Result<(), Memory>
        ensures { OnOk result (self.new ≡ with_token self.old token.now) }
    {
        let last = &self.text[self.start..];
        let gap = gap_between(last, self.sign, self.depth, token);
        let sign = is_sign(last, token);
        let start = append(&mut self.text, gap, token)?;
        self.start = start;
        self.sign = sign;
        self.depth = depth_after(self.depth, token);
        Ok(())
    }

    /// Lays out one more token.
    pub(crate) fn put(&mut self, token: &[u8]) -> Result<(), Memory>
        ensures { OnOk result (Adds self.old self.new (token.now ∷ [])) }
    {
        self.lay(token)
    }

    /// Lays out a number in decimal.
    pub(crate) fn put_decimal(&mut self, value: i64) -> Result<(), Memory>
        ensures { OnOk result (Adds self.old self.new (signed_decimal value ∷ [])) }
    {
        let text = format!(in *self.text.allocator(); "{}", value)?;
        self.put(text.as_bytes())
    }

    /// The text, ended by a line feed.
    pub(crate) fn finish(self) -> Result<Vec<u8>, Memory>
        ensures { IfOk result (λ text. text.items ≡ self.text ++ 10 ∷ []) }
    {
        let mut text = self.text;
        text.push(b'\n')?;
        Ok(text)
    }
}

/// The blocks that are open after a token.
fn depth_after(depth: usize, token: &[u8]) -> usize
    requires { depth < 18446744073709551615 }
    ensures { result ≡ depth_after depth token.now }
{
    if opens_block(token) {
        depth + 1
    } else if closes_block(token) {
        depth.saturating_sub(1)
    } else {
        depth
    }
}

/// The blocks that are open at the beginning of a line.
fn depth_before(depth: usize, token: &[u8]) -> usize
    ensures { result ≡ depth_before depth token.now }
{
    if closes_block(token) {
        depth.saturating_sub(1)
    } else {
        depth
    }
}

/// What stands between two tokens.
fn gap_between(first: &[u8], sign: bool, depth: usize, second: &[u8]) -> Gap
    ensures { gap_bytes result ≡ gap first.now sign depth second.now }
{
    if first.is_empty() {
        Gap::Nothing
    } else if breaks(first, second) {
        Gap::Line(depth_before(depth, second))
    } else if touches(first, sign, second) {
        Gap::Nothing
    } else {
        Gap::Space
    }
}

/// Writes a new line with its indent.
fn write_line(text: &mut Vec<u8>, depth: usize) -> Result<(), Memory>
    ensures wrote { OnOk result (text.new.items ≡ text.old.items ++ 10 ∷ indent depth) }
    ensures grew { length text.old.items ≤ length text.new.items }
{
    text.push(b'\n')?;
    for i in 0..depth {
        text.extend_from_slice(b"    ")?;
    }
    Ok(())
}

fn write_gap(text: &mut Vec<u8>, gap: Gap) -> Result<(), Memory>
    ensures wrote { OnOk result (text.new.items ≡ text.old.items ++ gap_bytes gap) }
    ensures grew { length text.old.items ≤ length text.new.items }
{
    match gap {
        Gap::Nothing => Ok(()),
        Gap::Space => {
            text.push(b' ')?;
            Ok(())
        }
        Gap::Line(depth) => write_line(text, depth),
    }
}

/// Writes a gap and a token, and answers where the token begins.
fn append(text: &mut Vec<u8>, gap: Gap, token: &[u8]) -> Result<usize, Memory>
    ensures wrote { OnOk result (text.new.items ≡ text.old.items ++ gap_bytes gap ++ token.now) }
    ensures place { IfOk result (λ start. start ≡ length (text.old.items ++ gap_bytes gap)) }
    ensures grew { length text.old.items ≤ length text.new.items }
{
    write_gap(text, gap)?;
    let start = text.len();
    text.extend_from_slice(token)?;
    Ok(start)
}
