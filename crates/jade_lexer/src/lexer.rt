ghost use Rattle.std.specs.Prelude.{◌≡◌, ◌+◌, ◌<◌, ◌≤◌, ◌^◌, length, take, IfOk, IfErr};
ghost use Rattle.jade_lexer.specs.Reading.{next_pos, pos_after, depth_after, spot_after, token_part, first_part, part_length, reading, Whole, IsRefusal};

use crate::alphabet::{
    begins_comment, is_closer, is_number, is_opener, is_separator, line_length, token_length,
};
use crate::lexeme::{LexError, Lexeme, Tokens};
use jade_alphabet::{DEPTH_LIMIT, WORD_LIMIT, is_letter};
use jade_base::Pos;
use std::alloc::Global;

/// Where the reading of a text stands: the number of bytes before it, the position of the next
/// byte, and how many brackets are open.
#[derive(Clone, Copy, Debug)]
struct Spot {
    start: usize,
    pos: Pos,
    depth: u32,
}

/// Where every text begins.
const FIRST_SPOT: Spot = Spot {
    start: 0,
    pos: Pos { line: 1, column: 1 },
    depth: 0,
};

/// What stands first at a spot, and its length in bytes: what means nothing, or a token.
#[derive(Clone, Copy, Debug)]
enum Part {
    Blank(usize),
    Token(usize),
}

/// The position after a byte.
fn next_pos(pos: Pos, byte: u8) -> Pos
    requires line { pos.line + 1 < 2 ^ 32 }
    requires column { pos.column + 1 < 2 ^ 32 }
    ensures { result ≡ next_pos pos byte }
{
    if byte == b'\n' {
        Pos {
            line: pos.line + 1,
            column: 1,
        }
    } else {
        Pos {
            line: pos.line,
            column: pos.column + 1,
        }
    }
}

/// The position after some bytes.
fn pos_after(mut pos: Pos, bytes: &[u8]) -> Pos
    requires line { pos.line + length bytes.now < 2 ^ 32 }
    requires column { pos.column + length bytes.now < 2 ^ 32 }
    ensures value { result ≡ pos_after pos bytes.now }
    ensures line { result.line ≤ pos.line + length bytes.now }
    ensures column { result.column ≤ pos.column + length bytes.now }
{
    for byte in bytes {
        pos = next_pos(pos, *byte);
    }
    pos
}

/// The position of the first byte that is too many in a word.
fn word_limit_pos(pos: Pos, word: &[u8]) -> Pos
    requires long { WORD_LIMIT ≤ length word.now }
    requires line { pos.line + length word.now < 2 ^ 32 }
    requires column { pos.column + length word.now < 2 ^ 32 }
    ensures { result ≡ pos_after pos (take WORD_LIMIT word.now) }
{
    let (allowed, _rest) = word.split_at(WORD_LIMIT);
    pos_after(pos, allowed)
}

/// The number of open brackets after a token that begins with a byte.
fn depth_after(depth: u32, byte: u8) -> u32
    requires { depth + 1 < 2 ^ 32 }
    ensures value { result ≡ depth_after depth byte }
    ensures bound { result ≤ depth + 1 }
{
    if is_opener(byte) {
        depth + 1
    } else if is_closer(byte) {
        depth.saturating_sub(1)
    } else {
        depth
    }
}

/// What a longest token at a spot comes to, before the bytes that follow it.
fn token_part(spot: Spot, token: &[u8], after: &[u8]) -> Result<Part, LexError>
    requires line { spot.pos.line + length token.now < 2 ^ 32 }
    requires column { spot.pos.column + length token.now < 2 ^ 32 }
    ensures value { result ≡ token_part spot token.now after.now }
    ensures some { IfOk result (λ part. 0 < part_length part) }
    ensures within { IfOk result (λ part. part_length part ≤ length token.now) }
{
    if token.is_empty() {
        return Err(LexError::Byte(spot.pos));
    }
    if is_letter(token[0]) && token.len() > WORD_LIMIT {
        return Err(LexError::Byte(word_limit_pos(spot.pos, token)));
    }
    if token[0].is_ascii_digit() && !is_number(token, after) {
        return Err(LexError::Number(spot.pos));
    }
    if is_opener(token[0]) && spot.depth as usize >= DEPTH_LIMIT {
        return Err(LexError::Deep(spot.pos));
    }
    Ok(Part::Token(token.len()))
}

/// What stands first at a spot.
fn first_part(spot: Spot, bytes: &[u8]) -> Result<Part, LexError>
    requires nonempty { 0 < length bytes.now }
    requires line { spot.pos.line + length bytes.now < 2 ^ 32 }
    requires column { spot.pos.column + length bytes.now < 2 ^ 32 }
    ensures value { result ≡ first_part spot bytes.now }
    ensures some { IfOk result (λ part. 0 < part_length part) }
    ensures within { IfOk result (λ part. part_length part ≤ length bytes.now) }
{
    if is_separator(bytes[0]) {
        return Ok(Part::Blank(1));
    }
    if begins_comment(bytes) {
        return Ok(Part::Blank(line_length(bytes)));
    }
    let length = token_length(bytes);
    let (token, after) = bytes.split_at(length);
    token_part(spot, token, after)
}

impl Spot {
    /// The spot after some bytes, at which so many brackets are open.
    fn after(self, bytes: &[u8], depth: u32) -> Spot
        requires start { self.start + length bytes.now < 2 ^ 64 }
        requires line { self.pos.line + length bytes.now < 2 ^ 32 }
        requires column { self.pos.column + length bytes.now < 2 ^ 32 }
        ensures value { result ≡ spot_after self bytes.now depth }
        ensures line { result.pos.line ≤ self.pos.line + length bytes.now }
        ensures column { result.pos.column ≤ self.pos.column + length bytes.now }
    {
        Spot {
            start: self.start + bytes.len(),
            pos: pos_after(self.pos, bytes),
            depth,
        }
    }
}

/// The tokens of a text of at most 1,048,576 bytes, or its first refused place.
pub fn tokens<'t>(alloc: Global, text: &'t [u8]) -> Result<Tokens<'t>, LexError>
    requires { length text.now ≤ 1048576 }
    ensures whole { IfOk result (λ found. reading text.now ≡ Whole found) }
    ensures refused { IfErr result (IsRefusal (reading text.now)) }
{
    let mut items = Vec::new(alloc);
    let mut spot = FIRST_SPOT;
    let mut rest = text;
    'parts: while !rest.is_empty() {
        match first_part(spot, rest) {
            Ok(Part::Blank(length)) => {
                let (blank, after) = rest.split_at(length);
                spot = spot.after(blank, spot.depth);
                rest = after;
            }
            Ok(Part::Token(length)) => {
                let (token, after) = rest.split_at(length);
                let depth = depth_after(spot.depth, token[0]);
                let lexeme = Lexeme {
                    text: token,
                    start: spot.start,
                    pos: spot.pos,
                };
                if items.push(lexeme).is_err() {
                    return Err(LexError::Memory);
                }
                spot = spot.after(token, depth);
                rest = after;
            }
            Err(error) => return Err(error),
        }
    }
    Ok(Tokens {
        items,
        end: spot.pos,
    })
}

#[cfg(test)]
mod tests {
    use super::*;

    /// What is refused of a short text, or nothing.
    fn refusal(alloc: Global, text: &[u8]) -> Option<LexError>
        requires { length text.now ≤ 1048576 }
    {
        match tokens(alloc, text) {
            Ok(_) => None,
            Err(error) => Some(error),
        }
    }

    #[test]
    fn the_first_refused_place(rt: HostRuntime) {
        let at = |line, column| Pos { line, column };
        let word = b"word_of_64_bytes_word_of_64_bytes_word_of_64_bytes_word_of_64_by";
        let longer = b"  word_of_64_bytes_word_of_64_bytes_word_of_64_bytes_word_of_64_byt";
        let deep =
            b"main { int a = (((((((((((((((((((((((((((((((((((((((((((((((((((((((((((((((( ";
        let table: [(&[u8], Option<LexError>); 17] = [
            (b"main { # }", Some(LexError::Byte(at(1, 8)))),
            (b"main { . }", Some(LexError::Byte(at(1, 8)))),
            (b"\r\n\t& &&", Some(LexError::Byte(at(2, 2)))),
            (b"// \xff #\n\xff", Some(LexError::Byte(at(2, 1)))),
            (b"a...", Some(LexError::Byte(at(1, 4)))),
            (word, None),
            (longer, Some(LexError::Byte(at(1, 67)))),
            (
                b"main { int a = 9223372036854775808; }",
                Some(LexError::Number(at(1, 16))),
            ),
            (b"main { int a = 9223372036854775807; }", None),
            (b"main { int a = 007; }", Some(LexError::Number(at(1, 16)))),
            (b"main { int a = 0; }", None),
            (b"\n\n 7_", Some(LexError::Number(at(3, 2)))),
            (
                b"99999999999999999999999999999999999",
                Some(LexError::Number(at(1, 1))),
            ),
            (deep, Some(LexError::Deep(at(1, 79)))),
            (b")))]}", None),
            (b"/", None),
            (b"", None),
        ];
        for (text, wanted) in table {
            assert!(rt; text.len() < 1000);
            assert_eq!(rt; refusal(rt.alloc(), text), wanted);
        }
    }

    #[test]
    fn the_longest_tokens(rt: HostRuntime) {
        let text = b"a1..2<=_b// = \r\n\t>=<(//";
        let wanted: [(&[u8], usize, u32, u32); 8] = [
            (b"a1", 0, 1, 1),
            (b"..", 2, 1, 3),
            (b"2", 4, 1, 5),
            (b"<=", 5, 1, 6),
            (b"_b", 7, 1, 8),
            (b">=", 17, 2, 2),
            (b"<", 19, 2, 4),
            (b"(", 20, 2, 5),
        ];
        let found = tokens(rt.alloc(), text).expect(&rt, "memory");
        assert_eq!(rt; found.len(), wanted.len());
        for (place, (bytes, start, line, column)) in wanted.iter().enumerate() {
            assert!(rt; place < found.len());
            let lexeme = found.at(place);
            assert_eq!(rt; lexeme.text, *bytes);
            assert_eq!(rt; lexeme.start, *start);
            assert_eq!(rt;
                lexeme.pos,
                Pos {
                    line: *line,
                    column: *column
                }
            );
        }
        assert_eq!(rt; found.end(), Pos { line: 2, column: 8 });
    }
}
