//! What is proved of readings, for whoever stands on it.

ghost use Rattle.std.specs.Prelude.{◌≡◌};
ghost use Rattle.jade_lexer.specs.Lexemes.{TokenList};
ghost use Rattle.jade_syntax.specs.declared.tree.Program.{Program};
ghost use Rattle.jade_parser.specs.Grammar.{IsReading, IsRefusal, bytes_of};
ghost use Rattle.jade_parser.specs.Programs.{program_parts};
ghost use Rattle.jade_parser.specs.OneReading.{SameRefusal, IsMemory};

use crate::ParseError;

/// A law of readings, which does nothing: tokens read as programs of one spelling, or they are
/// refused at one place and for one reason, and not both.
pub fn one_reading()
    ensures spelling { (tokens : TokenList) (p q : Program) → IsReading tokens p → IsReading tokens q
        → bytes_of (program_parts p) ≡ bytes_of (program_parts q) }
    ensures refusal { (tokens : TokenList) (e f : ParseError) → IsRefusal tokens e → IsRefusal tokens f → SameRefusal e f }
    ensures apart { (tokens : TokenList) (p : Program) (e : ParseError) → IsReading tokens p → IsRefusal tokens e → IsMemory e }
{}
