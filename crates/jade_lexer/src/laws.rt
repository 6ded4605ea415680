ghost use Rattle.std.specs.Prelude.{◌≡◌, ℕ, List};
ghost use Rattle.jade_lexer.specs.declared.lexeme.LexError.{LexError};
ghost use Rattle.jade_lexer.specs.Lexemes.{TokenList};
ghost use Rattle.jade_lexer.specs.Reading.{reading, Whole, Refused};
ghost use Rattle.jade_lexer.specs.Cut.{IsCut, IsRefused, Spans};

/// A law of readings, which does nothing: a text reads as a whole list of tokens exactly where it
/// is cut into them, and each token then stands in the text where it says. It reads as a refusal
/// exactly where that is what is refused first.
pub fn reading_is_cut()
    ensures cut { (text : List ℕ) (tokens : TokenList) → reading text ≡ Whole tokens → IsCut text tokens }
    ensures whole { (text : List ℕ) (tokens : TokenList) → IsCut text tokens → reading text ≡ Whole tokens }
    ensures stops { (text : List ℕ) (error : LexError) → reading text ≡ Refused error → IsRefused text error }
    ensures refused { (text : List ℕ) (error : LexError) → IsRefused text error → reading text ≡ Refused error }
    ensures spans { (text : List ℕ) (tokens : TokenList) → IsCut text tokens → Spans text tokens }
{}
