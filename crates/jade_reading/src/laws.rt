//! What is proved of the trees that texts and tokens read as.

ghost use Rattle.std.specs.Prelude.{◌≡◌, ℕ, ◌≤◌, true, List, length};
ghost use Rattle.jade_lexer.specs.Lexemes.{TokenList};
ghost use Rattle.jade_lexer.specs.Reading.{reading, Whole};
ghost use Rattle.jade_syntax.specs.declared.tree.Program.{Program};
ghost use Rattle.jade_syntax.specs.PlacedImage.{placed_program};
ghost use Rattle.jade_syntax.specs.Shapes.{program_extent, is_shaped};
ghost use Rattle.jade_layout.specs.Spelling.{spelling};
ghost use Rattle.jade_parser.specs.declared.ParseError.{ParseError};
ghost use Rattle.jade_parser.specs.Spelled.{AllValid, AllShort};
ghost use Rattle.jade_parser.specs.Programs.{program_parts};
ghost use Rattle.jade_parser.specs.Grammar.{IsProgram, IsReading, IsRefusal, bytes_of, texts};
ghost use Rattle.jade_parser.specs.OneReading.{IsMemory};
ghost use Rattle.jade_reading.specs.Unplaced.{unplaced};
ghost use Rattle.jade_reading.specs.ReadingBack.{ReadsBack};

use jade_layout::laws::layout_is_read;
use jade_lexer::laws::reading_is_cut;

/// A law of programs, which does nothing: the tokens that the grammar gives a program are those of
/// its printed layout.
pub fn spelled_alike()
    ensures { (p : Program) → bytes_of (program_parts p) ≡ spelling p }
{}

/// A law of readings, which does nothing: the programs that tokens read as have one abstract
/// syntax, places included.
pub fn one_tree()
    ensures { (tokens : TokenList) (p q : Program) → IsReading tokens p → IsReading tokens q → placed_program p ≡ placed_program q }
{}

/// A law of programs, which does nothing: programs that are spelled alike are the same tree but
/// for places.
pub fn one_tree_but_for_places()
    ensures { (p q : Program) → IsProgram p → IsProgram q → bytes_of (program_parts p) ≡ bytes_of (program_parts q)
        → unplaced (placed_program p) ≡ unplaced (placed_program q) }
{}

/// A law of programs, which does nothing: the rules of shape count the tokens of a program, and
/// find its names, numbers and outermost expressions as they must be exactly where each token may
/// stand in a program and no outermost expression has more than 256.
pub fn shape_of_program()
    ensures count { (p : Program) → (program_extent p.items p.main).tokens ≡ length (program_parts p) }
    ensures sound { (p : Program) → (program_extent p.items p.main).sound ≡ true → AllValid (program_parts p) × AllShort (program_parts p) }
    ensures shaped { (p : Program) → AllValid (program_parts p) → AllShort (program_parts p) → (program_extent p.items p.main).sound ≡ true }
{}

/// A law of refusals, which does nothing: tokens that spell a program of the grammar with no
/// outermost expression too long are not refused, wherever they stand.
pub fn spelled_is_not_refused()
    ensures { (tokens : TokenList) (p : Program) (e : ParseError) → IsProgram p → AllShort (program_parts p) → bytes_of (program_parts p) ≡ texts tokens
        → IsRefusal tokens e → IsMemory e }
{}

/// A law of texts, which does nothing: a program that a text of at most 1,048,576 bytes reads as
/// keeps the rules of shape, with its brackets at most 64 deep.
pub fn read_is_shaped()
    ensures { (text : List ℕ) (tokens : TokenList) (p : Program) → length text ≤ 1048576 → reading text ≡ Whole tokens → IsReading tokens p
        → is_shaped p ≡ true }
{
    reading_is_cut();
}

/// A law of layouts, which does nothing: the printed text of a program that keeps the rules of
/// shape is cut into tokens that are not refused, and each tree that they read as is the same but
/// for places, and is printed as the same text again.
pub fn layout_reads_back()
    ensures { (p : Program) → is_shaped p ≡ true → ReadsBack p }
{
    layout_is_read();
}
