//! What is proved of trees whose names and places are replaced.

ghost use Rattle.std.specs.Prelude.{◌≡◌};
ghost use Rattle.jade_base.specs.declared.place.Pos.{Pos};
ghost use Rattle.jade_syntax.specs.Abstract.{Name};
ghost use Rattle.jade_syntax.specs.declared.tree.CellRef.{CellRef};
ghost use Rattle.jade_syntax.specs.declared.tree.Expr.{Expr};
ghost use Rattle.jade_syntax.specs.PlacedImage.{term, reference, placed_program};
ghost use Rattle.jade_parser.specs.Spelled.{expr_parts};
ghost use Rattle.jade_lexer.specs.Lexemes.{TokenList};
ghost use Rattle.jade_syntax.specs.declared.tree.Program.{Program};
ghost use Rattle.jade_parser.specs.Grammar.{IsReading};
ghost use Rattle.jade_reading.specs.Unplaced.{moved_program};
ghost use Rattle.replaced_trees.specs.MovedTree.{tokens_moved, tree_moved};
ghost use Rattle.replaced_trees.specs.Parts.{parts_replaced};
ghost use Rattle.replaced_trees.specs.Replaced.{expr_replaced, term_replaced, cell_replaced, reference_replaced};

/// A law of expressions, which does nothing: an expression or a cell whose names and places are
/// replaced is seen as what it was seen as, with these replaced.
pub fn seen_replaced()
    ensures expression { (to : Name → Name) → (home : Pos → Pos) → (e : Expr)
        → term (expr_replaced to home e) ≡ term_replaced to home (term e) }
    ensures cell { (to : Name → Name) → (home : Pos → Pos) → (c : CellRef)
        → reference (cell_replaced to home c) ≡ reference_replaced to home (reference c) }
{}

/// A law of expressions, which does nothing: the tokens of an expression whose names and places
/// are replaced are its tokens with these replaced.
pub fn spelled_replaced()
    ensures { (to : Name → Name) → (home : Pos → Pos) → (e : Expr)
        → expr_parts (expr_replaced to home e) ≡ parts_replaced to home (expr_parts e) }
{}

/// A law of programs, which does nothing: tokens at other places are read as the program with these
/// places, and that is seen as the program was, with these.
pub fn read_at_other_places()
    ensures reading { (home : Pos → Pos) → (tokens : TokenList) → (p : Program) → IsReading tokens p
        → IsReading (tokens_moved home tokens) (tree_moved home p) }
    ensures image { (home : Pos → Pos) → (p : Program) → placed_program (tree_moved home p) ≡ moved_program home (placed_program p) }
{}
