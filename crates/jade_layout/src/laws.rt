ghost use Rattle.std.specs.Prelude.{◌≡◌, false, true};
ghost use Rattle.jade_syntax.specs.declared.tree.Program.{Program};
ghost use Rattle.jade_syntax.specs.Shapes.{is_shaped};
ghost use Rattle.jade_layout.specs.Layout.{layout};
ghost use Rattle.jade_layout.specs.Readable.{is_readable, ReadsAs};
ghost use Rattle.jade_layout.specs.Spelling.{Tokens, spelling};

use jade_lexer::laws::reading_is_cut;

/// A law of layouts, which does nothing: the printed text of a program is read as the tokens that
/// it was printed from. So is the layout of any tokens that a lexer can read one after another.
pub fn layout_is_read()
    ensures program { (p : Program) → is_shaped p ≡ true → ReadsAs (layout (spelling p)) (spelling p) }
    ensures tokens { (ts : Tokens) → is_readable 0 false ts ≡ true → ReadsAs (layout ts) ts }
{
    reading_is_cut();
}
