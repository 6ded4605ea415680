//! Whether a program's tasks may commute.

ghost use Rattle.std.specs.Prelude.{◌≡◌};
ghost use Rattle.jade_syntax.specs.Image.{action, block, program as abstracted};
ghost use Rattle.jade_meaning.specs.Uncommuting.{is_cm, has_cm, any_cm, uses_cm};

use jade_syntax::tree::{Block, DeclareWord, Program, Statement};

// Whether the word is `cm`.
fn is_cm(word: DeclareWord) -> bool
    ensures { result ≡ is_cm word }
{
    match word {
        DeclareWord::Cm => true,
        DeclareWord::Rd
        | DeclareWord::Wr
        | DeclareWord::RdWr
        | DeclareWord::DfRd
        | DeclareWord::DfWr
        | DeclareWord::DfRdWr
        | DeclareWord::NoRd
        | DeclareWord::NoWr
        | DeclareWord::NoRdWr => false,
    }
}

#[cycle(cm)]
fn has_cm(statement: &Statement) -> bool
    ensures { result ≡ has_cm (action statement.now) }
{
    match statement {
        Statement::Local { .. } => false,
        Statement::Assign { .. } => false,
        Statement::Store { .. } => false,
        Statement::If {
            test: _,
            then,
            otherwise,
        } => match otherwise {
            None => any_cm(then),
            Some(other) => any_cm(then) || any_cm(other),
        },
        Statement::For { body, .. } => any_cm(body),
        Statement::Withonly { section, body, .. } => any_cm(section) || any_cm(body),
        Statement::With { section, .. } => any_cm(section),
        Statement::Declare { word, .. } => is_cm(*word),
    }
}

#[cycle(cm)]
fn any_cm(statements: &Block) -> bool
    ensures { result ≡ any_cm (block statements.now) }
{
    for i in 0..statements.len() {
        if has_cm(statements.at(i)) {
            return true;
        }
    }
    false
}

/// Whether the word `cm` stands in a program.
pub fn uses_cm(program: &Program) -> bool
    ensures { result ≡ uses_cm (abstracted program.now) }
{
    any_cm(&program.main)
}
