//! Where statements stand.

ghost use Rattle.std.specs.Prelude.{◌≡◌};
ghost use Rattle.std.specs.List.{list_all};
ghost use Rattle.jade_syntax.specs.Shapes.{is_main, declares_child, declares_change, declares, is_placed};

use crate::tree::{Block, DeclareWord, Statement};

/// What a statement stands in: a body of a task, the section of a `withonly`, or that of a `with`.
#[derive(Clone, Copy, Debug, PartialEq, Eq)]
pub enum BlockKind {
    Main,
    Section,
    Amends,
}

/// Whether statements stand in the body of a task.
pub fn is_main(place: BlockKind) -> bool
    ensures { result ≡ is_main place }
{
    match place {
        BlockKind::Main => true,
        BlockKind::Section => false,
        BlockKind::Amends => false,
    }
}

fn declares_child(word: DeclareWord) -> bool
    ensures { result ≡ declares_child word }
{
    match word {
        DeclareWord::Rd => true,
        DeclareWord::Wr => true,
        DeclareWord::RdWr => true,
        DeclareWord::DfRd => true,
        DeclareWord::DfWr => true,
        DeclareWord::DfRdWr => true,
        DeclareWord::Cm => true,
        DeclareWord::NoRd => false,
        DeclareWord::NoWr => false,
        DeclareWord::NoRdWr => false,
    }
}

fn declares_change(word: DeclareWord) -> bool
    ensures { result ≡ declares_change word }
{
    match word {
        DeclareWord::Rd => true,
        DeclareWord::Wr => true,
        DeclareWord::RdWr => true,
        DeclareWord::DfRd => false,
        DeclareWord::DfWr => false,
        DeclareWord::DfRdWr => false,
        DeclareWord::Cm => false,
        DeclareWord::NoRd => true,
        DeclareWord::NoWr => true,
        DeclareWord::NoRdWr => true,
    }
}

/// Whether a declaration with this word stands here.
pub fn declares(place: BlockKind, word: DeclareWord) -> bool
    ensures { result ≡ declares place word }
{
    match place {
        BlockKind::Main => false,
        BlockKind::Section => declares_child(word),
        BlockKind::Amends => declares_change(word),
    }
}

#[cycle(placed)]
fn is_placed(statement: &Statement, place: BlockKind) -> bool
    ensures { result ≡ is_placed place statement.now }
{
    match statement {
        Statement::Local { .. } => true,
        Statement::Assign { .. } => true,
        Statement::Store { .. } => is_main(place),
        Statement::If {
            test: _,
            then,
            otherwise,
        } => match otherwise {
            None => are_placed(then, place),
            Some(block) => are_placed(then, place) && are_placed(block, place),
        },
        Statement::For { body, .. } => are_placed(body, place),
        Statement::Withonly { section, body, .. } => {
            is_main(place)
                && (are_placed(section, BlockKind::Section) && are_placed(body, BlockKind::Main))
        }
        Statement::With { section, .. } => is_main(place) && are_placed(section, BlockKind::Amends),
        Statement::Declare { word, .. } => declares(place, *word),
    }
}

/// Whether all statements of a block stand where they may.
#[cycle(placed)]
pub(crate) fn are_placed(block: &Block, place: BlockKind) -> bool
    ensures { result ≡ list_all (is_placed place) block.now }
{
    for i in 0..block.len() {
        if !is_placed(block.at(i), place) {
            return false;
        }
    }
    true
}
