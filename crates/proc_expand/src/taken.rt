//! The names of a text, which a new name is to be none of.

ghost use Rattle.std.specs.Prelude.{◌≡◌, ◌∷◌, ◌++◌, ◌+◌, ◌^◌, ◌<◌, [], List, length, map, nat_eq, IfOk, OnOk};
ghost use Rattle.jade_syntax.specs.Abstract.{Name};
ghost use Rattle.proc_expand.specs.Words.{at, bytes_at, is_called, those, signs as signs_of};
ghost use Rattle.proc_expand.specs.Written.{text_names};
ghost use Rattle.proc_expand.specs.steps.Replaced.{begins_numbered, taken_names, IsTaken};

use crate::sign::{Sign, bytes_at, is_called, sign_at};
use jade_base::Memory;
use jade_lexer::Tokens;
use name_scope::NameScope;
use std::alloc::Global;

/// Names, each as often as it stands: those that begin as a numbered name does, and how many others.
#[derive(Drop)]
pub(crate) struct Taken<'t> {
    pub(crate) names: NameScope<'t, usize>,
    pub(crate) others: usize,
}

impl<'t> Taken<'t> {
    /// How many names there are.
    #[tactic(auto, using(crate::proofs::TakenNames::taken_count))]
    pub(crate) fn len(&self) -> usize
        requires { length (taken_names self.now) < 2 ^ 64 }
        ensures { result ≡ length (taken_names self.now) }
    {
        self.names.len() + self.others
    }
}

/// Whether a name begins as a numbered one does.
fn begins_numbered(name: &[u8]) -> bool
    ensures { result ≡ begins_numbered name.now }
{
    match name {
        [first, ..] => *first == b'v',
        [] => false,
    }
}

/// Adds a name, of which there are not too many.
fn add_name<'t>(taken: &mut Taken<'t>, name: &'t [u8], place: usize) -> Result<(), Memory>
    requires { taken.old.others < 2 ^ 63 }
    ensures { OnOk result ((names : List Name) → IsTaken names taken.old → IsTaken (names ++ name.now ∷ []) taken.new) }
{
    if !begins_numbered(name) {
        taken.others += 1;
        return Ok(());
    }
    taken.names.declare(name, place)
}

/// Adds the name that stands at a place, if one does.
fn add_at<'t>(
    taken: &mut Taken<'t>,
    tokens: &Tokens<'t>,
    signs: &[Sign],
    place: usize,
) -> Result<(), Memory>
    requires signs { signs.now ≡ signs_of tokens.now.lexemes }
    requires within { place < length signs.now }
    requires taken { IsTaken (map (bytes_at tokens.now.lexemes) (those place (λ k. is_called (at signs.now k)))) taken.old }
    ensures { OnOk result (IsTaken (map (bytes_at tokens.now.lexemes) (those (place + 1) (λ k. is_called (at signs.now k)))) taken.new) }
{
    if !is_called(sign_at(signs, place)) {
        return Ok(());
    }
    add_name(taken, bytes_at(tokens, place), place)
}

/// The names of a text.
#[tactic(auto, using(crate::proofs::TakenNames::none_taken))]
pub(crate) fn taken_of<'t>(
    alloc: Global,
    tokens: &Tokens<'t>,
    signs: &[Sign],
) -> Result<Taken<'t>, Memory>
    requires { signs.now ≡ signs_of tokens.now.lexemes }
    ensures { IfOk result (IsTaken (text_names tokens.now.lexemes tokens.now.end)) }
{
    let mut taken = Taken {
        names: NameScope::none(alloc),
        others: 0,
    };
    for place in 0..signs.len() {
        add_at(&mut taken, tokens, signs, place)?;
    }
    Ok(taken)
}
