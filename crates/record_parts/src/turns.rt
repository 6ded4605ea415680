//! Turns by object, told under labels.

ghost use Rattle.std.specs.Prelude.{◌≡◌, ◌≢◌, ℕ, ◌<◌, [], length, true, IfOk, OnOk, All, slice_index_or};
ghost use Rattle.jade_syntax.specs.Objects.{sizes};
ghost use Rattle.jade_syntax.specs.Shapes.{is_shaped};
ghost use Rattle.record_parts.specs.Labels.{labelled_turns};
ghost use Rattle.record_parts.specs.Named.{IsRooted};
ghost use Rattle.record_parts.specs.steps.Naming.{AddsTurns, IsTurnOn};
ghost use Rattle.run_record.specs.Pieces.{IsPath};
ghost use Rattle.run_record.specs.Recording.{IsTurn};

use crate::labels::label_of;
use jade_base::{Memory, ObjectId, PathList, TurnLists, Word};
use jade_list::sequence::Sequence;
use jade_syntax::Checked;
use run_record::{LabelledTurn, LabelledTurns};
use std::alloc::Global;

/// Goes over numbers, each of which has 32 bits.
fn fit(numbers: &[u32])
    ensures { All (λ k. k < 4294967296) numbers.now }
{
    for i in 0..numbers.len() {
        let _number = numbers[i];
    }
}

/// Goes over paths, which are spelled in recordings where they begin at the root.
fn all_fit(paths: &PathList)
    requires { All IsRooted paths.now }
    ensures { All IsPath paths.now }
{
    for i in 0..paths.len() {
        fit(paths.at(i).numbers());
    }
}

/// The same paths once more.
pub(crate) fn copied(alloc: Global, paths: &PathList) -> Result<PathList, Memory>
    ensures { IfOk result (λ copies. copies ≡ paths.now) }
{
    let mut copies = Sequence::empty(alloc);
    for i in 0..paths.len() {
        let path = paths.at(i).copy(alloc)?;
        if copies.push(path).is_err() {
            return Err(Memory);
        }
    }
    Ok(copies)
}

/// The turns on an object, under its label.
fn turn_on(
    alloc: Global,
    checked: &Checked,
    object: ObjectId,
    paths: &PathList,
) -> Result<LabelledTurn, Memory>
    requires object { object.0 < length (sizes checked.now.program.items) }
    requires shaped { is_shaped checked.now.program ≡ true }
    requires rooted { All IsRooted paths.now }
    requires some { paths.now ≢ [] }
    ensures turn { IfOk result (IsTurnOn checked.now.program.items object.0 paths.now) }
    ensures fit { IfOk result IsTurn }
{
    let label = label_of(alloc, checked, object)?;
    let label = Word::of(alloc, label.as_slice())?;
    all_fit(paths);
    let paths = copied(alloc, paths)?;
    Ok(LabelledTurn { label, paths })
}

/// Puts the turns on an object last, if there are any.
fn add_turn(
    alloc: Global,
    checked: &Checked,
    object: ObjectId,
    paths: &PathList,
    turns: &mut LabelledTurns,
) -> Result<(), Memory>
    requires object { object.0 < length (sizes checked.now.program.items) }
    requires shaped { is_shaped checked.now.program ≡ true }
    requires rooted { All IsRooted paths.now }
    requires fit { All IsTurn turns.now }
    ensures turns { OnOk result (AddsTurns checked.now.program.items object.0 paths.now turns.old turns.new) }
    ensures fit { OnOk result (All IsTurn turns.new) }
{
    if paths.len() == 0 {
        return Ok(());
    }
    let turn = turn_on(alloc, checked, object, paths)?;
    if turns.push(turn).is_err() {
        return Err(Memory);
    }
    Ok(())
}

/// The turns on all objects of a program of which there is a list for each object, under their
/// labels, as a recording tells them. The error is want of memory.
pub fn labelled(
    alloc: Global,
    checked: &Checked,
    lists: &TurnLists,
) -> Result<LabelledTurns, Memory>
    requires shaped { is_shaped checked.now.program ≡ true }
    requires lists { length lists.now ≡ length (sizes checked.now.program.items) }
    requires rooted { All (All IsRooted) lists.now }
    ensures turns { IfOk result (λ turns. turns ≡ labelled_turns checked.now.program.items (λ o. slice_index_or lists.now o [])) }
    ensures fit { IfOk result (λ turns. All IsTurn turns) }
{
    let mut turns = Sequence::empty(alloc);
    for object in 0..checked.objects() {
        let paths = lists.at(object as usize);
        add_turn(alloc, checked, ObjectId(object), paths, &mut turns)?;
    }
    Ok(turns)
}
