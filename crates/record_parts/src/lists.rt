//! Turns under labels, told by object.

ghost use Rattle.std.specs.Prelude.{◌≡◌, ◌<◌, ◌↔◌, length, true, IfOk, IsTrue, MatchOption, All};
ghost use Rattle.jade_syntax.specs.Objects.{sizes};
ghost use Rattle.jade_syntax.specs.Shapes.{is_shaped};
ghost use Rattle.record_parts.specs.Named.{AreNamed, NoneNamed};
ghost use Rattle.record_parts.specs.steps.Naming.{IsNext, IsNextList};
ghost use Rattle.run_record.specs.Recording.{IsTurn};

use crate::labels::label_of;
use crate::turns::copied;
use jade_base::{Memory, ObjectId, PathList, TurnLists};
use jade_list::sequence::Sequence;
use jade_syntax::Checked;
use run_record::LabelledTurns;
use std::alloc::Global;

/// Whether the turns at a place are those on an object.
fn is_next(
    alloc: Global,
    checked: &Checked,
    object: ObjectId,
    turns: &LabelledTurns,
    place: usize,
) -> Result<bool, Memory>
    requires object { object.0 < length (sizes checked.now.program.items) }
    requires place { place < length turns.now }
    ensures { IfOk result (λ next. IsTrue next ↔ IsNext checked.now.program.items object.0 turns.now place) }
{
    let label = label_of(alloc, checked, object)?;
    Ok(turns.at(place).label.bytes() == label.as_slice())
}

/// The paths of the turns on an object, where they come next, and none where they don't; and the
/// place of the turns that come next then.
fn next_list(
    alloc: Global,
    checked: &Checked,
    object: ObjectId,
    turns: &LabelledTurns,
    place: usize,
) -> Result<(PathList, usize), Memory>
    requires object { object.0 < length (sizes checked.now.program.items) }
    ensures { IfOk result (λ r. IsNextList checked.now.program.items object.0 turns.now place r.0 r.1) }
{
    if place >= turns.len() {
        return Ok((PathList::empty(alloc), place));
    }
    if is_next(alloc, checked, object, turns, place)? {
        let paths = copied(alloc, &turns.at(place).paths)?;
        return Ok((paths, place + 1));
    }
    Ok((PathList::empty(alloc), place))
}

/// The turns of a recording by object, one list for each object of a program; `None` exactly where
/// they name objects that the program does not have, or not in declared order. The error is want of
/// memory.
pub fn turn_lists(
    alloc: Global,
    checked: &Checked,
    turns: &LabelledTurns,
) -> Result<Option<TurnLists>, Memory>
    requires shaped { is_shaped checked.now.program ≡ true }
    requires fit { All IsTurn turns.now }
    ensures { IfOk result (λ found. MatchOption found (NoneNamed checked.now.program.items turns.now) (AreNamed checked.now.program.items turns.now)) }
{
    let _program = checked.program();
    let mut lists = Sequence::empty(alloc);
    let mut place = 0;
    for object in 0..checked.objects() {
        let (paths, next) = next_list(alloc, checked, ObjectId(object), turns, place)?;
        if lists.push(paths).is_err() {
            return Err(Memory);
        }
        place = next;
    }
    if place < turns.len() {
        return Ok(None);
    }
    Ok(Some(lists))
}
