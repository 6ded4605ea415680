//! Families of notes.

ghost use Rattle.std.specs.Prelude.{◌≡◌, ℕ, List, [], ◌∷◌, ◌++◌, true, false, map, length, None, IfOk, IfSome, OnOk};
ghost use Rattle.part_notes.specs.Families.{left_after, line_note, parent};

use jade_base::{Memory, Path};
use std::alloc::Global;
use std::marker::Model;
use task_roll::PartNote;

// A family has room for so many lines at first.
const FIRST: usize = 4;

// So many lines are copied from one family into another at most.
const FEW: usize = 64;

/// What a note of a family says beside the path of its task's parent: the task's number among that
/// one's children, how many children it had made, and the steps of the part.
#[derive(Clone, Copy, Debug, Drop)]
pub(crate) struct Line {
    number: u32,
    children: u32,
    steps: u32,
}

/// The notes of a family: of parts of tasks with one parent, none of which ended with a fault. The
/// path of the parent is that of one of the tasks but for its last number; the root's has none.
/// Contracts see the list of the notes.
#[derive(Drop)]
pub(crate) struct Family {
    like: Path,
    lines: Vec<Line>,
}

impl Model for Family {
    ghost use Rattle.std.specs.Prelude.{List, map};
    ghost use Rattle.task_roll.specs.declared.note.PartNote.{PartNote};
    ghost use Rattle.part_notes.specs.Families.{line_note, parent};

    ghost Value = { List PartNote };

    ghost view = { λ f. map (line_note (parent f.like)) f.lines.items };
}

impl Family {
    /// The notes of these two parts, if their tasks have one parent. The error is want of memory.
    pub fn of(
        alloc: Global,
        one: &PartNote,
        path: &Path,
        children: u32,
        steps: u64,
    ) -> Result<Option<Family>, Memory>
        requires { one.now.blame ≡ None }
        ensures { IfOk result (λ r. IfSome r (λ family. family
            ≡ one.now ∷ (record { path = path.now; children = children; steps = steps; blame = None }) ∷ [])) }
    {
        let first = line_in(&one.path, &one.path, one.children, one.steps);
        let second = line_in(&one.path, path, children, steps);
        match (first, second) {
            (Some(first), Some(second)) => {
                let like = one.path.copy(alloc)?;
                let mut lines = Vec::with_capacity(alloc, FIRST)?;
                lines.push(first)?;
                lines.push(second)?;
                Ok(Some(Family { like, lines }))
            }
            _ => Ok(None),
        }
    }

    /// One note more, if its task has the same parent, and there is memory. The answer is whether it
    /// was added.
    pub fn add(&mut self, path: &Path, children: u32, steps: u64) -> bool
        ensures added { result ≡ true → self.new ≡ self.old ++ (record { path = path.now; children = children; steps = steps; blame = None }) ∷ [] }
        ensures unchanged { result ≡ false → self.new ≡ self.old }
    {
        match line_in(&self.like, path, children, steps) {
            Some(line) => put(&mut self.lines, line),
            None => false,
        }
    }

    /// The notes of another family, if they are few, its tasks have the same parent, and there is
    /// memory. The answer is whether they were added.
    pub fn extend(&mut self, other: &Family) -> bool
        ensures added { result ≡ true → self.new ≡ self.old ++ other.now }
        ensures unchanged { result ≡ false → self.new ≡ self.old }
    {
        if other.lines.len() > FEW || !have_one_parent(&self.like, &other.like) {
            return false;
        }
        self.lines.extend_from_slice(other.lines.as_slice()).is_ok()
    }

    /// What is left of so many steps after these parts; `None` where they have more.
    pub fn left_of(&self, steps: u64) -> Option<u64>
        ensures { result ≡ left_after steps self.now }
    {
        left_in(self.lines.as_slice(), steps)
    }

    /// Puts the notes behind others. The error is want of memory.
    pub fn put_into(&self, alloc: Global, notes: &mut Vec<PartNote>) -> Result<(), Memory>
        ensures { OnOk result (notes.new.items ≡ notes.old.items ++ self.now) }
    {
        for line in self.lines.as_slice() {
            let note = note_of(alloc, &self.like, line)?;
            notes.push(note)?;
        }
        Ok(())
    }
}

// One line more, if there is memory. The answer is whether it was put.
fn put(lines: &mut Vec<Line>, line: Line) -> bool
    ensures put { result ≡ true → lines.new.items ≡ lines.old.items ++ line ∷ [] }
    ensures unchanged { result ≡ false → lines.new.items ≡ lines.old.items }
{
    lines.push(line).is_ok()
}

// What is left of so many steps after the parts of these lines.
fn left_in(lines: &[Line], steps: u64) -> Option<u64>
    ensures { (q : List ℕ) → result ≡ left_after steps (map (line_note q) lines.now) }
{
    let mut left = steps;
    for line in lines {
        left = left.checked_sub(u64::from(line.steps))?;
    }
    Some(left)
}

// Whether two tasks have one parent.
fn have_one_parent(one: &Path, other: &Path) -> bool
    ensures { result ≡ true → parent one.now ≡ parent other.now }
{
    let numbers = one.numbers();
    match other.numbers().split_last() {
        Some((_, parent)) => numbers.len() == parent.len() + 1 && numbers.starts_with(parent),
        None => false,
    }
}

// The line of a part in the family of a task, if that one has the same parent, and the part has fewer than
// 2^32 steps.
fn line_in(like: &Path, path: &Path, children: u32, steps: u64) -> Option<Line>
    ensures { IfSome result (λ line. line_note (parent like.now) line ≡ record { path = path.now; children = children; steps = steps; blame = None }) }
{
    if !have_one_parent(like, path) {
        return None;
    }
    match (path.numbers().last(), u32::try_from(steps)) {
        (Some(number), Ok(steps)) => Some(Line {
            number: *number,
            children,
            steps,
        }),
        _ => None,
    }
}

// The path of the child with a number of a task's parent. The error is want of memory.
fn sibling(alloc: Global, like: &Path, number: u32) -> Result<Path, Memory>
    ensures { IfOk result (λ path. path ≡ parent like.now ++ number ∷ []) }
{
    let numbers = like.numbers();
    let last = numbers.len() - 1;
    if last == 0 {
        return Path::of(alloc, &[number]);
    }
    let parent = Path::of(alloc, &numbers[..last])?;
    parent.child(alloc, number)
}

// The note of a line in the family of a task. The error is want of memory.
fn note_of(alloc: Global, like: &Path, line: &Line) -> Result<PartNote, Memory>
    ensures { IfOk result (λ note. note ≡ line_note (parent like.now) line.now) }
{
    let path = sibling(alloc, like, line.number)?;
    Ok(PartNote {
        path,
        children: line.children,
        steps: u64::from(line.steps),
        blame: None,
    })
}
