//! What a run has done so far: the cells of the objects, the faults, the turns, and the steps of
//! the parts.

ghost use Rattle.std.specs.Prelude.{◌≡◌, [], ◌∷◌, ◌++◌, IfOk, OnOk, List, map, length, replicate, pos};
ghost use Rattle.jade_syntax.specs.Objects.{sizes};
ghost use Rattle.jade_meaning.specs.Serial.{cell, with_cell, zeros};
ghost use Rattle.jade_meaning.specs.steps.Carry.{noted, nothing_yet, report_of, turn_added, turn_noted};

use jade_base::{
    Blame, CellLists, FaultNote, FaultNotes, Memory, Numbers, PartStep, PartSteps, Path, PathList,
    Report, TurnLists,
};
use jade_list::sequence::Sequence;
use jade_syntax::objects::objects_of;
use jade_syntax::tree::Items;
use std::alloc::Global;
use std::marker::Model;

/// The cells of each object, which contracts see as lists of numbers.
#[derive(Drop)]
pub(crate) struct Store {
    objects: Vec<Vec<i64>>,
}

impl Model for Store {
    ghost use Rattle.std.specs.Prelude.{List, ℤ, map};

    ghost Value = { List (List ℤ) };

    ghost view = { λ s. map (λ v. v.items) s.objects.items };
}

impl Store {
    /// The objects of these items, with zero in each cell.
    pub(crate) fn zeroed(alloc: Global, items: &Items) -> Result<Store, Memory>
        ensures { IfOk result (λ store. store ≡ zeros (sizes items.now)) }
    {
        let mut objects = Vec::new(alloc);
        for i in 0..items.len() {
            let (count, size) = objects_of(items.at(i));
            add_objects(&mut objects, alloc, count, size)?;
        }
        Ok(Store { objects })
    }

    /// The cells of each object as a list.
    fn into_lists(self, alloc: Global) -> Result<CellLists, Memory>
        ensures { IfOk result (λ lists. lists ≡ self) }
    {
        let mut lists = Sequence::empty(alloc);
        for cells in self.objects {
            push(&mut lists, Sequence::from_vec(cells))?;
        }
        Ok(lists)
    }

    /// The number of objects.
    pub(crate) fn len(&self) -> usize
        ensures { result ≡ length self.now }
    {
        self.objects.len()
    }

    /// What a cell holds; zero where there is no such cell.
    pub(crate) fn read(&self, object: usize, place: usize) -> i64
        ensures { result ≡ cell self.now object place }
    {
        if object < self.objects.len() && place < self.objects[object].len() {
            self.objects[object][place]
        } else {
            0
        }
    }

    /// Puts a number into a cell; where there is no such cell nothing happens.
    pub(crate) fn write(&mut self, object: usize, cell: usize, value: i64)
        ensures { self.new ≡ with_cell self.old object cell value }
    {
        if object < self.objects.len() && cell < self.objects[object].len() {
            self.objects[object][cell] = value;
        }
    }
}

// So many more objects of this size, with zero in each cell.
fn add_objects(
    objects: &mut Vec<Vec<i64>>,
    alloc: Global,
    count: usize,
    size: usize,
) -> Result<(), Memory>
    ensures { OnOk result (map (λ v. v.items) objects.new.items ≡ map (λ v. v.items) objects.old.items ++ replicate count (replicate size (pos 0))) }
{
    for _ in 0..count {
        objects.push(Vec::from_elem(alloc, 0, size)?)?;
    }
    Ok(())
}

/// The turns on each object, which contracts see as a list of paths for each.
#[derive(Drop)]
pub(crate) struct TurnNotes {
    lists: Vec<PathList>,
}

impl Model for TurnNotes {
    ghost use Rattle.std.specs.Prelude.{List, ℕ};

    ghost Value = { List (List (List ℕ)) };

    ghost view = { λ t. t.lists.items };
}

impl TurnNotes {
    /// No turn on any of so many objects.
    fn none(alloc: Global, objects: usize) -> Result<TurnNotes, Memory>
        ensures { IfOk result (λ notes. notes ≡ replicate objects []) }
    {
        let mut lists = Vec::new(alloc);
        for _ in 0..objects {
            lists.push(Sequence::empty(alloc))?;
        }
        Ok(TurnNotes { lists })
    }

    /// One turn more on an object; where there is no such object nothing happens.
    fn note(&mut self, object: usize, path: Path) -> Result<(), Memory>
        ensures { OnOk result (self.new ≡ turn_added object path self.old) }
    {
        if object < self.lists.len() {
            push(&mut self.lists[object], path)
        } else {
            Ok(())
        }
    }

    /// The turns as lists. It takes no memory.
    fn into_lists(self) -> TurnLists
        ensures { result ≡ self }
    {
        Sequence::from_vec(self.lists)
    }
}

/// What a run has done so far.
#[derive(Drop)]
pub(crate) struct RunState {
    pub(crate) objects: Store,
    pub(crate) faults: FaultNotes,
    pub(crate) turns: TurnNotes,
    pub(crate) steps: PartSteps,
}

impl RunState {
    /// Nothing is done yet: each cell of these items' objects is zero.
    pub(crate) fn start(alloc: Global, items: &Items) -> Result<RunState, Memory>
        ensures { IfOk result (λ state. state ≡ nothing_yet (sizes items.now)) }
    {
        let objects = Store::zeroed(alloc, items)?;
        let count = objects.len();
        Ok(RunState {
            objects,
            faults: Sequence::empty(alloc),
            turns: TurnNotes::none(alloc, count)?,
            steps: Sequence::empty(alloc),
        })
    }

    /// The report of it.
    pub(crate) fn into_report(self, alloc: Global) -> Result<Report, Memory>
        ensures { IfOk result (λ report. report ≡ report_of self) }
    {
        let objects = self.objects.into_lists(alloc)?;
        Ok(Report {
            objects,
            faults: self.faults,
            turns: self.turns.into_lists(),
            steps: self.steps,
        })
    }

    /// Notes the turn of the task at a path on an object, if it commutes on one.
    pub(crate) fn note_turn(
        &mut self,
        alloc: Global,
        object: Option<usize>,
        path: &Path,
    ) -> Result<(), Memory>
        ensures { OnOk result (self.new ≡ turn_noted object path.now self.old) }
    {
        match object {
            None => Ok(()),
            Some(object) => {
                let path = path.copy(alloc)?;
                self.turns.note(object, path)
            }
        }
    }

    /// Notes a part of a task that has ended, and the fault that ended it, if one did.
    pub(crate) fn note(
        &mut self,
        alloc: Global,
        path: &Path,
        children: u32,
        steps: u32,
        blame: Option<Blame>,
    ) -> Result<(), Memory>
        ensures { OnOk result (self.new ≡ noted path.now children steps blame self.old) }
    {
        if let Some(blame) = blame {
            let path = path.copy(alloc)?;
            push(
                &mut self.faults,
                FaultNote {
                    path,
                    children,
                    blame,
                },
            )?;
        }
        let path = path.copy(alloc)?;
        push(
            &mut self.steps,
            PartStep {
                path,
                children,
                steps: u64::from(steps),
            },
        )
    }
}

// One more item; without memory the list is as it was.
fn push<T: Drop>(list: &mut Sequence<T>, item: T) -> Result<(), Memory>
    ensures { OnOk result (list.new ≡ list.old ++ item ∷ []) }
{
    match list.push(item) {
        Ok(()) => Ok(()),
        Err(_) => Err(Memory),
    }
}
