ghost use Rattle.std.specs.Prelude.{◌≡◌, ◌≢◌, ◌<◌, [], true, length, IfOk, Some, slice_get, slice_set, MatchOption, MatchResult};
ghost use Rattle.jade_base.specs.Cells.{cells_of, is_own};

use crate::{Memory, Mode, Numbers};
use jade_list::sequence::Sequence;
use std::alloc::Global;
use std::marker::Model;
use std::mem;
use std::sync::Arc;

/// Cells that several owners read and none changes. Contracts see them as the list of the cells;
/// who else has them is not seen.
#[derive(Debug, Drop)]
pub struct SharedCells {
    cells: Arc<Numbers>,
}

impl Model for SharedCells {
    ghost use Rattle.std.specs.Prelude.{List, ℤ};
    ghost use Rattle.std.specs.Arc.{arc_value};

    ghost Value = { List ℤ };

    ghost view = { λ s. arc_value s.cells };
}

impl SharedCells {
    /// These cells, with one owner. The error is want of memory, and hands them back.
    pub fn of(alloc: Global, cells: Numbers) -> Result<SharedCells, Numbers>
        ensures { MatchResult result (λ shared. shared ≡ cells) (λ back. back ≡ cells) }
    {
        match Arc::new(alloc, cells) {
            Ok(cells) => Ok(SharedCells { cells }),
            Err(refused) => Err(refused.value),
        }
    }

    /// The same cells for one owner more; no cell is copied. The error is want of memory.
    pub fn again(&self) -> Result<SharedCells, Memory>
        ensures { IfOk result (λ again. again ≡ self.now) }
    {
        match Arc::try_clone(&self.cells) {
            Ok(cells) => Ok(SharedCells { cells }),
            Err(_) => Err(Memory),
        }
    }

    /// Takes the cells out, for their only owner: none is left, and others may be put in their place.
    /// Where there are other owners it is None, and nothing changes. It takes no memory.
    pub fn take_out(&mut self, alloc: Global) -> Option<Numbers>
        ensures { MatchOption result (self.new ≡ self.old) (λ cells. (cells ≡ self.old) × (self.new ≡ [])) }
    {
        match Arc::get_mut(&mut self.cells) {
            Some(place) => Some(mem::replace(place, Sequence::empty(alloc))),
            None => None,
        }
    }

    /// Puts these cells in the place of those that are there, for their only owner. Where there are other
    /// owners the error hands them back, and nothing changes. It takes no memory.
    pub fn put_back(&mut self, cells: Numbers) -> Result<(), Numbers>
        ensures { MatchResult result (λ _. self.new ≡ cells) (λ back. (back ≡ cells) × (self.new ≡ self.old)) }
    {
        match Arc::get_mut(&mut self.cells) {
            Some(place) => {
                *place = cells;
                Ok(())
            }
            None => Err(cells),
        }
    }

    /// The cells. It takes no memory.
    pub fn as_slice(&self) -> &[i64]
        ensures { result.now ≡ self.now }
    {
        self.cells.as_slice()
    }
}

// The cells of a content: its own, or those that other readers have too.
#[derive(Debug, Drop)]
enum Cells {
    Own(Vec<i64>),
    Shared(SharedCells),
}

/// The content of an object as a task holds it. Contracts see it as the mode of the hold and the
/// list of the cells; whether other readers have the same cells is not seen. One that is held for
/// reading may share its cells; any other has them alone.
#[derive(Debug, Drop)]
pub struct Content {
    mode: Mode,
    cells: Cells,
}

impl Model for Content {
    ghost use Rattle.std.specs.Prelude.{◌≡◌, ◌≢◌, true};
    ghost use Rattle.jade_base.specs.declared.rights.Mode.{Mode as ModeOf};
    ghost use Rattle.jade_base.specs.Held.{Held};
    ghost use Rattle.jade_base.specs.Cells.{cells_of, is_own};

    ghost Value = { Held };

    ghost view = { λ c. record { mode = c.mode; cells = cells_of c.cells } };

    ghost invariant = { λ c. c.mode ≢ ModeOf.Reading → is_own c.cells ≡ true };
}

impl Content {
    /// These cells, held in this mode. It takes no memory.
    pub fn of(mode: Mode, cells: Numbers) -> Content
        ensures { result ≡ record { mode = mode; cells = cells } }
    {
        Content {
            mode,
            cells: Cells::Own(cells.into_vec()),
        }
    }

    /// Shared cells, held for reading. It takes no memory.
    pub fn shared(cells: SharedCells) -> Content
        ensures { result ≡ record { mode = Mode.Reading; cells = cells } }
    {
        Content {
            mode: Mode::Reading,
            cells: Cells::Shared(cells),
        }
    }

    /// The same cells, held in the mode asked for. The error is want of memory.
    pub fn copy(&self, alloc: Global, mode: Mode) -> Result<Content, Memory>
        ensures { IfOk result (λ copy. copy ≡ record { mode = mode; cells = self.now.cells }) }
    {
        let cells = Vec::from_slice(alloc, as_slice(&self.cells))?;
        Ok(Content {
            mode,
            cells: Cells::Own(cells),
        })
    }

    /// The mode of the hold.
    pub fn mode(&self) -> Mode
        ensures { result ≡ self.now.mode }
    {
        self.mode
    }

    /// The number of cells.
    pub fn len(&self) -> usize
        ensures { result ≡ length self.now.cells }
    {
        as_slice(&self.cells).len()
    }

    /// The number in a cell, counted from 0.
    pub fn get(&self, cell: usize) -> i64
        requires { cell < length self.now.cells }
        ensures { slice_get self.now.cells cell ≡ Some result }
    {
        as_slice(&self.cells)[cell]
    }

    /// Writes a number into a cell, counted from 0.
    pub fn set(&mut self, cell: usize, value: i64)
        requires within { cell < length self.old.cells }
        requires writable { self.old.mode ≢ Mode.Reading }
        ensures { self.new ≡ record self.old { cells = slice_set self.old.cells cell value } }
    {
        write(&mut self.cells, cell, value);
    }

    /// The cells of a content that is not held for reading. It takes no memory.
    pub fn into_cells(self) -> Numbers
        requires { self.mode ≢ Mode.Reading }
        ensures { result ≡ self.cells }
    {
        own(self.cells)
    }
}

// The cells, whoever else has them.
fn as_slice(cells: &Cells) -> &[i64]
    ensures { result.now ≡ cells_of cells.now }
{
    match cells {
        Cells::Own(cells) => cells.as_slice(),
        Cells::Shared(cells) => cells.as_slice(),
    }
}

// Writes a number into a cell of cells that nobody else has.
fn write(cells: &mut Cells, cell: usize, value: i64)
    requires within { cell < length (cells_of cells.old) }
    requires own { is_own cells.old ≡ true }
    ensures cells { cells_of cells.new ≡ slice_set (cells_of cells.old) cell value }
    ensures own { is_own cells.new ≡ true }
{
    match cells {
        Cells::Own(cells) => cells[cell] = value,
        Cells::Shared(_) => {}
    }
}

// Cells that nobody else has, themselves.
fn own(cells: Cells) -> Numbers
    requires { is_own cells ≡ true }
    ensures { result ≡ cells_of cells }
{
    match cells {
        Cells::Own(cells) => Numbers::from_vec(cells),
        Cells::Shared(_) => unreachable!(),
    }
}
