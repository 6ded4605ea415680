//! What can be done with a hold.

ghost use Rattle.std.specs.Prelude.{◌≡◌, [], None, Some};
ghost use Rattle.task_machine.specs.Telling.{mode_held};
ghost use Rattle.task_machine.specs.steps.Holding.{WrittenIn, cell_in};

use crate::hold::Hold;
use jade_base::{Content, Mode, Numbers};
use std::alloc::Global;
use std::mem;

// A content that is held by nobody.
#[inline(always)]
fn no_content(alloc: Global) -> Content
    ensures { result ≡ record { mode = Mode.Reading; cells = [] } }
{
    Content::of(Mode::Reading, Numbers::from_vec(Vec::new(alloc)))
}

impl Hold {
    /// Nothing. It takes no memory.
    pub(crate) fn none(alloc: Global) -> Hold
        ensures { result ≡ None }
    {
        Hold {
            mode: None,
            cells: Vec::new(alloc),
            content: no_content(alloc),
        }
    }

    /// A content. It takes no memory.
    pub(crate) fn of(alloc: Global, content: Content) -> Hold
        ensures { result ≡ Some content }
    {
        match content.mode() {
            Mode::Reading => Hold {
                mode: Some(Mode::Reading),
                cells: Vec::new(alloc),
                content,
            },
            mode => Hold {
                mode: Some(mode),
                cells: content.into_cells().into_vec(),
                content: no_content(alloc),
            },
        }
    }

    /// A content in place of what is held, which goes. It takes no memory.
    #[inline(always)]
    pub(crate) fn fill(&mut self, content: Content)
        ensures { self.new ≡ Some content }
    {
        let alloc = *self.cells.allocator();
        *self = Hold::of(alloc, content);
    }

    /// Takes out what is held. It takes no memory.
    #[inline(always)]
    pub(crate) fn take(&mut self) -> Option<Content>
        ensures taken { result ≡ self.old }
        ensures left { self.new ≡ None }
    {
        let alloc = *self.cells.allocator();
        match self.mode.take() {
            None => None,
            Some(Mode::Reading) => Some(mem::replace(&mut self.content, no_content(alloc))),
            Some(mode) => {
                let cells = mem::replace(&mut self.cells, Vec::new(alloc));
                Some(Content::of(mode, Numbers::from_vec(cells)))
            }
        }
    }

    /// The mode of the hold, if there is one.
    pub(crate) fn mode(&self) -> Option<Mode>
        ensures { result ≡ mode_held self.now }
    {
        self.mode
    }

    /// The number in a cell, where something is held; a cell that is not there has 0. The mode is looked
    /// at last, where neither the cells nor the content has such a one.
    #[inline(always)]
    pub(crate) fn cell(&self, cell: usize) -> Option<i64>
        ensures { result ≡ cell_in self.now cell }
    {
        if cell < self.cells.len() {
            return Some(self.cells[cell]);
        }
        if cell < self.content.len() {
            return Some(self.content.get(cell));
        }
        match self.mode {
            Some(_) => Some(0),
            None => None,
        }
    }

    /// Writes a number into a cell, if there is such a one; whether the hold is for more than reading.
    #[inline(always)]
    pub(crate) fn write(&mut self, cell: usize, number: i64) -> bool
        ensures { WrittenIn self.old cell number result self.new }
    {
        if cell < self.cells.len() {
            self.cells[cell] = number;
            return true;
        }
        matches!(self.mode, Some(Mode::Writing) | Some(Mode::Commuting))
    }
}
