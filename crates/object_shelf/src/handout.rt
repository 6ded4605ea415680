//! The content of an object for a task that asks for it, or what keeps it from the task: what
//! `Shelf::blocker` and then `Shelf::take` answer, where the path's entry is sought once.

ghost use Rattle.std.specs.Prelude.{◌≡◌, IfOk, OnErr};
ghost use Rattle.object_shelf.specs.Handouts.{HandsOut};

use crate::shelf::Shelf;
use jade_base::{Content, Memory, Mode, Path};
use std::alloc::Global;

/// What a task is answered that asks for the content: the content itself, the path of the entry
/// that keeps the task from it, or that there is nothing to hand out.
#[derive(Debug, Drop)]
pub enum Handout {
    Content(Content),
    Kept(Path),
    Nothing,
}

impl Shelf {
    /// Hands the content out to the path's task in this mode, as `take` does, where no entry keeps
    /// the task from it, as `blocker` tells. Where one does, the answer is its path, and where the
    /// path has no entry or there is nothing to hand out, it says so; then nothing changes. The error
    /// is want of memory, and changes nothing.
    pub fn hand_out(&mut self, alloc: Global, path: &Path, mode: Mode) -> Result<Handout, Memory>
        ensures answer { IfOk result (λ r. HandsOut self.old path.now mode r self.new) }
        ensures unchanged { OnErr result (self.new ≡ self.old) }
    {
        let place = self.place(path);
        match self.keeper_at(place, mode) {
            Some(entry) => return Ok(Handout::Kept(entry.path.copy(alloc)?)),
            None => {}
        }
        match self.take_at(alloc, path, place, mode)? {
            Some(content) => Ok(Handout::Content(content)),
            None => Ok(Handout::Nothing),
        }
    }
}
