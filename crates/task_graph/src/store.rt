//! The contents that no task holds.

ghost use Rattle.std.specs.Prelude.{◌≡◌, IfOk};

use jade_base::{Content, Memory, Mode, ObjectId};
use jade_syntax::Checked;
use picture_base::Stop;
use std::alloc::Global;
use task_machine::holdings::Holdings;

/// The contents that no task holds to write them, by the number of their object.
#[derive(Drop)]
pub(crate) struct Store {
    contents: Vec<Option<Content>>,
}

impl Store {
    /// The contents at the begin. The error is want of memory.
    pub(crate) fn whole(alloc: Global, checked: &Checked) -> Result<Store, Memory> {
        let mut all = Holdings::whole(alloc, checked)?;
        let mut contents = Vec::new(alloc);
        for object in 0..checked.objects() {
            contents.push(all.take(object as usize))?;
        }
        Ok(Store { contents })
    }

    /// What a task is handed that takes an object: a copy to read, or the content itself.
    pub(crate) fn take(
        &mut self,
        alloc: Global,
        object: ObjectId,
        mode: Mode,
    ) -> Result<Content, Stop>
        ensures { IfOk result (λ content. content.mode ≡ mode) }
    {
        let place = object.0 as usize;
        if place >= self.contents.len() {
            return Err(Stop::Failed);
        }
        let Some(content) = self.contents[place].take() else {
            return Err(Stop::Failed);
        };
        let handed = content.copy(alloc, mode)?;
        if mode == Mode::Reading {
            self.contents[place] = Some(content);
        }
        Ok(handed)
    }

    /// A task gives an object back: what it held to read is let go.
    pub(crate) fn put(&mut self, object: ObjectId, content: Content) {
        let place = object.0 as usize;
        if place < self.contents.len() && content.mode() != Mode::Reading {
            self.contents[place] = Some(content);
        }
    }
}
