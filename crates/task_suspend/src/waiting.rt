//! Those that wait for an object.

ghost use Rattle.std.specs.Prelude.{◌≡◌, [], ◌∷◌, true, false, MatchResult, MatchOption};
ghost use Rattle.task_suspend.specs.Waits.{waits_for, asks_in, all_wait, first_asks_in, path_of};
ghost use Rattle.waiting_line.specs.Lines.{placed};

use crate::capsule::Capsule;
use crate::line::CapsuleLine;
use crate::modes::Modes;
use crate::name::RunName;
use jade_base::ObjectId;
use std::alloc::Global;

/// The capsules that wait for one object, in the serial order of their tasks.
#[derive(Drop)]
pub struct Waiting<'c, N: RunName> {
    pub object: ObjectId,
    pub line: CapsuleLine<'c, N>,
    pub ghost here: { all_wait object.0 line ≡ true },
}

impl<'c, N: RunName> Waiting<'c, N> {
    /// Nobody waits for this object. It takes no memory.
    pub fn nobody(alloc: Global, object: ObjectId) -> Waiting<'c, N>
        ensures object { result.object ≡ object }
        ensures line { result.line ≡ [] }
    {
        Waiting {
            object,
            line: CapsuleLine::new(alloc),
        }
    }

    /// Puts a capsule whose task asks for the object into the line, or hands it back where there is no
    /// memory.
    pub fn put(&mut self, capsule: Capsule<'c, N>) -> Result<(), Capsule<'c, N>>
        requires { waits_for self.old.object.0 capsule ≡ true }
        ensures line { MatchResult result (λ _. self.new.line ≡ placed path_of capsule.entry self.old.line)
            (λ back. (back ≡ capsule.entry) × (self.new.line ≡ self.old.line)) }
        ensures object { self.new.object ≡ self.old.object }
    {
        self.line.put(capsule)
    }

    /// Takes the capsule that stands first, if there is one and its task asks for the content in one of
    /// these modes. It takes no memory.
    pub fn first(&mut self, modes: Modes) -> Option<Capsule<'c, N>>
        ensures line { MatchOption result ((self.new.line ≡ self.old.line) × (first_asks_in modes self.old.line ≡ false))
            (λ c. (self.old.line ≡ c ∷ self.new.line) × (asks_in modes c ≡ true)) }
        ensures object { self.new.object ≡ self.old.object }
    {
        let asks = match self.line.first() {
            Some(capsule) => capsule.asks_in(modes),
            None => false,
        };
        if asks { self.line.take_first() } else { None }
    }

    /// Gives the whole line, and leaves it empty. It takes no memory.
    pub fn take_all(&mut self) -> CapsuleLine<'c, N>
        ensures line { (result ≡ self.old.line) × (self.new.line ≡ []) }
        ensures object { self.new.object ≡ self.old.object }
    {
        self.line.take_all()
    }
}
