ghost use Rattle.std.specs.Prelude.{◌≡◌, IfOk};

use crate::Memory;
use std::alloc::Global;
use std::marker::Model;

/// A word of a command, of any bytes. Contracts see it as the list of its bytes.
#[derive(Debug, Drop)]
pub struct Word {
    letters: Vec<u8>,
}

impl Model for Word {
    ghost use Rattle.std.specs.Prelude.{List, ℕ};

    ghost Value = { List ℕ };

    ghost view = { λ w. w.letters.items };
}

impl Word {
    /// The word with these bytes. The error is want of memory.
    pub fn of(alloc: Global, bytes: &[u8]) -> Result<Word, Memory>
        ensures { IfOk result (λ word. word ≡ bytes.now) }
    {
        let letters = Vec::from_slice(alloc, bytes)?;
        Ok(Word { letters })
    }

    /// The bytes of the word.
    pub fn bytes(&self) -> &[u8]
        ensures { result.now ≡ self.now }
    {
        self.letters.as_slice()
    }
}
