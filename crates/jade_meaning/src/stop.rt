//! Why a task does not go on.

ghost use Rattle.std.specs.Prelude.{◌≡◌};
ghost use Rattle.jade_meaning.specs.declared.stop.Stop.TheVariants.{Fault, Memory};

use jade_base::Blame;

/// A fault, or want of memory.
#[derive(Clone, Copy, Debug)]
pub(crate) enum Stop {
    Fault(Blame),
    Memory,
}

impl From<Blame> for Stop {
    ghost from_gives = { λ blame stop. stop ≡ Fault blame };

    fn from(blame: Blame) -> Stop {
        Stop::Fault(blame)
    }
}

impl From<jade_base::Memory> for Stop {
    ghost from_gives = { λ _ stop. stop ≡ Memory };

    fn from(_memory: jade_base::Memory) -> Stop {
        Stop::Memory
    }
}
