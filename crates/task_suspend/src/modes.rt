//! Modes in which contents are asked for.

ghost use Rattle.std.specs.Prelude.{◌≡◌};
ghost use Rattle.task_suspend.specs.Modes.{has_mode};

use jade_base::Mode;

/// Some modes in which the content of an object may be asked for.
#[derive(Clone, Copy)]
pub struct Modes {
    pub reading: bool,
    pub writing: bool,
    pub commuting: bool,
}

impl Modes {
    /// Every mode.
    pub const ALL: Modes = Modes {
        reading: true,
        writing: true,
        commuting: true,
    };

    /// For reading.
    pub const READING: Modes = Modes {
        reading: true,
        writing: false,
        commuting: false,
    };

    /// The modes in which a content is changed.
    pub const CHANGING: Modes = Modes {
        reading: false,
        writing: true,
        commuting: true,
    };

    /// For commuting.
    pub const COMMUTING: Modes = Modes {
        reading: false,
        writing: false,
        commuting: true,
    };

    /// Whether this mode is one of them.
    pub fn has(self, mode: Mode) -> bool
        ensures { result ≡ has_mode self mode }
    {
        match mode {
            Mode::Reading => self.reading,
            Mode::Writing => self.writing,
            Mode::Commuting => self.commuting,
        }
    }
}
