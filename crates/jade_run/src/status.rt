ghost use Rattle.std.specs.Prelude.{◌≡◌};
ghost use Rattle.jade_run.specs.Numbers.{number_of_status};

/// How a command ended. The number of a status is the one with which the program ends.
#[derive(Clone, Copy, Debug, PartialEq, Eq)]
pub enum Status {
    /// The objects were written, or `ok`, or the layout, or a recording, or `same`.
    Good,
    /// The serially first fault was written.
    Fault,
    /// The text was refused.
    Refused,
    /// The words were refused.
    Words,
    /// The words name another count of numbers than the text has inputs.
    Numbers,
    /// The source failed.
    Reading,
    /// The sink failed.
    Writing,
    /// Memory was wanting.
    Memory,
    /// The recording would be too long, or it is not right.
    Replay,
}

impl Status {
    /// The number of the status, with which the program ends.
    pub fn number(self) -> u8
        ensures { result ≡ number_of_status self }
    {
        match self {
            Status::Good => 0,
            Status::Fault => 1,
            Status::Refused => 2,
            Status::Words => 3,
            Status::Numbers => 4,
            Status::Reading => 5,
            Status::Writing => 6,
            Status::Memory => 7,
            Status::Replay => 8,
        }
    }
}
