use crate::turns::LabelledTurns;
use jade_base::{Numbers, Word};
use jade_list::sequence::Sequence;
use std::marker::Model;

pub type Lines = Sequence<Word>;

/// The recording of a run: the limit and the numbers that it was run with, the turns on the objects
/// that any task took in turn, the lines of its answer, and the text of its program. Its type keeps
/// that it can be written: a limit of 1 or more, at most 64 numbers, at most 4,096 lines with no line
/// feed in them, and turns with labels and paths as they are spelled.
#[derive(Debug, Drop)]
pub struct Record {
    pub limit: u32,
    pub numbers: Numbers,
    pub turns: LabelledTurns,
    pub answer: Lines,
    pub text: Word,
}

impl Model for Record {
    ghost use Rattle.run_record.specs.Recording.{Recorded, IsRecorded};

    ghost Value = { Recorded };

    ghost view = { λ r. record { limit = r.limit; numbers = r.numbers; turns = r.turns; answer = r.answer; text = r.text } };

    ghost invariant = { λ r. IsRecorded (record { limit = r.limit; numbers = r.numbers; turns = r.turns; answer = r.answer; text = r.text }) };
}
