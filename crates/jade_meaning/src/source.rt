//! Where the reads of an expression find what cells hold.

ghost use Rattle.std.specs.Prelude.{◌≡◌, ◌+◌, MatchOption, slice_get, Some, None};
ghost use Rattle.jade_meaning.specs.steps.Evaluation.{Got, Awaits, source, next_of};

use crate::run_state::Store;
use jade_base::Blame;

/// The cells of a store, or the answers that a task was given.
#[derive(Clone, Copy)]
pub(crate) enum Cells<'a> {
    Stored(&'a Store),
    Answered(&'a [i64]),
}

/// Why an expression has no value: a fault, or a read of a cell that has no answer yet.
#[derive(Clone, Copy)]
pub(crate) enum Pause {
    Fault(Blame),
    Awaits(usize, usize),
}

impl Cells<'_> {
    /// What a cell holds, where `used` answers are used; none where there is no answer.
    pub(crate) fn next(&self, object: usize, cell: usize, used: &mut usize) -> Option<i64>
        ensures { MatchOption result (next_of (source self.now) object cell used.old ≡ Awaits object cell)
            (λ z. next_of (source self.now) object cell used.old ≡ Got z used.new) }
    {
        match self {
            Cells::Stored(store) => Some(store.read(object, cell)),
            Cells::Answered(answers) => next_answer(answers, used),
        }
    }
}

// The next answer, which is used from now on.
fn next_answer(answers: &[i64], used: &mut usize) -> Option<i64>
    ensures { MatchOption result (slice_get answers.now used.old ≡ None) (λ z. (slice_get answers.now used.old ≡ Some z) × (used.new ≡ used.old + 1)) }
{
    if *used < answers.len() {
        let answer = answers[*used];
        *used += 1;
        Some(answer)
    } else {
        None
    }
}
