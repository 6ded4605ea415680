//! The pass of a task.

ghost use Rattle.std.specs.Prelude.{◌≡◌, ◌%◌, ◌+◌, ◌^◌, ℕ, true};
ghost use Rattle.object_table.specs.Touches.{passed, all_touches};
ghost use Rattle.object_table.specs.Calls.{Comes};
ghost use Rattle.object_table.specs.steps.Kept.{Rests, shown};

use crate::task::Task;
use jade_base::Path;
use std::marker::Model;

/// The token of one task: whoever has it does the task's events. Contracts see the table that it is
/// of and what it shows: its task's seat, with the path, the values read and the events done, and
/// the contents that it holds; whether the task is live, and whether the child that it enrolled last
/// has no pass yet; its tickets, and the notes that it has in hand; its tries, and of the last one the
/// object, the word read and what the slot showed; and whether it knows that nothing may still come.
#[derive(Drop)]
pub struct TaskPass {
    pub(crate) task: Task,
}

impl Model for TaskPass {
    ghost use Rattle.object_table.specs.Calls.{Pass};
    ghost use Rattle.object_table.specs.Encodings.{coded_pass};
    ghost use Rattle.object_table.specs.steps.Kept.{Rests, shown};

    ghost Value = { Pass };

    ghost coded = { coded_pass };

    ghost view = { λ p. record { mark = p.task.seat.table_id; shows = shown p.task } };

    ghost invariant = { λ p. Rests p.task };
}

// Goes past touches.
fn go_past(task: &mut Task, events: u64)
    requires rests { Rests task.old }
    requires touches { (k : ℕ) × Comes k events (shown task.old) }
    ensures rests { Rests task.new }
    ensures seat { task.new.seat ≡ task.old.seat }
    ensures shown { (k : ℕ) → Comes k events (shown task.old) → shown task.new ≡ passed k (shown task.old) }
{
    task.touched += events - task.events;
    task.events = events;
}

impl TaskPass {
    /// The path of its task. It takes no memory.
    pub fn path(&self) -> &Path
        ensures { result.now ≡ self.now.shows.seat.path }
    {
        &self.task.path
    }

    /// The number of events done, modulo 2^64. It takes no memory.
    pub fn events(&self) -> u64
        ensures { result ≡ self.now.shows.seat.walker.done % 2 ^ 64 }
    {
        self.task.events
    }

    /// Whether nothing may still come: all tickets and notes are in, with what it handed in, or with
    /// what a pass that was taken into it did. It takes no memory.
    pub fn over(&self) -> bool
        ensures { result ≡ self.now.shows.over }
    {
        self.task.over
    }

    /// Goes past reads and writes of what its task holds, up to the event of this number. It takes
    /// no memory.
    pub fn pass_on(&mut self, events: u64)
        requires { (k : ℕ) × Comes k events self.old.shows }
        ensures mark { self.new.mark ≡ self.old.mark }
        ensures shows { (k : ℕ) → Comes k events self.old.shows → self.new.shows ≡ passed k self.old.shows }
    {
        go_past(&mut self.task, events);
    }
}
