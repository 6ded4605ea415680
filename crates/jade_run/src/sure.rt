//! A whole call over memory, where neither the source nor the sink can fail.

ghost use Rattle.std.specs.Prelude.{◌≡◌, ℕ, List, None, Some, ◌≤◌, length};
ghost use Rattle.jade_run.specs.Complete.{Completes};
ghost use Rattle.jade_run.specs.Headline.{Headline};
ghost use Rattle.jade_run.specs.Words.{NeedsNoText};

use crate::call::jade_main;
use crate::status::Status;
use crate::witness::NoWitness;
use jade_base::{SureSink, SureSource, Word};
use std::alloc::Global;
use std::sync::Wait;
use std::thread::Threads;
use steal_workers::Gate;

/// `jade_main` over a text in memory: there is an outcome by some turn lists whose status this is
/// where the sink has room for its text, or the status is `Memory`. It is never `Reading`. What the sink took and what the
/// source has left are as `jade_main` says; both tell their bytes here.
pub fn run_in_memory<R: Threads + Wait + Sync, G: Gate>(
    rt: &R,
    alloc: Global,
    words: &[Word],
    source: &mut SureSource,
    sink: &mut SureSink,
    gate: &G,
) -> Status
    ensures completes { Completes words.now source.old sink.old.room result }
    ensures unread { NeedsNoText words.now → source.new ≡ source.old }
    ensures headline { Headline words.now result
        (record { left = Some source.old; taken = Some sink.old.taken; room = Some sink.old.room; source_faults = 0; sink_faults = sink.old.faults; seen = None })
        (record { left = Some source.new; taken = Some sink.new.taken; room = Some sink.new.room; source_faults = 0; sink_faults = sink.new.faults; seen = None }) }
{
    jade_main(rt, alloc, words, source, sink, gate, &mut NoWitness)
}
