//! A run by given turns.

ghost use Rattle.std.specs.Prelude.{◌≡◌, ◌≤◌, length, IfOk, IfErr, OnOk};
ghost use Rattle.jade_syntax.specs.Image.{program as abstracted};
ghost use Rattle.jade_syntax.specs.Objects.{input_names, sizes};
ghost use Rattle.jade_meaning.specs.Report.{report};
ghost use Rattle.jade_meaning.specs.Turns.{Full, turns_in};
ghost use Rattle.run_replay.specs.declared.following.FollowError.TheVariants as refusal;

use crate::steps::{after_step, is_used_up, place_in_step};
use jade_base::{Memory, Report, TurnLists};
use jade_syntax::Checked;
use schedule_core::Core;
use std::alloc::Global;

/// Why a run is not followed to its end.
#[derive(Clone, Copy, Debug, PartialEq, Eq)]
pub enum FollowError {
    /// The turn lists are not full.
    Off,
    Memory,
}

impl From<Memory> for FollowError {
    ghost from_gives = { λ _ e. e ≡ refusal.Memory };

    fn from(_error: Memory) -> FollowError {
        FollowError::Memory
    }
}

/// Runs a program by turn lists, one for each object: a task takes an object for commuting only when
/// its turn is the next one of the object's list. What comes of it is the report of the meaning by
/// these lists. The error `Off` comes exactly where the lists are not full, so where they name other
/// turns than the run by them takes, or fewer, or more; the other error is want of memory.
pub fn follow(
    alloc: Global,
    checked: &Checked,
    numbers: &[i64],
    limit: u32,
    turns: &TurnLists,
) -> Result<Report, FollowError>
    requires given { length numbers.now ≡ length (input_names checked.now.program.items) }
    requires limit { 1 ≤ limit }
    requires lists { length turns.now ≡ length (sizes checked.now.program.items) }
    ensures report { IfOk result (λ done. done ≡ report (abstracted checked.now.program) numbers.now limit (turns_in turns.now)) }
    ensures turns { IfOk result (λ done. done.turns ≡ turns.now) }
    ensures full { OnOk result (Full (abstracted checked.now.program) numbers.now limit (turns_in turns.now)) }
    ensures off { IfErr result (λ e. e ≡ FollowError.Off → Full (abstracted checked.now.program) numbers.now limit (turns_in turns.now) → ⊥) }
{
    core_laws::full_lists_go_on();
    schedule_core::laws::bounded();
    let mut core = Core::start(alloc, checked, numbers, limit)?;
    let mut cursor = 0;
    'events: while core.live() > 0 {
        let place = match place_in_step(&core, turns, cursor) {
            Some(place) => place,
            None => return Err(FollowError::Off),
        };
        let (act, _) = core.next_at(place);
        core.go_on_at(alloc, place)?;
        cursor = after_step(&core, turns, act, place);
    }
    if !is_used_up(&core, turns, checked.objects()) {
        return Err(FollowError::Off);
    }
    let report = core.report(alloc)?;
    Ok(report)
}
