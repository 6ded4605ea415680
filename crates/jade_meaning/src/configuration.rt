//! Where a task stands: what it has to tell, and what it goes on to do.

ghost use Rattle.std.specs.Prelude.{◌≡◌, ◌++◌, ◌∷◌, [], true, List, ℤ, map, IfOk, OnOk};
ghost use Rattle.jade_meaning.specs.Course.{Setting as SettingOf};
ghost use Rattle.jade_meaning.specs.steps.Perform.{shown};
ghost use Rattle.jade_meaning.specs.Talk.{Task as TaskOf, first_take, touched, events, talk};
ghost use Rattle.jade_meaning.specs.steps.Frames.{course_of};
ghost use Rattle.jade_meaning.specs.steps.Holding.{events_of};
ghost use Rattle.jade_meaning.specs.steps.Configuration.{taken_first, pending_of, ahead, IsIdle, ready, over, task_from, Resumes, TellsTransition};

use crate::dense_spec::DenseSpec;
use crate::draft::Draft;
use crate::frames::{Frame, Newborn, Running, Transition};
use crate::holds::{Holds, Keeping, Listing, PendingEvent, add, named, take_in, tell, tell_start};
use crate::scope::Scope;
use crate::setting::{Setting, Task};
use crate::tally::Tally;
use access_spec::mode_of;
use jade_base::{Blame, Memory, Mode, ObjectId};
use jade_syntax::tree::Block;
use std::alloc::Global;

/// Where a task comes once what is pending is told.
#[derive(Clone, Copy)]
pub(crate) enum Stage {
    Going,
    Asking(ObjectId, u32),
    Over,
}

/// A task as it is once what is pending is told: what it goes on to do, its rights and holds, and
/// the steps of its part, as its events have them.
#[derive(Drop)]
pub(crate) struct Configuration<'c> {
    pub(crate) run: Running<'c>,
    pub(crate) spec: DenseSpec,
    pub(crate) holds: Holds,
    pub(crate) part: u64,
    pub(crate) pending: Vec<PendingEvent>,
    pub(crate) newborn: Newborn<'c>,
    pub(crate) stage: Stage,
}

// The number of a cell; the error is want of numbers.
fn short(cell: usize) -> Result<u32, Memory>
    ensures { IfOk result (λ short. short ≡ cell) }
{
    match u32::try_from(cell) {
        Ok(cell) => Ok(cell),
        Err(_) => Err(Memory),
    }
}

// An object that is not held is taken before it is touched.
fn taken_first(hold: Option<Mode>, mode: Option<Mode>, object: ObjectId) -> Option<PendingEvent>
    ensures { (t : TaskOf) → events_of t result ≡ taken_first hold mode object.0 }
{
    match hold {
        None => take_in(mode, object),
        Some(_) => None,
    }
}

// An object is touched.
fn touch(object: usize, at: &mut Configuration) -> Result<(), Memory>
    ensures told { OnOk result ((t : TaskOf) → pending_of t at.new ≡ pending_of t at.old ++ first_take at.old.spec at.old.holds object) }
    ensures holds { OnOk result (at.new ≡ record at.old { holds = touched at.old.spec at.old.holds object; pending = at.new.pending }) }
{
    let id = named(object)?;
    let mode = mode_of(at.spec.on(object));
    add(&mut at.pending, taken_first(at.holds.on(object), mode, id))?;
    at.holds.set(object, mode);
    Ok(())
}

// A read that has no answer yet.
fn tell_read<'c>(object: usize, cell: usize, at: &mut Configuration<'c>) -> Result<(), Memory>
    requires { IsIdle at.old }
    ensures { (s : SettingOf) → OnOk result (TellsTransition s (Transition.Asked object cell) at.old at.new) }
{
    touch(object, at)?;
    let id = named(object)?;
    at.stage = Stage::Asking(id, short(cell)?);
    Ok(())
}

// The event of a write.
fn write_of(object: ObjectId, cell: u32, written: (usize, usize, i64)) -> PendingEvent
    ensures { result ≡ PendingEvent.Write object cell written.2 }
{
    PendingEvent::Write(object, cell, written.2)
}

// A write.
fn tell_write<'c>(written: (usize, usize, i64), at: &mut Configuration<'c>) -> Result<(), Memory>
    requires { IsIdle at.old }
    ensures { (s : SettingOf) → OnOk result (TellsTransition s (Transition.Wrote written) at.old at.new) }
{
    touch(written.0, at)?;
    let id = named(written.0)?;
    let cell = short(written.1)?;
    at.pending.push(write_of(id, cell, written))?;
    Ok(())
}

impl<'c> Setting<'c> {
    // A creation.
    fn tell_creation(&self, newborn: Newborn<'c>, at: &mut Configuration<'c>) -> Result<(), Memory>
        requires { IsIdle at.old }
        ensures { OnOk result (TellsTransition (shown self.now) (Transition.Created newborn.entry) at.old at.new) }
    {
        let child = &newborn.spec;
        tell(
            Listing::CreationGives,
            child,
            child,
            &at.holds,
            &mut at.pending,
        )?;
        tell(Listing::Enters, child, child, &at.holds, &mut at.pending)?;
        at.pending.push(PendingEvent::Enroll(at.part))?;
        at.holds = at
            .holds
            .next(self.alloc, Keeping::AtCreation, child, child)?;
        at.part = 0;
        at.newborn = newborn;
        Ok(())
    }

    // A change of the task's own rights.
    fn tell_change(&self, new: DenseSpec, at: &mut Configuration<'c>) -> Result<(), Memory>
        requires { IsIdle at.old }
        ensures { OnOk result (TellsTransition (shown self.now) (Transition.Changed new) at.old at.new) }
    {
        let old = &at.spec;
        tell(Listing::ChangeGives, old, &new, &at.holds, &mut at.pending)?;
        tell(Listing::Shifts, old, &new, &at.holds, &mut at.pending)?;
        tell(Listing::ChangeTakes, old, &new, &at.holds, &mut at.pending)?;
        at.holds = at.holds.next(self.alloc, Keeping::AtChange, old, &new)?;
        at.spec = new;
        Ok(())
    }

    // What a transition tells.
    fn tell_transition(
        &self,
        transition: Transition<'c>,
        at: &mut Configuration<'c>,
    ) -> Result<(), Memory>
        requires { IsIdle at.old }
        ensures { OnOk result (TellsTransition (shown self.now) transition.entry at.old at.new) }
    {
        match transition {
            Transition::Silent => Ok(()),
            Transition::Stepped => count_step(at),
            Transition::Asked(object, cell) => tell_read(object, cell, at),
            Transition::Wrote(written) => tell_write(written, at),
            Transition::Created(newborn) => self.tell_creation(newborn, at),
            Transition::Changed(new) => self.tell_change(new, at),
            Transition::Ended(blame) => tell_end(blame, at),
        }
    }

    /// Goes on until there is something to tell. A task that is silent for so long that it cannot
    /// be counted is want of memory.
    pub(crate) fn advance(&self, answers: &[i64], at: &mut Configuration<'c>) -> Result<(), Memory>
        requires { over at.old.stage ≡ true → ready at.old.pending.items at.old.stage ≡ true }
        ensures same { OnOk result ((vs : List ℤ) → ahead (shown self.now) answers.now at.old 0 vs ≡ ahead (shown self.now) answers.now at.new 0 vs) }
        ensures ready { OnOk result (ready at.new.pending.items at.new.stage ≡ true) }
    {
        'steps: for _step in 0..u64::MAX {
            if is_ready(at) {
                return Ok(());
            }
            let transition = self.transition(answers, &mut at.run)?;
            self.tell_transition(transition, at)?;
        }
        Err(Memory)
    }
}

// A step begins.
fn count_step<'c>(at: &mut Configuration<'c>) -> Result<(), Memory>
    requires { IsIdle at.old }
    ensures { (s : SettingOf) → OnOk result (TellsTransition s Transition.Stepped at.old at.new) }
{
    match at.part.checked_add(1) {
        Some(part) => {
            at.part = part;
            Ok(())
        }
        None => Err(Memory),
    }
}

// The end.
fn tell_end<'c>(blame: Option<Blame>, at: &mut Configuration<'c>) -> Result<(), Memory>
    requires { IsIdle at.old }
    ensures { (s : SettingOf) → OnOk result (TellsTransition s (Transition.Ended blame) at.old at.new) }
{
    tell(
        Listing::EndGives,
        &at.spec,
        &at.spec,
        &at.holds,
        &mut at.pending,
    )?;
    tell(
        Listing::EndLeaves,
        &at.spec,
        &at.spec,
        &at.holds,
        &mut at.pending,
    )?;
    at.pending.push(PendingEvent::Resign(blame, at.part))?;
    at.stage = Stage::Over;
    Ok(())
}

// Whether there is something to tell.
fn is_ready(at: &Configuration) -> bool
    ensures { result ≡ ready at.now.pending.items at.now.stage }
{
    if at.pending.is_empty() {
        match at.stage {
            Stage::Asking(..) => true,
            Stage::Going | Stage::Over => false,
        }
    } else {
        true
    }
}

// What stands for a child where there is none.
fn nobody<'c>(alloc: Global, body: &'c Block) -> Newborn<'c> {
    Newborn {
        scope: Scope::empty(alloc),
        spec: DenseSpec::empty(alloc),
        body,
    }
}

// What a task has of its own once more.
fn same_task<'c>(alloc: Global, task: &Task<'c>) -> Result<Task<'c>, Memory>
    ensures { IfOk result (λ copy. copy ≡ task.now) }
{
    Ok(Task {
        scope: task.scope.copy(alloc)?,
        spec: task.spec.copy(alloc)?,
        draft: task.draft.copy(alloc)?,
        tally: task.tally.copy(),
    })
}

// The same run once more.
fn same_run<'c>(alloc: Global, run: &Running<'c>) -> Result<Running<'c>, Memory>
    ensures { IfOk result (λ copy. (copy.task ≡ run.now.task) × (copy.frames.items ≡ run.now.frames.items) × (copy.used ≡ run.now.used)) }
{
    let task = same_task(alloc, &run.task)?;
    let frames = Vec::from_slice(alloc, run.frames.as_slice())?;
    Ok(Running {
        task,
        frames,
        used: run.used,
    })
}

// A task once what is pending is told.
fn resumed<'c>(alloc: Global, at: &Configuration<'c>) -> Result<Configuration<'c>, Memory>
    ensures { IfOk result (λ t. Resumes at.now t) }
{
    let run = same_run(alloc, &at.run)?;
    let spec = at.spec.copy(alloc)?;
    let holds = at.holds.copy(alloc)?;
    Ok(Configuration {
        run,
        spec,
        holds,
        part: at.part,
        pending: Vec::new(alloc),
        newborn: nobody(alloc, at.newborn.body),
        stage: Stage::Going,
    })
}

/// Where a task stands once it goes on with these answers, after all that is pending is told.
pub(crate) fn onward<'c>(
    setting: &Setting<'c>,
    at: &Configuration<'c>,
    answers: &[i64],
) -> Result<Configuration<'c>, Memory>
    ensures same { IfOk result (λ t. (vs : List ℤ) → events (course_of (shown setting.now) answers.now at.now.run) at.now.spec at.now.holds at.now.part vs
        ≡ ahead (shown setting.now) answers.now t 0 vs) }
    ensures ready { IfOk result (λ t. ready t.pending.items t.stage ≡ true) }
{
    let mut next = resumed(setting.alloc, at)?;
    setting.advance(answers, &mut next)?;
    Ok(next)
}

// A task before its first event.
fn unbegun<'c>(
    setting: &Setting<'c>,
    scope: &Scope<'c>,
    spec: &DenseSpec,
    body: &'c Block,
) -> Result<Configuration<'c>, Memory>
    ensures { IfOk result (λ t. (vs : List ℤ) → talk (task_from (shown setting.now) scope.now spec.now body.now) vs ≡ ahead (shown setting.now) [] t 0 vs) }
{
    let alloc = setting.alloc;
    let mut frames = Vec::new(alloc);
    frames.push(Frame::Rest(body, 0))?;
    let none = Holds::empty(alloc);
    let mut pending = Vec::new(alloc);
    tell_start(alloc, spec, &none, &mut pending)?;
    let holds = none.next(alloc, Keeping::AtStart, spec, spec)?;
    let own = scope.copy(alloc)?;
    let rights = spec.copy(alloc)?;
    let same = spec.copy(alloc)?;
    let task = Task {
        scope: own,
        spec: rights,
        draft: Draft::absent(alloc),
        tally: Tally::start(),
    };
    let run = Running {
        task,
        frames,
        used: 0,
    };
    Ok(Configuration {
        run,
        spec: same,
        holds,
        part: 0,
        pending,
        newborn: nobody(alloc, body),
        stage: Stage::Going,
    })
}

/// A task at its first event.
pub(crate) fn begun<'c>(
    setting: &Setting<'c>,
    scope: &Scope<'c>,
    spec: &DenseSpec,
    body: &'c Block,
) -> Result<Configuration<'c>, Memory>
    ensures same { IfOk result (λ t. (vs : List ℤ) → talk (task_from (shown setting.now) scope.now spec.now body.now) vs
        ≡ ahead (shown setting.now) [] t 0 vs) }
    ensures ready { IfOk result (λ t. ready t.pending.items t.stage ≡ true) }
{
    let mut at = unbegun(setting, scope, spec, body)?;
    setting.advance(&[], &mut at)?;
    Ok(at)
}
