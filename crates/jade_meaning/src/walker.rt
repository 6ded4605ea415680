//! One task's talk, event by event.

ghost use Rattle.std.specs.Prelude.{◌≡◌, ◌+◌, ◌≤◌, [], true, false, None, Some, List, ℤ, drop, length, IfOk, OnOk, OnErr};
ghost use Rattle.jade_syntax.specs.declared.objects.TheConstants.{OBJECT_LIMIT};
ghost use Rattle.jade_syntax.specs.Objects.{input_names, sizes};
ghost use Rattle.jade_meaning.specs.Course.{Setting as SettingOf};
ghost use Rattle.jade_meaning.specs.Talk.{Task as TaskOf};
ghost use Rattle.jade_meaning.specs.steps.Holding.{event_of};
ghost use Rattle.jade_meaning.specs.steps.Configuration.{ahead, ready};
ghost use Rattle.jade_meaning.specs.Walk.{upcoming, First, act_of, carried_of, is_answered, Passes, moved, Bears, begun_as, root_walk};
ghost use Rattle.jade_meaning.specs.steps.Walking.{goes_with, read_of, creates, enrolls};

use crate::configuration::{Configuration, Stage, begun, onward};
use crate::dense_spec::DenseSpec;
use crate::holds::PendingEvent;
use crate::resolve::DeclaredItems;
use crate::scope::Scope;
use crate::serial::inputs;
use crate::setting::Setting;
use jade_base::{Blame, Memory, Mode, ObjectId, Rights};
use jade_syntax::Checked;
use jade_syntax::tree::{Block, Program};
use std::alloc::Global;
use std::marker::Model;

/// What the next event of a task is.
#[derive(Clone, Copy, Debug, PartialEq, Eq)]
pub enum Act {
    /// The rights of the next child on an object are entered.
    Enter(ObjectId),
    /// That child is made.
    Enroll,
    /// An object is taken in a mode.
    Take(ObjectId),
    /// A cell is read or written.
    Touch,
    /// An object that is held is given up.
    Give(ObjectId),
    /// The task's entry on an object gets other rights.
    Shift(ObjectId),
    /// The task's entry on an object ends.
    Leave(ObjectId),
    /// The task ends.
    Resign,
}

/// What an event carries beside the object of its act.
#[derive(Clone, Copy, Debug, PartialEq, Eq)]
pub enum Carried {
    Nothing,
    /// The rights that are entered, or that an entry gets.
    Rights(Rights),
    /// The mode in which an object is taken.
    Mode(Mode),
    /// The object and the cell that is read, counted from 0.
    Read(ObjectId, u32),
    /// The object, the cell that is written, counted from 0, and its value.
    Write(ObjectId, u32, i64),
    /// The steps begun since the last creation, or since the start.
    Steps(u64),
    /// The fault that ends the task, if one does, and the steps begun since the last creation, or
    /// since the start.
    Ended(Option<Blame>, u64),
}

/// A task that tells its events one after another. Contracts see it as what every task of the run
/// has, what the task began with, the answers that it was given, and how many of its events are
/// done.
#[derive(Drop)]
pub struct Walker<'c> {
    setting: Setting<'c>,
    scope: Scope<'c>,
    spec: DenseSpec,
    body: &'c Block,
    answers: Vec<i64>,
    done: usize,
    told: usize,
    configuration: Configuration<'c>,
}

impl<'c> Model for Walker<'c> {
    ghost use Rattle.jade_meaning.specs.Encodings.{coded_walk};
    ghost use Rattle.jade_meaning.specs.Walks.{Walk};

    ghost Value = { Walk };

    ghost coded = { coded_walk };

    ghost use Rattle.jade_meaning.specs.steps.Perform.{shown};
    ghost use Rattle.jade_meaning.specs.steps.Agreement.{AgreesWithTalk};

    ghost view = { λ w. record {
      items = w.setting.items;
      given = w.setting.given;
      limit = w.setting.limit;
      env = w.scope;
      spec = w.spec;
      body = w.body.now;
      answers = w.answers.items;
      done = w.done;
    } };

    ghost invariant = { λ w. AgreesWithTalk (shown w.setting) w.scope w.spec w.body.now w.answers.items w.done w.told w.configuration };
}

impl<'c> Setting<'c> {
    // The same once more.
    fn copy(&self) -> Result<Setting<'c>, Memory>
        ensures { IfOk result (λ copy. (copy.items ≡ self.now.items) × (copy.given ≡ self.now.given) × (copy.limit ≡ self.now.limit)) }
    {
        let given = self.given.copy(self.alloc)?;
        Ok(Setting {
            alloc: self.alloc,
            items: self.items.copy(),
            given,
            limit: self.limit,
        })
    }
}

// A task that begins with these.
fn begin<'c>(
    setting: Setting<'c>,
    scope: Scope<'c>,
    spec: DenseSpec,
    body: &'c Block,
) -> Result<Walker<'c>, Memory>
    ensures { IfOk result (λ w. w ≡ begun_as setting.entry.items setting.entry.given setting.entry.limit scope.entry spec body.now) }
{
    let configuration = begun(&setting, &scope, &spec, body)?;
    let answers = Vec::new(setting.alloc);
    Ok(Walker {
        setting,
        scope,
        spec,
        body,
        answers,
        done: 0,
        told: 0,
        configuration,
    })
}

impl<'c> Walker<'c> {
    /// The task of `main`, at its first event. The error is want of memory.
    pub fn root(
        alloc: Global,
        checked: &'c Checked,
        numbers: &'c [i64],
        limit: u32,
    ) -> Result<Walker<'c>, Memory>
        requires given { length numbers.now ≡ length (input_names checked.now.program.items) }
        requires limit { 1 ≤ limit }
        ensures { IfOk result (λ w. w ≡ root_walk checked.now.program numbers.now limit) }
    {
        Walker::of_program(alloc, checked.program(), numbers, limit)
    }

    /// The task of a tree's `main`, whether or not its names and kinds are right. It declares at
    /// most 4,096 objects. The error is want of memory.
    pub fn of_program(
        alloc: Global,
        program: &'c Program,
        numbers: &'c [i64],
        limit: u32,
    ) -> Result<Walker<'c>, Memory>
        requires given { length numbers.now ≡ length (input_names program.now.items) }
        requires objects { length (sizes program.now.items) ≤ OBJECT_LIMIT }
        ensures { IfOk result (λ w. w ≡ root_walk program.now numbers.now limit) }
    {
        let items = DeclaredItems::of(&program.items);
        let given = inputs(alloc, &program.items, numbers)?;
        let scope = given.copy(alloc)?;
        let spec = DenseSpec::all(alloc, items.objects())?;
        let setting = Setting {
            alloc,
            items,
            given,
            limit,
        };
        begin(setting, scope, spec, &program.main)
    }

    /// The next event.
    pub fn next(&self) -> Act
        ensures { First (upcoming self.now) (λ e. act_of e ≡ result) }
    {
        next_act(&self.configuration, self.told)
    }

    /// What the next event carries beside the object of its act. A read has no answer yet.
    pub fn carried(&self) -> Carried
        ensures told { First (upcoming self.now) (λ e. carried_of e ≡ result) }
        ensures unanswered { First (upcoming self.now) (λ e. is_answered e ≡ false) }
    {
        next_carried(&self.configuration, self.told)
    }

    /// Whether the task can go past its next event with this value.
    pub fn can_go_on(&self, value: Option<i64>) -> bool
        ensures can { result ≡ true → First (upcoming self.now) (Passes value) }
        ensures cannot { result ≡ false → First (upcoming self.now) (λ e. Passes value e → ⊥) }
    {
        goes_with(self.carried(), value)
    }

    /// Moves past the next event, with the answer to a read, and answers the child of a creation.
    /// The error, want of memory, changes nothing.
    pub fn go_on(&mut self, alloc: Global, value: Option<i64>) -> Result<Option<Walker<'c>>, Memory>
        requires { First (upcoming self.old) (Passes value) }
        ensures moved { OnOk result (self.new ≡ moved value self.old) }
        ensures child { IfOk result (λ child. First (upcoming self.old) (Bears self.old child)) }
        ensures unchanged { OnErr result (self.new ≡ self.old) }
    {
        match value {
            Some(value) => {
                self.answer(value)?;
                Ok(None)
            }
            None => {
                let child = self.child(alloc)?;
                self.pass()?;
                Ok(child)
            }
        }
    }

    // The child of the next event, where that is a creation.
    fn child(&self, alloc: Global) -> Result<Option<Walker<'c>>, Memory>
        ensures { IfOk result (λ child. First (upcoming self.now) (Bears self.now child)) }
    {
        if is_creation(&self.configuration, self.told) {
            let newborn = &self.configuration.newborn;
            let setting = self.setting.copy()?;
            let scope = newborn.scope.copy(alloc)?;
            let spec = newborn.spec.copy(alloc)?;
            let child = begin(setting, scope, spec, newborn.body)?;
            return Ok(Some(child));
        }
        Ok(None)
    }

    // Moves past a read.
    fn answer(&mut self, value: i64) -> Result<(), Memory>
        requires { First (upcoming self.old) (Passes (Some value)) }
        ensures moved { OnOk result (self.new ≡ moved (Some value) self.old) }
        ensures unchanged { OnErr result (self.new ≡ self.old) }
    {
        let done = counted(self.done)?;
        // Never so: an answer is used only where there is one.
        if self.configuration.run.used > self.answers.len() {
            return Err(Memory);
        }
        match self.answers.push(value) {
            Ok(()) => {}
            Err(_) => return Err(Memory),
        }
        match onward(&self.setting, &self.configuration, self.answers.as_slice()) {
            Ok(configuration) => {
                self.configuration = configuration;
                self.told = 0;
                self.done = done;
                Ok(())
            }
            Err(memory) => {
                let _ = self.answers.pop();
                Err(memory)
            }
        }
    }

    // Moves past an event that is no read.
    fn pass(&mut self) -> Result<(), Memory>
        requires { First (upcoming self.old) (Passes None) }
        ensures moved { OnOk result (self.new ≡ moved None self.old) }
        ensures unchanged { OnErr result (self.new ≡ self.old) }
    {
        let done = counted(self.done)?;
        let told = counted(self.told)?;
        if is_left(&self.configuration, told) {
            self.told = told;
            self.done = done;
            return Ok(());
        }
        let configuration = onward(&self.setting, &self.configuration, self.answers.as_slice())?;
        self.configuration = configuration;
        self.told = 0;
        self.done = done;
        Ok(())
    }
}

// One more.
fn counted(number: usize) -> Result<usize, Memory>
    ensures { IfOk result (λ more. more ≡ number + 1) }
{
    match number.checked_add(1) {
        Some(number) => Ok(number),
        None => Err(Memory),
    }
}

// The next event, where so much of what is pending is told.
fn next_act(at: &Configuration, told: usize) -> Act
    requires { ready (drop told at.now.pending.items) at.now.stage ≡ true }
    ensures { (s : SettingOf) (given : List ℤ) → First (ahead s given at.now told []) (λ e. act_of e ≡ result) }
{
    if told < at.pending.len() {
        act_of(at.pending[told])
    } else {
        Act::Touch
    }
}

// What the next event carries.
fn next_carried(at: &Configuration, told: usize) -> Carried
    requires { ready (drop told at.now.pending.items) at.now.stage ≡ true }
    ensures { (s : SettingOf) (given : List ℤ) → First (ahead s given at.now told []) (λ e. carried_of e ≡ result) }
{
    if told < at.pending.len() {
        carried_of(at.pending[told])
    } else {
        read_of(at.stage)
    }
}

// Whether a task may go past an event that carries this, with this value.
fn goes_with(carried: Carried, value: Option<i64>) -> bool
    ensures { result ≡ goes_with carried value }
{
    match carried {
        Carried::Read(..) => value.is_some(),
        Carried::Ended(..) => false,
        _ => value.is_none(),
    }
}

// The read that is asked for.
fn read_of(stage: Stage) -> Carried
    ensures { result ≡ read_of stage }
{
    match stage {
        Stage::Asking(object, cell) => Carried::Read(object, cell),
        Stage::Going | Stage::Over => Carried::Nothing,
    }
}

// Whether something is left to tell.
fn is_left(at: &Configuration, told: usize) -> bool
    ensures { result ≡ ready (drop told at.now.pending.items) at.now.stage }
{
    if told < at.pending.len() {
        true
    } else {
        asks(at.stage)
    }
}

// Whether a read is asked for.
fn asks(stage: Stage) -> bool
    ensures { result ≡ ready [] stage }
{
    match stage {
        Stage::Asking(..) => true,
        Stage::Going | Stage::Over => false,
    }
}

// Whether the next event is a creation.
fn is_creation(at: &Configuration, told: usize) -> bool
    ensures { result ≡ creates (drop told at.now.pending.items) }
{
    if told < at.pending.len() {
        enrolls(at.pending[told])
    } else {
        false
    }
}

// Whether an event is a creation.
fn enrolls(event: PendingEvent) -> bool
    ensures { result ≡ enrolls event }
{
    match event {
        PendingEvent::Enroll(_) => true,
        _ => false,
    }
}

// The act of an event.
fn act_of(event: PendingEvent) -> Act
    ensures { (t : TaskOf) → act_of (event_of t event) ≡ result }
{
    match event {
        PendingEvent::Enter(object, _) => Act::Enter(object),
        PendingEvent::Enroll(_) => Act::Enroll,
        PendingEvent::Take(object, _) => Act::Take(object),
        PendingEvent::Write(..) => Act::Touch,
        PendingEvent::Give(object) => Act::Give(object),
        PendingEvent::Leave(object) => Act::Leave(object),
        PendingEvent::Shift(object, _) => Act::Shift(object),
        PendingEvent::Resign(..) => Act::Resign,
    }
}

// What an event carries beside the object of its act.
fn carried_of(event: PendingEvent) -> Carried
    ensures { (t : TaskOf) → carried_of (event_of t event) ≡ result }
{
    match event {
        PendingEvent::Enter(_, rights) => Carried::Rights(rights),
        PendingEvent::Enroll(steps) => Carried::Steps(steps),
        PendingEvent::Take(_, mode) => Carried::Mode(mode),
        PendingEvent::Write(object, cell, value) => Carried::Write(object, cell, value),
        PendingEvent::Give(_) | PendingEvent::Leave(_) => Carried::Nothing,
        PendingEvent::Shift(_, rights) => Carried::Rights(rights),
        PendingEvent::Resign(blame, steps) => Carried::Ended(blame, steps),
    }
}
