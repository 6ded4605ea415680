//! A task that runs its code and asks for what it needs.

ghost use Rattle.std.specs.Prelude.{◌≡◌, ℕ, ℤ, List, ◌+◌, ◌%◌, ◌^◌, ◌<◌, ◌≤◌, ◌∷◌, [], length, map, replicate, is_some};
ghost use Rattle.std.specs.Prelude.{true, false, None, Some, IfOk, OnOk, OnErr};
ghost use Rattle.std.specs.Prelude.{IfSome, IfNone, slice_get, is_none, not, ◌&&◌, ◌||◌};
ghost use Rattle.jade_base.specs.Rights.{both_rights, is_immediate, mode_of};
ghost use Rattle.jade_meaning.specs.Specification.{rights_on, same_hold};
ghost use Rattle.jade_meaning.specs.Talk.{Enter, Leave, made_immediate};
ghost use Rattle.code_meaning.specs.Meaning.{code_course};
ghost use Rattle.task_machine.specs.Stages.{rights_at, Tells};
ghost use Rattle.task_machine.specs.Executions.{Advanced, created_by, held_by, with_content};
ghost use Rattle.task_machine.specs.Left.{IsNone};
ghost use Rattle.task_machine.specs.Machines.{all_due, child_of, child_task, due_in, is_event, marks_after};
ghost use Rattle.task_machine.specs.Machines.{IsOrdered, NoDue, rest_of, steps_at, supplied, surrendered, with_mark};
ghost use Rattle.task_machine.specs.Machines.{amended_at, begun, course_at, is_to_move, made_at};
ghost use Rattle.task_machine.specs.Playing.{touches};
ghost use Rattle.task_machine.specs.Asks.{Asking, BeginsAs, GoesTo, HeldWith, Stands, changed, created, number_of};
ghost use Rattle.task_machine.specs.Asks.{enters_from, follows, leaves_from, shifts_from};
ghost use Rattle.task_machine.specs.steps.Standing.{Asked, asking, gives_up, HasRows, HoldsAsRights, IsFresh, IsKept, NoMarks};
ghost use Rattle.task_machine.specs.steps.Standing.{is_due_anew, last_ask, machine, marks_in, phase_of, reached, RunsOn, TakenAs};
ghost use Rattle.task_machine.specs.steps.Surrendering.{IsSurrendered};
ghost use Rattle.task_machine.specs.declared.frame.Pause.{Pause as PauseOf};
ghost use Rattle.task_machine.specs.declared.machine.Ask.{Ask as AskOf};

use crate::entries::{next_amended, next_entry};
use crate::execution::Execution;
use crate::frame::Pause;
use crate::laws::{begins_its_course, begins_its_talk};
use crate::next::{Phase, is_given_back, next_from, own_due};
use crate::room::{MachineRoom, emptied};
use access_spec::mode_of;
use jade_base::{Blame, Content, Memory, Mode, ObjectId, Right, Rights};
use std::alloc::Global;
use std::marker::Model;
use task_code::DecodedCode;

// The first object of all.
const START: ObjectId = ObjectId(0);

// The place at which a row is looked for first where nothing tells of one.
const NOWHERE: usize = 0;

/// What a task asks for.
#[derive(Clone, Copy, Debug, PartialEq, Eq)]
pub enum Ask {
    /// The content of an object, held in this mode.
    Take(ObjectId, Mode),
    /// The content of an object is to be taken back.
    GiveBack(ObjectId),
    /// A child is to be created.
    Create,
    /// Its rights are to change.
    Change,
    /// It ends.
    End,
    /// It ends early.
    Fault(Blame),
}

/// A task that runs its code and asks for what it needs. Contracts see it as plain data.
#[derive(Drop)]
pub struct Machine<'c> {
    execution: Execution<'c>,
    due: Vec<bool>,
    // Where the row of the object of the last ask is looked for first.
    near: usize,
    asks: u64,
    touched: u64,
    phase: Phase,
    ask: Option<Ask>,
    // Below this object nothing is to be taken or given up.
    from: ObjectId,
    part: u32,
    children: u32,
    // That no mark is set, where that is known.
    unmarked: bool,
}

impl<'c> Model for Machine<'c> {
    ghost use Rattle.task_machine.specs.Asks.{Asking, coded_asking};
    ghost use Rattle.task_machine.specs.steps.Standing.{asking, IsSearched};

    ghost Value = { Asking };

    ghost coded = { coded_asking };

    ghost view = { λ m. asking m.execution m.due.items m.phase m.part m.ask m.asks m.children m.touched };

    ghost invariant = { λ m. IsSearched m.from.0 m.unmarked (asking m.execution m.due.items m.phase m.part m.ask m.asks m.children m.touched) };
}

// The take of an object for which there is a mode. Its rights are looked for at this place first.
fn take(execution: &Execution, place: usize, object: ObjectId) -> Ask
    requires { is_some (mode_of (rights_on (rights_at execution.now.stage) object.0)) ≡ true }
    ensures { TakenAs result object execution.now }
{
    match mode_of(execution.rights_in_row(place, object)) {
        Some(mode) => Ask::Take(object, mode),
        None => unreachable!(),
    }
}

// What is asked for once nothing is left to be given up.
fn last_ask(phase: Phase) -> Ask
    ensures { result ≡ last_ask phase }
{
    match phase {
        Phase::Creating(_) => Ask::Create,
        Phase::Changing => Ask::Change,
        Phase::Ending(None) => Ask::End,
        Phase::Ending(Some(blame)) => Ask::Fault(blame),
        Phase::Starting => Ask::End,
        Phase::Taking => Ask::End,
        Phase::Going => Ask::End,
    }
}

// The object below which nothing is to be taken or given up, once there is an ask.
fn reached(ask: Ask, from: ObjectId) -> ObjectId
    ensures { result.0 ≡ reached ask from.0 }
{
    match ask {
        Ask::Take(object, _) => object,
        Ask::GiveBack(object) => object,
        Ask::Create => from,
        Ask::Change => from,
        Ask::End => from,
        Ask::Fault(_) => from,
    }
}

// The lesser of two objects.
fn below(from: ObjectId, object: ObjectId) -> ObjectId
    ensures { (result.0 ≤ from.0) × (result.0 ≤ object.0) }
{
    if object.0 < from.0 { object } else { from }
}

// What is asked for where something may have to be given up first, and where the row of its object
// may be found.
fn give(execution: &Execution, due: &[bool], phase: Phase, from: ObjectId) -> (Ask, usize)
    requires gives { gives_up phase ≡ true }
    requires done { IsNone (is_to_move phase execution.now due.now) from.0 }
    ensures asks { (part : ℕ) → Asked result.0 phase (machine execution.now due.now phase part) }
    ensures done { IsNone (is_to_move phase execution.now due.now) (reached result.0 from.0) }
{
    match next_from(execution, due, phase, from) {
        Some((object, place)) => (Ask::GiveBack(object), place),
        None => (last_ask(phase), NOWHERE),
    }
}

// What is taken next of what is due, and where its row may be found.
fn take_due(execution: &Execution, due: &[bool], from: ObjectId) -> Option<(Ask, usize)>
    requires done { IsNone (is_to_move Phase.Taking execution.now due.now) from.0 }
    ensures asks { IfSome result (λ next. (part : ℕ) → IsOrdered (machine execution.now due.now Phase.Taking part)
        → Asked next.0 Phase.Taking (machine execution.now due.now Phase.Taking part)) }
    ensures none { IfNone result (RunsOn Phase.Taking execution.now due.now) }
    ensures done { IfSome result (λ next. IsNone (is_to_move Phase.Taking execution.now due.now) (reached next.0 from.0)) }
{
    match next_from(execution, due, Phase::Taking, from) {
        Some((object, place)) => Some((take(execution, place, object), place)),
        None => None,
    }
}

// What a task takes next where it begins, and where its row may be found: the object on which it
// commutes last.
fn take_first(execution: &Execution, due: &[bool], from: ObjectId) -> Option<(Ask, usize)>
    requires done { IsNone (is_to_move Phase.Starting execution.now due.now) from.0 }
    ensures asks { IfSome result (λ next. (part : ℕ) → IsOrdered (machine execution.now due.now Phase.Starting part)
        → Asked next.0 Phase.Starting (machine execution.now due.now Phase.Starting part)) }
    ensures none { IfNone result (RunsOn Phase.Starting execution.now due.now) }
    ensures done { IfSome result (λ next. IsNone (is_to_move Phase.Starting execution.now due.now) (reached next.0 from.0)) }
{
    match next_from(execution, due, Phase::Starting, from) {
        Some((object, place)) => Some((take(execution, place, object), place)),
        None => match own_due(execution, due) {
            Some(object) => Some((take(execution, NOWHERE, object), NOWHERE)),
            None => None,
        },
    }
}

// What is asked for before the code is run on, and where the row of its object may be found.
fn next_ask(
    execution: &Execution,
    due: &[bool],
    phase: Phase,
    from: ObjectId,
) -> Option<(Ask, usize)>
    requires done { IsNone (is_to_move phase execution.now due.now) from.0 }
    ensures asks { IfSome result (λ next. (part : ℕ) → IsOrdered (machine execution.now due.now phase part)
        → Asked next.0 phase (machine execution.now due.now phase part)) }
    ensures none { IfNone result (RunsOn phase execution.now due.now) }
    ensures done { IfSome result (λ next. IsNone (is_to_move phase execution.now due.now) (reached next.0 from.0)) }
{
    match phase {
        Phase::Starting => take_first(execution, due, from),
        Phase::Taking => take_due(execution, due, from),
        Phase::Going => None,
        Phase::Creating(number) => Some(give(execution, due, Phase::Creating(number), from)),
        Phase::Changing => Some(give(execution, due, Phase::Changing, from)),
        Phase::Ending(blame) => Some(give(execution, due, Phase::Ending(blame), from)),
    }
}

// What the task is about at a pause.
fn phase_of(pause: Pause) -> Phase
    ensures { result ≡ phase_of pause }
{
    match pause {
        Pause::End => Phase::Ending(None),
        Pause::Fault(blame) => Phase::Ending(Some(blame)),
        Pause::Create(number) => Phase::Creating(number),
        Pause::Change => Phase::Changing,
        Pause::Take(_) => Phase::Going,
        Pause::Declare(_, _) => Phase::Going,
        Pause::Other => Phase::Going,
    }
}

// What is asked for where the rights are to change, and where the row of its object may be found.
// Where the section said nothing, what is held stays held.
fn change_ask(execution: &Execution, due: &[bool]) -> (Ask, usize)
    ensures { (part : ℕ) → IsOrdered (machine execution.now due.now Phase.Changing part)
        → Asked result.0 Phase.Changing (machine execution.now due.now Phase.Changing part) }
{
    if execution.is_drafted() {
        give(execution, due, Phase::Changing, START)
    } else {
        (Ask::Change, NOWHERE)
    }
}

// What is asked for at a pause, and where the row of its object may be found.
fn pause_ask(execution: &Execution, due: &[bool], pause: Pause) -> (Ask, usize)
    requires event { is_event pause ≡ true }
    requires tells { Tells pause (child_of execution.now) execution.now.stage (held_by execution.now) }
    requires small { execution.now.stage.objects < 2 ^ 32 }
    ensures { (part : ℕ) → IsOrdered (machine execution.now due.now (phase_of pause) part)
        → NoDue (machine execution.now due.now (phase_of pause) part)
        → HasRows execution.now.stage.spec.entries execution.now.rows
        → Asked result.0 (phase_of pause) (machine execution.now due.now (phase_of pause) part) }
{
    match pause {
        Pause::Take(object) => (take(execution, NOWHERE, ObjectId(object)), NOWHERE),
        Pause::End => give(execution, due, Phase::Ending(None), START),
        Pause::Fault(blame) => give(execution, due, Phase::Ending(Some(blame)), START),
        Pause::Create(number) => give(execution, due, Phase::Creating(number), START),
        Pause::Change => change_ask(execution, due),
        Pause::Declare(_, _) => unreachable!(),
        Pause::Other => unreachable!(),
    }
}

// Runs the code up to the next event. The error is want of memory for a declaration, or code that
// creates a child or changes its rights outside of a section for it.
fn run(execution: &mut Execution, alloc: Global) -> Result<Pause, Memory>
    ensures ran { IfOk result (λ pause. Advanced execution.old pause execution.new) }
    ensures event { IfOk result (λ pause. is_event pause ≡ true) }
    ensures refused { OnErr result ((pause : PauseOf) × Advanced execution.old pause execution.new) }
{
    'run: loop {
        let pause = execution.advance();
        match pause {
            Pause::Declare(object, rights) => execution.declare(alloc, object, rights)?,
            Pause::Other => return Err(Memory),
            Pause::End => return Ok(Pause::End),
            Pause::Fault(blame) => return Ok(Pause::Fault(blame)),
            Pause::Take(object) => return Ok(Pause::Take(object)),
            Pause::Create(number) => return Ok(Pause::Create(number)),
            Pause::Change => return Ok(Pause::Change),
        }
    }
}

// That the touches of a task can be counted up to its next event. The error is code of 2^32
// instructions or more.
fn can_count(execution: &Execution) -> Result<(), Memory>
    ensures { OnOk result (length (touches (course_at execution.now) (held_by execution.now)) < 2 ^ 64) }
{
    let _left = execution.steps_left();
    if execution.length() <= u32::MAX as usize {
        Ok(())
    } else {
        Err(Memory)
    }
}

// The number of the body that is to be created.
fn number_of(phase: Phase) -> u32
    ensures { result ≡ number_of phase }
{
    match phase {
        Phase::Creating(number) => number,
        Phase::Starting => 0,
        Phase::Taking => 0,
        Phase::Going => 0,
        Phase::Changing => 0,
        Phase::Ending(_) => 0,
    }
}

// Another mark for the row of an object, which is looked for at this place first. The result is a
// place at which it may be found.
fn set_mark(
    execution: &Execution,
    near: usize,
    due: &mut Vec<bool>,
    object: ObjectId,
    mark: bool,
) -> usize
    ensures { due.new.items ≡ with_mark object.0 mark execution.now.rows due.old.items }
{
    match execution.row_near(near, object) {
        None => near,
        Some(place) => {
            if place < due.len() {
                due[place] = mark;
            }
            place
        }
    }
}

// What is given up for a change of the rights is due after it; its row is looked for at this place
// first. The result tells that no mark is set, where that is known.
fn mark_given(
    execution: &Execution,
    near: usize,
    due: &mut Vec<bool>,
    unmarked: bool,
    phase: Phase,
    object: ObjectId,
) -> bool
    requires { NoMarks unmarked due.old.items }
    ensures marks { due.new.items ≡ marks_after phase object.0 execution.now.rows due.old.items }
    ensures unset { NoMarks result due.new.items }
{
    match phase {
        Phase::Changing => {
            set_mark(execution, near, due, object, true);
            false
        }
        Phase::Starting => unmarked,
        Phase::Taking => unmarked,
        Phase::Going => unmarked,
        Phase::Creating(_) => unmarked,
        Phase::Ending(_) => unmarked,
    }
}

// Takes out the content of an object that is held. Its row is looked for at this place first.
fn take_out(execution: &mut Execution, near: usize, object: ObjectId) -> Content
    requires { is_some (held_by execution.old object.0) ≡ true }
    ensures content { held_by execution.old object.0 ≡ Some result }
    ensures rows { execution.new ≡ record execution.old { rows = with_content object.0 None execution.old.rows } }
{
    match execution.surrender(near, object) {
        Some(content) => content,
        None => unreachable!(),
    }
}

// No mark is set any more.
fn clear(due: &mut Vec<bool>, unmarked: bool)
    requires { NoMarks unmarked due.old.items }
    ensures { due.new.items ≡ replicate (length due.old.items) false }
{
    if unmarked {
        return;
    }
    due.fill(false);
}

// Where nothing is left to be taken, nothing is due any more. The result tells that no mark is set,
// where that is known.
fn settle(due: &mut Vec<bool>, unmarked: bool, phase: Phase) -> bool
    requires { NoMarks unmarked due.old.items }
    ensures marks { due.new.items ≡ marks_in phase due.old.items }
    ensures unset { NoMarks result due.new.items }
{
    match phase {
        Phase::Starting => {
            clear(due, unmarked);
            true
        }
        Phase::Taking => {
            clear(due, unmarked);
            true
        }
        Phase::Going => unmarked,
        Phase::Creating(_) => unmarked,
        Phase::Changing => unmarked,
        Phase::Ending(_) => unmarked,
    }
}

// So many marks, all of which are set, in a vector that may have been used. The error is want of
// memory.
fn all_due(used: Vec<bool>, count: usize) -> Result<Vec<bool>, Memory>
    ensures { IfOk result (λ due. due.items ≡ replicate count true) }
{
    let mut due = emptied(used, count);
    due.resize(count, true)?;
    Ok(due)
}

// Whether a right is immediate.
fn is_immediate(right: Right) -> bool
    ensures { result ≡ is_immediate right }
{
    match right {
        Right::Immediate => true,
        Right::Absent => false,
        Right::Deferred => false,
    }
}

// Whether a right becomes immediate.
fn is_made_immediate(old: Rights, new: Rights) -> bool
    ensures { result ≡ made_immediate old new }
{
    (is_immediate(new.reads) && !is_immediate(old.reads))
        || (is_immediate(new.writes) && !is_immediate(old.writes))
}

// Whether an object is taken at a change of the rights.
fn is_taken_anew(hold: Option<Mode>, old: Rights, new: Rights) -> bool
    ensures { result ≡ ((is_some hold && not (same_hold hold (mode_of new))) || (is_none hold && made_immediate old new)) }
{
    is_given_back(hold, mode_of(new)) || (hold.is_none() && is_made_immediate(old, new))
}

// Whether an object is due once the rights have changed.
fn is_due_anew(execution: &Execution, due: bool, object: ObjectId) -> bool
    ensures { result ≡ is_due_anew execution.now due object.0 }
{
    let new = execution.amended(object);
    if due || is_taken_anew(execution.hold(object), execution.rights(object), new) {
        mode_of(new).is_some()
    } else {
        false
    }
}

// What is due once the rights have changed.
fn remark(execution: &Execution, due: &mut Vec<bool>)
    requires { length due.old.items ≡ length execution.now.rows }
    ensures { due.new.items ≡ map (λ r. is_due_anew execution.now (due_in execution.now.rows due.old.items r.object.0) r.object.0) execution.now.rows }
{
    'rows: for place in 0..execution.rows() {
        due[place] = is_due_anew(execution, due[place], execution.object_at(place));
    }
}

// What is due once the rights have changed, where nothing was due. The result tells that no mark is
// set, where that is known: where the section said nothing, the marks stay as they are.
fn mark_first(execution: &Execution, due: &mut Vec<bool>) -> bool
    requires long { length due.old.items ≡ length execution.now.rows }
    requires held { HoldsAsRights execution.now }
    requires unset { NoMarks true due.old.items }
    ensures marks { due.new.items ≡ map (λ r. is_due_anew execution.now (due_in execution.now.rows due.old.items r.object.0) r.object.0) execution.now.rows }
    ensures unset { NoMarks result due.new.items }
{
    if execution.is_drafted() {
        remark(execution, due);
        false
    } else {
        true
    }
}

// What is due once the rights have changed. The result tells that no mark is set, where that is
// known.
fn mark_changed(execution: &Execution, due: &mut Vec<bool>, unmarked: bool) -> bool
    requires long { length due.old.items ≡ length execution.now.rows }
    requires held { HoldsAsRights execution.now }
    requires unset { NoMarks unmarked due.old.items }
    ensures marks { due.new.items ≡ map (λ r. is_due_anew execution.now (due_in execution.now.rows due.old.items r.object.0) r.object.0) execution.now.rows }
    ensures unset { NoMarks result due.new.items }
{
    if unmarked {
        mark_first(execution, due)
    } else {
        remark(execution, due);
        false
    }
}

// An object below which nothing is to be taken: any, where no mark is set.
fn untaken(unmarked: bool, objects: u32) -> ObjectId
    ensures { unmarked ≡ false → result.0 ≡ 0 }
{
    if unmarked { ObjectId(objects) } else { START }
}

// A machine at the begin of an execution.
fn begun<'c>(execution: Execution<'c>, due: Vec<bool>) -> Machine<'c>
    requires fresh { IsFresh execution }
    requires due { due.items ≡ all_due execution.rows }
    ensures { result ≡ record { at = begun execution.entry; ask = None; asks = 0; children = 0; touched = 0 } }
{
    let part = execution.steps_left();
    Machine {
        execution,
        due,
        unmarked: false,
        phase: Phase::Starting,
        from: START,
        near: NOWHERE,
        part,
        ask: None,
        asks: 0,
        children: 0,
        touched: 0,
    }
}

impl<'c> Machine<'c> {
    /// The task of the first body, from its begin, with immediate reading and writing of all
    /// objects. The error is want of memory.
    pub fn root(
        alloc: Global,
        code: &'c DecodedCode,
        numbers: &'c [i64],
        limit: u32,
    ) -> Result<Machine<'c>, Memory>
        requires numbers { length numbers.now ≡ code.now.inputs }
        requires objects { length code.now.sizes < 2 ^ 32 }
        ensures begins { IfOk result (λ task. BeginsAs (record {
          spec = replicate (length code.now.sizes) both_rights;
          course = code_course code.now.bodies numbers.now limit (replicate (length code.now.sizes) both_rights);
        }) task) }
        ensures objects { IfOk result (λ task. task.at.execution.stage.objects ≡ length code.now.sizes) }
    {
        begins_its_course();
        begins_its_talk();
        code.keeps_rules();
        let execution = Execution::root(alloc, code, numbers, limit)?;
        let due = all_due(Vec::new(alloc), execution.rows())?;
        Ok(begun(execution, due))
    }

    /// The ask that stands, if one does. It takes no memory.
    pub fn asked(&self) -> Option<Ask>
        ensures { result ≡ self.now.ask }
    {
        self.ask
    }

    /// How many asks it made, modulo 2^64. It takes no memory.
    pub fn asks(&self) -> u64
        ensures { result ≡ self.now.asks }
    {
        self.asks
    }

    /// How many children the task created, modulo 2^32. It takes no memory.
    pub fn children(&self) -> u32
        ensures { result ≡ self.now.children }
    {
        self.children
    }

    /// How many cells the task touched on its way to the last ask. It takes no memory.
    pub fn touched(&self) -> u64
        ensures { result ≡ self.now.touched }
    {
        self.touched
    }

    /// How many steps the present part has begun. It takes no memory.
    pub fn steps(&self) -> u64
        ensures { result ≡ steps_at self.now.at }
    {
        (self.part - self.execution.steps_left()) as u64
    }

    /// What the ask that stands says of what comes next. It does nothing.
    pub fn stands(&self)
        ensures { (a : AskOf) → self.now.ask ≡ Some a → Stands a self.now }
    {
        self.execution.settles();
    }

    /// Goes on to the next ask. The error is want of memory, or code of 2^32 instructions or more, or
    /// code that creates a child or changes its rights outside of a section for it, which no code of
    /// a program does: then the task has come some of the way, asks for nothing, and has the same
    /// left to play.
    pub fn advance(&mut self, alloc: Global) -> Result<Ask, Memory>
        requires { self.old.ask ≡ None }
        ensures goes { OnOk result (GoesTo self.old self.new) }
        ensures asks { IfOk result (λ ask. self.new.ask ≡ Some ask) }
        ensures count { OnOk result (self.new.asks ≡ (self.old.asks + 1) % 2 ^ 64) }
        ensures children { self.new.children ≡ self.old.children }
        ensures refused { OnErr result ((self.new.ask ≡ None) × (self.new.asks ≡ self.old.asks)
            × ((vs : List ℤ) → rest_of self.new.at vs ≡ rest_of self.old.at vs)) }
    {
        match next_ask(&self.execution, self.due.as_slice(), self.phase, self.from) {
            Some((ask, near)) => {
                self.from = reached(ask, self.from);
                self.near = near;
                self.touched = 0;
                self.ask = Some(ask);
                self.asks = self.asks.wrapping_add(1);
                Ok(ask)
            }
            None => self.go_on(alloc),
        }
    }

    // Runs the code on to the next ask.
    fn go_on(&mut self, alloc: Global) -> Result<Ask, Memory>
        requires asked { self.old.ask ≡ None }
        requires runs { RunsOn self.old.at.phase self.old.at.execution self.old.at.due }
        ensures goes { OnOk result (GoesTo self.old self.new) }
        ensures asks { IfOk result (λ ask. self.new.ask ≡ Some ask) }
        ensures count { OnOk result (self.new.asks ≡ (self.old.asks + 1) % 2 ^ 64) }
        ensures children { self.new.children ≡ self.old.children }
        ensures refused { OnErr result ((self.new.ask ≡ None) × (self.new.asks ≡ self.old.asks)
            × ((vs : List ℤ) → rest_of self.new.at vs ≡ rest_of self.old.at vs)) }
    {
        can_count(&self.execution)?;
        let before = self.execution.events();
        self.unmarked = settle(&mut self.due, self.unmarked, self.phase);
        self.phase = Phase::Going;
        self.from = START;
        let pause = run(&mut self.execution, alloc)?;
        self.phase = phase_of(pause);
        let (ask, near) = pause_ask(&self.execution, self.due.as_slice(), pause);
        self.near = near;
        self.touched = self.execution.events().wrapping_sub(before);
        self.ask = Some(ask);
        self.asks = self.asks.wrapping_add(1);
        Ok(ask)
    }

    /// The content of the object that is asked for is held. It takes no memory.
    pub fn supply(&mut self, object: ObjectId, content: Content)
        requires { self.old.ask ≡ Some (Ask.Take object content.mode) }
        ensures supplied { self.new ≡ record self.old { at = supplied object.0 content self.old.at; ask = None } }
        ensures held { HeldWith object.0 (Some content) self.old.at self.new.at }
    {
        let place = set_mark(&self.execution, self.near, &mut self.due, object, false);
        self.execution.supply(place, object, content);
        self.from = below(self.from, object);
        self.ask = None;
    }

    /// The content of the object that is asked back is held no more. It takes no memory.
    pub fn surrender(&mut self, object: ObjectId) -> Content
        requires { self.old.ask ≡ Some (Ask.GiveBack object) }
        ensures content { held_by self.old.at.execution object.0 ≡ Some result }
        ensures surrendered { self.new ≡ record self.old { at = surrendered object.0 self.old.at; ask = None } }
        ensures held { HeldWith object.0 None self.old.at self.new.at }
        ensures given { IsSurrendered object result self.old self.new }
    {
        self.unmarked = mark_given(
            &self.execution,
            self.near,
            &mut self.due,
            self.unmarked,
            self.phase,
            object,
        );
        self.from = below(self.from, object);
        self.ask = None;
        take_out(&mut self.execution, self.near, object)
    }

    /// Takes a content back that was surrendered and found no taker: all is as before. It takes no
    /// memory.
    pub fn restore(&mut self, object: ObjectId, content: Content)
        requires { (before : Asking) × IsSurrendered object content before self.old }
        ensures { (before : Asking) → IsSurrendered object content before self.old → self.new ≡ before }
    {
        let place = set_mark(&self.execution, self.near, &mut self.due, object, false);
        self.execution.supply(place, object, content);
        self.from = below(self.from, object);
        self.ask = Some(Ask::GiveBack(object));
    }

    /// The child that is asked for, at its begin; the task is in a new part then. The child's vectors
    /// are those of the room. The error is want of memory, and changes nothing but the room.
    pub fn child(&mut self, alloc: Global, room: &mut MachineRoom) -> Result<Machine<'c>, Memory>
        requires { self.old.ask ≡ Some Ask.Create }
        ensures begins { IfOk result (λ child. BeginsAs (child_task (number_of self.old.at.phase) self.old.at.execution) child) }
        ensures objects { IfOk result (λ child. child.at.execution.stage.objects ≡ self.old.at.execution.stage.objects) }
        ensures created { OnOk result (self.new ≡ record self.old { at = created self.old.at; ask = None; children = (self.old.children + 1) % 2 ^ 32 }) }
        ensures refused { OnErr result (self.new ≡ self.old) }
    {
        begins_its_course();
        begins_its_talk();
        let number = number_of(self.phase);
        self.execution.creates(number);
        let due = all_due(room.take_due(alloc), self.execution.child_spec().len())?;
        let execution = self.execution.child(alloc, number, room)?;
        self.part = self.execution.steps_left();
        self.phase = Phase::Going;
        self.ask = None;
        self.children = self.children.wrapping_add(1);
        Ok(begun(execution, due))
    }

    /// Leaves its vectors and its specification in a room, for the child of another. What was in the room
    /// is let go.
    pub fn leave_in(self, room: &mut MachineRoom) {
        room.due = self.due;
        self.execution.leave_in(room);
    }

    /// The rights have changed as its section has made them; what was given up for that, and what
    /// may be used at once from now on, is due. It takes no memory.
    pub fn changed(&mut self)
        requires { self.old.ask ≡ Some Ask.Change }
        ensures { self.new ≡ record self.old { at = changed self.old.at; ask = None } }
    {
        self.unmarked = mark_changed(&self.execution, &mut self.due, self.unmarked);
        self.execution.change();
        self.phase = Phase::Taking;
        self.from = untaken(self.unmarked, self.execution.objects());
        self.ask = None;
    }

    /// The first object, from one on, on which the child that is asked for has rights, with these
    /// rights: its next entry. It takes no memory.
    pub fn next_enter(&self, from: ObjectId) -> Option<(ObjectId, Rights)>
        ensures enters { IfSome result (λ next. enters_from from.0 (made_at self.now.at.execution)
            ≡ Enter next.0.0 next.1 ∷ enters_from (next.0.0 + 1) (made_at self.now.at.execution)) }
        ensures reached { IfSome result (λ next. from.0 ≤ next.0.0) }
        ensures within { IfSome result (λ next. next.0.0 < self.now.at.execution.stage.objects) }
        ensures none { IfNone result (enters_from from.0 (made_at self.now.at.execution) ≡ []) }
    {
        next_entry(self.execution.child_spec(), self.execution.objects(), from)
    }

    /// The first object, from one on, on which the rights change, with the new rights: those of its
    /// entry from then on, which leaves where there are none. It takes no memory.
    pub fn next_change(&self, from: ObjectId) -> Option<(ObjectId, Rights)>
        ensures shifts { IfSome result (λ next. shifts_from from.0 (rights_at self.now.at.execution.stage) (amended_at self.now.at.execution)
            ≡ follows next.0.0 next.1 ∷ shifts_from (next.0.0 + 1) (rights_at self.now.at.execution.stage) (amended_at self.now.at.execution)) }
        ensures reached { IfSome result (λ next. from.0 ≤ next.0.0) }
        ensures within { IfSome result (λ next. next.0.0 < self.now.at.execution.stage.objects) }
        ensures none { IfNone result (shifts_from from.0 (rights_at self.now.at.execution.stage) (amended_at self.now.at.execution) ≡ []) }
    {
        let spec = self.execution.spec().spec();
        next_amended(spec, self.execution.objects(), from)
    }

    /// The first object, from one on, on which the task has rights: its entry is the next to leave
    /// at the end. It takes no memory.
    pub fn next_leave(&self, from: ObjectId) -> Option<ObjectId>
        ensures leaves { IfSome result (λ object. leaves_from from.0 (rights_at self.now.at.execution.stage)
            ≡ Leave object.0 ∷ leaves_from (object.0 + 1) (rights_at self.now.at.execution.stage)) }
        ensures reached { IfSome result (λ object. from.0 ≤ object.0) }
        ensures within { IfSome result (λ object. object.0 < self.now.at.execution.stage.objects) }
        ensures none { IfNone result (leaves_from from.0 (rights_at self.now.at.execution.stage) ≡ []) }
    {
        let spec = self.execution.spec().spec();
        let (object, _) = next_entry(spec, self.execution.objects(), from)?;
        Some(object)
    }
}
