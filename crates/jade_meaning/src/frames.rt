//! What is left of a task, as a stack of frames, and what it does next.

ghost use Rattle.std.specs.Prelude.{◌≡◌, List, ℤ, pos, ◌+ℤ◌, ◌<ℤ◌, ◌≤ℤ◌, true, false, map, IfOk, OnOk};
ghost use Rattle.jade_meaning.specs.declared.values.Value.TheVariants.{IntOf};
ghost use Rattle.jade_syntax.specs.declared.tree.ValueKind.{ValueKind};
ghost use Rattle.jade_syntax.specs.Image.{expression, reference, object, action, block};
ghost use Rattle.jade_syntax.specs.Abstract as abstract;
ghost use Rattle.jade_meaning.specs.steps.Evaluation.{evaluated, source};
ghost use Rattle.jade_meaning.specs.steps.Perform.{shown};
ghost use Rattle.jade_meaning.specs.steps.Frames.{Did, DoesNext, GoesOn, Enters, chosen, evaluate_store, evaluate_bounds, paused_as, course_of};

use crate::dense_spec::DenseSpec;
use crate::scope::Scope;
use crate::setting::{Setting, Task, blame_at, cell_of};
use crate::source::{Cells, Pause};
use crate::values::Value;
use jade_base::{Blame, FaultKind, Memory, Pos, Right};
use jade_syntax::Name;
use jade_syntax::tree::{Block, CellRef, DeclareWord, Expr, NameList, ObjectRef, Statement};

/// A thing that is left to do.
#[derive(Clone, Copy)]
pub(crate) enum Frame<'c> {
    /// The statements of a block from one on.
    Rest(&'c Block, usize),
    /// A statement whose step has begun.
    Doing(&'c Statement),
    /// The end of a block's variables, so that so many stay.
    Leaving(usize),
    /// The turns of a loop, from a value of its variable on.
    Turning(&'c Name, &'c Block, (i64, i64)),
    /// The creation at the end of the section of a `withonly`.
    Creating(Pos, &'c NameList, &'c Block),
    /// The change at the end of the section of a `with`.
    Changing,
}

/// What a child begins with.
#[derive(Drop)]
pub(crate) struct Newborn<'c> {
    pub(crate) scope: Scope<'c>,
    pub(crate) spec: DenseSpec,
    pub(crate) body: &'c Block,
}

/// What a task does next: nothing that others see, the beginning of a step, a read that has no
/// answer yet, a write, a creation, a change to these rights, or its end.
#[derive(Drop)]
pub(crate) enum Transition<'c> {
    Silent,
    Stepped,
    Asked(usize, usize),
    Wrote((usize, usize, i64)),
    Created(Newborn<'c>),
    Changed(DenseSpec),
    Ended(Option<Blame>),
}

/// A task that goes on: what it has of its own, what is left to do, and how many of its answers
/// are used.
#[derive(Drop)]
pub(crate) struct Running<'c> {
    pub(crate) task: Task<'c>,
    pub(crate) frames: Vec<Frame<'c>>,
    pub(crate) used: usize,
}

// Whether a number of a range is left.
fn is_left(range: (i64, i64)) -> bool
    ensures left { result ≡ true → range.0 <ℤ range.1 }
    ensures over { result ≡ false → range.1 ≤ℤ range.0 }
{
    range.0 < range.1
}

// The first number of a range, as a value.
fn first_of(range: (i64, i64)) -> Value
    ensures { result ≡ IntOf range.0 }
{
    Value::IntOf(range.0)
}

// A range without its first number.
fn after_first(range: (i64, i64)) -> (i64, i64)
    requires { range.0 <ℤ range.1 }
    ensures { result ≡ (range.0 +ℤ pos 1, range.1) }
{
    (range.0 + 1, range.1)
}

// What a pause lets a task do.
fn paused<'c>(pause: Pause) -> Transition<'c>
    ensures { result ≡ paused_as pause }
{
    match pause {
        Pause::Fault(blame) => Transition::Ended(Some(blame)),
        Pause::Awaits(object, cell) => Transition::Asked(object, cell),
    }
}

impl<'c> Setting<'c> {
    // A new variable.
    fn local_transition(
        &self,
        name: &'c Name,
        value: &Expr,
        answers: &[i64],
        run: &mut Running<'c>,
    ) -> Result<Transition<'c>, Memory>
        ensures { (kind : ValueKind)
            → IfOk result (λ transition. Did (shown self.now) answers.now transition (abstract.Local kind name.now (expression value.now)) run.old run.new) }
    {
        let mut used = run.used;
        match self.evaluate(&run.task, &Cells::Answered(answers), &mut used, value) {
            Ok(value) => {
                run.task.scope.bind(name, value)?;
                run.used = used;
                Ok(Transition::Silent)
            }
            Err(pause) => Ok(paused(pause)),
        }
    }

    // Another value for a variable.
    fn assign_transition(
        &self,
        name: &Name,
        value: &Expr,
        answers: &[i64],
        run: &mut Running<'c>,
    ) -> Transition<'c>
        ensures { Did (shown self.now) answers.now result (abstract.Assign name.now (expression value.now)) run.old run.new }
    {
        let mut used = run.used;
        match self.evaluate(&run.task, &Cells::Answered(answers), &mut used, value) {
            Ok(value) => {
                run.task.scope.assign(name, value);
                run.used = used;
                Transition::Silent
            }
            Err(pause) => paused(pause),
        }
    }

    // The cell of a store, and the number that goes there.
    fn stored(
        &self,
        target: &CellRef,
        value: &Expr,
        task: &Task<'c>,
        cells: &Cells,
        used: &mut usize,
    ) -> Result<(usize, usize, i64), Pause>
        ensures { evaluated result used.new
            ≡ evaluate_store self.now.items task.now.scope task.now.spec (source cells.now) (reference target.now).place (reference target.now).cell
            (expression value.now) used.old }
    {
        let found = match self.evaluate_object(
            task,
            cells,
            used,
            &target.name,
            target.pos,
            &target.family,
        ) {
            Ok(found) => found,
            Err(pause) => return Err(pause),
        };
        let index = match self.evaluate(task, cells, used, &target.cell) {
            Ok(value) => value.whole(),
            Err(pause) => return Err(pause),
        };
        let cell = match cell_of(found, index, target.pos) {
            Ok(cell) => cell,
            Err(blame) => return Err(Pause::Fault(blame)),
        };
        let number = match self.evaluate(task, cells, used, value) {
            Ok(value) => value.whole(),
            Err(pause) => return Err(pause),
        };
        if task.spec.on(found.number).may_write() {
            Ok((found.number, cell, number))
        } else {
            Err(Pause::Fault(blame_at(FaultKind::Right, target.pos)))
        }
    }

    // A write of a cell.
    fn store_transition(
        &self,
        target: &CellRef,
        value: &Expr,
        answers: &[i64],
        run: &mut Running<'c>,
    ) -> Transition<'c>
        ensures { Did (shown self.now) answers.now result (abstract.Store (reference target.now).place (reference target.now).cell
            (expression value.now)) run.old run.new }
    {
        let mut used = run.used;
        match self.stored(
            target,
            value,
            &run.task,
            &Cells::Answered(answers),
            &mut used,
        ) {
            Ok(written) => {
                run.used = used;
                Transition::Wrote(written)
            }
            Err(pause) => paused(pause),
        }
    }

    // A word of a section.
    fn declare_transition(
        &self,
        word: DeclareWord,
        at: Pos,
        of: &ObjectRef,
        answers: &[i64],
        run: &mut Running<'c>,
    ) -> Transition<'c>
        ensures { Did (shown self.now) answers.now result (abstract.Declare word at (object of.now)) run.old run.new }
    {
        let mut used = run.used;
        match self.evaluate_object(
            &run.task,
            &Cells::Answered(answers),
            &mut used,
            &of.name,
            of.pos,
            &of.member,
        ) {
            Ok(found) => match run.task.draft.declare(word, found.number, at) {
                Ok(()) => {
                    run.used = used;
                    Transition::Silent
                }
                Err(blame) => Transition::Ended(Some(blame)),
            },
            Err(pause) => paused(pause),
        }
    }

    // A test, and the block that it chooses, if there is one.
    fn if_transition(
        &self,
        test: &Expr,
        then: &'c Block,
        otherwise: &'c Option<Block>,
        answers: &[i64],
        run: &mut Running<'c>,
    ) -> Result<Transition<'c>, Memory>
        ensures { IfOk result (λ transition. Did (shown self.now) answers.now transition
            (chosen (expression test.now) then.now otherwise.now) run.old run.new) }
    {
        let mut used = run.used;
        match self.evaluate(&run.task, &Cells::Answered(answers), &mut used, test) {
            Ok(value) => {
                run.used = used;
                if value.holds() {
                    enter(run, then)?;
                    return Ok(Transition::Silent);
                }
                match otherwise {
                    None => Ok(Transition::Silent),
                    Some(block) => {
                        enter(run, block)?;
                        Ok(Transition::Silent)
                    }
                }
            }
            Err(pause) => Ok(paused(pause)),
        }
    }

    // The bounds of a loop.
    fn bounds(
        &self,
        low: &Expr,
        high: &Expr,
        task: &Task<'c>,
        cells: &Cells,
        used: &mut usize,
    ) -> Result<(i64, i64), Pause>
        ensures { evaluated result used.new
            ≡ evaluate_bounds self.now.items task.now.scope task.now.spec (source cells.now) (expression low.now) (expression high.now) used.old }
    {
        let low = match self.evaluate(task, cells, used, low) {
            Ok(value) => value.whole(),
            Err(pause) => return Err(pause),
        };
        match self.evaluate(task, cells, used, high) {
            Ok(value) => Ok((low, value.whole())),
            Err(pause) => Err(pause),
        }
    }

    // A loop before its first turn.
    fn for_transition(
        &self,
        name: &'c Name,
        range: (&Expr, &Expr),
        body: &'c Block,
        answers: &[i64],
        run: &mut Running<'c>,
    ) -> Result<Transition<'c>, Memory>
        ensures { IfOk result (λ transition. Did (shown self.now) answers.now transition
            (abstract.For name.now (expression range.entry.0.now) (expression range.entry.1.now) (block body.now)) run.old run.new) }
    {
        let mut used = run.used;
        let (low, high) = range;
        match self.bounds(low, high, &run.task, &Cells::Answered(answers), &mut used) {
            Ok(range) => {
                run.frames.push(Frame::Turning(name, body, range))?;
                run.used = used;
                Ok(Transition::Silent)
            }
            Err(pause) => Ok(paused(pause)),
        }
    }

    // The section of a `withonly`, after which the child is made.
    fn withonly_transition(
        &self,
        at: Pos,
        section: &'c Block,
        names: &'c NameList,
        body: &'c Block,
        run: &mut Running<'c>,
    ) -> Result<Transition<'c>, Memory>
        ensures { (vs : List ℤ) → IfOk result (λ transition. Did (shown self.now) vs transition
            (abstract.Withonly at (block section.now) (map (λ n. n.name) names.now) (block body.now)) run.old run.new) }
    {
        if run.task.spec.is_commuting() {
            return Ok(Transition::Ended(Some(blame_at(FaultKind::Commute, at))));
        }
        self.begin_building(&mut run.task)?;
        run.frames.push(Frame::Creating(at, names, body))?;
        enter(run, section)?;
        Ok(Transition::Silent)
    }

    // The section of a `with`, after which the task's own rights change.
    fn with_transition(
        &self,
        at: Pos,
        section: &'c Block,
        run: &mut Running<'c>,
    ) -> Result<Transition<'c>, Memory>
        ensures { (vs : List ℤ) → IfOk result (λ transition. Did (shown self.now) vs transition (abstract.With at (block section.now)) run.old run.new) }
    {
        if run.task.spec.is_commuting() {
            return Ok(Transition::Ended(Some(blame_at(FaultKind::Commute, at))));
        }
        self.begin_amending(&mut run.task)?;
        run.frames.push(Frame::Changing)?;
        enter(run, section)?;
        Ok(Transition::Silent)
    }

    // A statement whose step has begun.
    fn statement_transition(
        &self,
        statement: &'c Statement,
        answers: &[i64],
        run: &mut Running<'c>,
    ) -> Result<Transition<'c>, Memory>
        ensures { IfOk result (λ transition. Did (shown self.now) answers.now transition (action statement.now) run.old run.new) }
    {
        let transition = match statement {
            Statement::Local { name, value, .. } => self.local_transition(
                name, value, answers, run,
            )?,
            Statement::Assign { name, value, .. } => self.assign_transition(
                name, value, answers, run,
            ),
            Statement::Store { target, value } => self.store_transition(
                target, value, answers, run,
            ),
            Statement::If {
                test,
                then,
                otherwise,
            } => self.if_transition(test, then, otherwise, answers, run)?,
            Statement::For {
                name,
                low,
                high,
                body,
                ..
            } => self.for_transition(name, (low, high), body, answers, run)?,
            Statement::Withonly {
                pos,
                section,
                names,
                body,
            } => self.withonly_transition(*pos, section, names, body, run)?,
            Statement::With { pos, section } => self.with_transition(*pos, section, run)?,
            Statement::Declare { word, pos, object } => {
                self.declare_transition(*word, *pos, object, answers, run)
            }
        };
        Ok(transition)
    }

    // A statement whose step has begun; where an answer is wanting it stays to be done.
    fn doing(
        &self,
        statement: &'c Statement,
        answers: &[i64],
        run: &mut Running<'c>,
    ) -> Result<Transition<'c>, Memory>
        ensures { IfOk result (λ transition. DoesNext (shown self.now) answers.now transition (Frame.Doing statement.entry) run.old run.new) }
    {
        match self.statement_transition(statement, answers, run)? {
            Transition::Asked(object, cell) => {
                run.frames.push(Frame::Doing(statement))?;
                Ok(Transition::Asked(object, cell))
            }
            transition => Ok(transition),
        }
    }

    // The statements of a block from one on: the next one's step begins.
    fn rest(
        &self,
        block: &'c Block,
        next: usize,
        run: &mut Running<'c>,
    ) -> Result<Transition<'c>, Memory>
        ensures { (vs : List ℤ) → IfOk result (λ transition. DoesNext (shown self.now) vs transition (Frame.Rest block.entry next) run.old run.new) }
    {
        if next < block.len() {
            let statement = block.at(next);
            match run.task.tally.begin_step(self.limit) {
                Ok(()) => {}
                Err(blame) => return Ok(Transition::Ended(Some(blame))),
            }
            run.frames.push(Frame::Rest(block, next + 1))?;
            run.frames.push(Frame::Doing(statement))?;
            Ok(Transition::Stepped)
        } else {
            Ok(Transition::Silent)
        }
    }

    // The turns of a loop: the next one's step begins, and its block with the loop's variable.
    fn turn_transition(
        &self,
        name: &'c Name,
        body: &'c Block,
        range: (i64, i64),
        run: &mut Running<'c>,
    ) -> Result<Transition<'c>, Memory>
        ensures { (vs : List ℤ) → IfOk result (λ transition. DoesNext (shown self.now) vs transition
            (Frame.Turning name.entry body.entry range) run.old run.new) }
    {
        if is_left(range) {
            match run.task.tally.begin_step(self.limit) {
                Ok(()) => {}
                Err(blame) => return Ok(Transition::Ended(Some(blame))),
            }
            run.frames
                .push(Frame::Turning(name, body, after_first(range)))?;
            run.frames.push(Frame::Leaving(run.task.scope.len()))?;
            run.frames.push(Frame::Rest(body, 0))?;
            run.task.scope.bind(name, first_of(range))?;
            Ok(Transition::Stepped)
        } else {
            Ok(Transition::Silent)
        }
    }

    // The end of the section of a `withonly`: a child, or the fault `commute` or `cover`.
    fn create_transition(
        &self,
        at: Pos,
        names: &'c NameList,
        body: &'c Block,
        run: &mut Running<'c>,
    ) -> Result<Transition<'c>, Memory>
        ensures { (vs : List ℤ) → IfOk result (λ transition. DoesNext (shown self.now) vs transition
            (Frame.Creating at names.entry body.entry) run.old run.new) }
    {
        let spec = self.end_building(&mut run.task)?;
        if !spec.may_commute() {
            return Ok(Transition::Ended(Some(blame_at(FaultKind::Commute, at))));
        }
        if !run.task.spec.covers(&spec) {
            return Ok(Transition::Ended(Some(blame_at(FaultKind::Cover, at))));
        }
        let scope = self.copied(names, &run.task)?;
        Ok(Transition::Created(Newborn { scope, spec, body }))
    }

    // The end of the section of a `with`.
    fn change_transition(&self, run: &mut Running<'c>) -> Result<Transition<'c>, Memory>
        ensures { (vs : List ℤ) → IfOk result (λ transition. DoesNext (shown self.now) vs transition Frame.Changing run.old run.new) }
    {
        self.end_amending(&mut run.task)?;
        let new = run.task.spec.copy(self.alloc)?;
        Ok(Transition::Changed(new))
    }

    // The next thing that is left to do.
    fn frame_transition(
        &self,
        frame: Frame<'c>,
        answers: &[i64],
        run: &mut Running<'c>,
    ) -> Result<Transition<'c>, Memory>
        ensures { IfOk result (λ transition. DoesNext (shown self.now) answers.now transition frame.entry run.old run.new) }
    {
        match frame {
            Frame::Rest(block, next) => self.rest(block, next, run),
            Frame::Doing(statement) => self.doing(statement, answers, run),
            Frame::Leaving(variables) => {
                run.task.scope.leave(variables);
                Ok(Transition::Silent)
            }
            Frame::Turning(name, body, range) => {
                let transition = self.turn_transition(name, body, range, run)?;
                Ok(transition)
            }
            Frame::Creating(at, names, body) => self.create_transition(at, names, body, run),
            Frame::Changing => self.change_transition(run),
        }
    }

    /// What a task does next.
    pub(crate) fn transition(
        &self,
        answers: &[i64],
        run: &mut Running<'c>,
    ) -> Result<Transition<'c>, Memory>
        ensures { IfOk result (λ transition. GoesOn (shown self.now) answers.now transition (course_of (shown self.now) answers.now run.old) run.new) }
    {
        match run.frames.pop() {
            Some(frame) => {
                let transition = self.frame_transition(frame, answers, run)?;
                Ok(transition)
            }
            None => Ok(Transition::Ended(None)),
        }
    }
}

// A block begins, whose variables end with it.
fn enter<'c>(run: &mut Running<'c>, statements: &'c Block) -> Result<(), Memory>
    ensures { OnOk result (Enters run.old statements.now run.new) }
{
    run.frames.push(Frame::Leaving(run.task.scope.len()))?;
    run.frames.push(Frame::Rest(statements, 0))?;
    Ok(())
}
