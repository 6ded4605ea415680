//! A task that goes through its statements, with what it notes.

ghost use Rattle.std.specs.Prelude.{◌≡◌, [], ◌∷◌, ◌++◌, map, OnOk, IfOk};
ghost use Rattle.jade_syntax.specs.Abstract.{For};
ghost use Rattle.jade_syntax.specs.Image.{expression, reference, object, action, block};
ghost use Rattle.jade_meaning.specs.Course.{NoDraft, Building, Amending, copied, drafted, none_of};
ghost use Rattle.jade_meaning.specs.steps.Carry.{noted, turn_noted};
ghost use Rattle.jade_meaning.specs.Specification.{fitted, commuting_on};
ghost use Rattle.jade_meaning.specs.Values.{turn_count};
ghost use Rattle.jade_meaning.specs.steps.Perform.{Goes, Follows, shown, begun, within, localized, reassigned, stored, declared_on, turned, turned_once, unless_commuting};
ghost use Rattle.jade_meaning.specs.steps.Perform.{perform, perform_all, created, changed, child_task, ended, then_on};

use crate::dense_spec::DenseSpec;
use crate::draft::Draft;
use crate::run_state::RunState;
use crate::scope::Scope;
use crate::setting::{Setting, Task, blame_at, cell_of};
use crate::stop::Stop;
use crate::tally::Tally;
use crate::values::Value;
use jade_base::{FaultKind, Memory, Path, Pos, Right};
use jade_syntax::Name;
use jade_syntax::tree::{Block, CellRef, DeclareWord, Expr, NameList, ObjectRef, Statement};
use std::mem::replace;

impl<'c> Setting<'c> {
    // Counts a step.
    fn begin(&self, task: &mut Task<'c>, state: &RunState) -> Result<(), Stop>
        ensures { Follows result (begun self.now.limit task.old state.now) task.new state.now }
    {
        match task.tally.begin_step(self.limit) {
            Ok(()) => Ok(()),
            Err(blame) => Err(Stop::Fault(blame)),
        }
    }

    // A new variable.
    fn local(
        &self,
        name: &'c Name,
        value: &Expr,
        task: &mut Task<'c>,
        state: &RunState,
    ) -> Result<(), Stop>
        ensures { Follows result (localized (shown self.now) name.now (expression value.now) task.old state.now) task.new state.now }
    {
        match self.value(task, &state.objects, value) {
            Ok(value) => match task.scope.bind(name, value) {
                Ok(()) => Ok(()),
                Err(Memory) => Err(Stop::Memory),
            },
            Err(blame) => Err(Stop::Fault(blame)),
        }
    }

    // Another value for a variable.
    fn assign(
        &self,
        name: &Name,
        value: &Expr,
        task: &mut Task<'c>,
        state: &RunState,
    ) -> Result<(), Stop>
        ensures { Follows result (reassigned (shown self.now) name.now (expression value.now) task.old state.now) task.new state.now }
    {
        match self.value(task, &state.objects, value) {
            Ok(value) => {
                task.scope.assign(name, value);
                Ok(())
            }
            Err(blame) => Err(Stop::Fault(blame)),
        }
    }

    // A write of a cell.
    fn store(
        &self,
        target: &CellRef,
        value: &Expr,
        task: &Task<'c>,
        state: &mut RunState,
    ) -> Result<(), Stop>
        ensures { Follows result (stored (shown self.now) (reference target.now).place (reference target.now).cell
            (expression value.now) task.now state.old) task.now state.new }
    {
        let found = match self.located(
            task,
            &state.objects,
            &target.name,
            target.pos,
            &target.family,
        ) {
            Ok(found) => found,
            Err(blame) => return Err(Stop::Fault(blame)),
        };
        let index = match self.value(task, &state.objects, &target.cell) {
            Ok(value) => value.whole(),
            Err(blame) => return Err(Stop::Fault(blame)),
        };
        let cell = match cell_of(found, index, target.pos) {
            Ok(cell) => cell,
            Err(blame) => return Err(Stop::Fault(blame)),
        };
        let number = match self.value(task, &state.objects, value) {
            Ok(value) => value.whole(),
            Err(blame) => return Err(Stop::Fault(blame)),
        };
        if task.spec.on(found.number).may_write() {
            state.objects.write(found.number, cell, number);
            Ok(())
        } else {
            Err(Stop::Fault(blame_at(FaultKind::Right, target.pos)))
        }
    }

    // A word of a section.
    fn declare(
        &self,
        word: DeclareWord,
        at: Pos,
        of: &ObjectRef,
        task: &mut Task<'c>,
        state: &RunState,
    ) -> Result<(), Stop>
        ensures { Follows result (declared_on (shown self.now) word at (object of.now) task.old state.now) task.new state.now }
    {
        match self.located(task, &state.objects, &of.name, of.pos, &of.member) {
            Ok(found) => match task.draft.declare(word, found.number, at) {
                Ok(()) => Ok(()),
                Err(blame) => Err(Stop::Fault(blame)),
            },
            Err(blame) => Err(Stop::Fault(blame)),
        }
    }

    // A section begins, unless the task commutes.
    fn unless_commuting(&self, at: Pos, task: &Task<'c>, state: &RunState) -> Result<(), Stop>
        ensures { Follows result (unless_commuting at task.now state.now (Goes task.now state.now)) task.now state.now }
    {
        if task.spec.is_commuting() {
            return Err(Stop::Fault(blame_at(FaultKind::Commute, at)));
        }
        Ok(())
    }

    // Begins the section of a `withonly`.
    pub(crate) fn begin_building(&self, task: &mut Task<'c>) -> Result<(), Memory>
        ensures { OnOk result (task.new ≡ record task.old { draft = Building (none_of self.now.items) }) }
    {
        match DenseSpec::none(self.alloc, self.items.objects()) {
            Ok(spec) => {
                task.draft = Draft::building(spec);
                Ok(())
            }
            Err(memory) => Err(memory),
        }
    }

    // Begins the section of a `with`.
    pub(crate) fn begin_amending(&self, task: &mut Task<'c>) -> Result<(), Memory>
        ensures { OnOk result (task.new ≡ record task.old { draft = Amending task.old.spec }) }
    {
        match task.spec.copy(self.alloc) {
            Ok(spec) => {
                task.draft = Draft::amending(spec);
                Ok(())
            }
            Err(memory) => Err(memory),
        }
    }

    // Ends the section of a `with`.
    pub(crate) fn end_amending(&self, task: &mut Task<'c>) -> Result<(), Memory>
        ensures { OnOk result (task.new ≡ changed task.old) }
    {
        let before = match task.spec.copy(self.alloc) {
            Ok(spec) => spec,
            Err(memory) => return Err(memory),
        };
        let draft = replace(&mut task.draft, Draft::absent(self.alloc));
        let mut spec = draft.into_working(before);
        match spec.fit(&task.spec) {
            Ok(()) => {
                task.spec = spec;
                Ok(())
            }
            Err(memory) => Err(memory),
        }
    }

    // The child's specification at the end of the section of a `withonly`, which ends the section.
    pub(crate) fn end_building(&self, task: &mut Task<'c>) -> Result<DenseSpec, Memory>
        ensures child { IfOk result (λ child. child ≡ fitted task.old.spec (drafted task.old.draft)) }
        ensures section { OnOk result (task.new ≡ record task.old { draft = NoDraft }) }
    {
        let draft = replace(&mut task.draft, Draft::absent(self.alloc));
        let mut spec = draft.into_drafted(self.alloc);
        match spec.fit(&task.spec) {
            Ok(()) => Ok(spec),
            Err(memory) => Err(memory),
        }
    }

    // The variables of a child: those of the `do` list with their values now, and the inputs.
    pub(crate) fn copied(&self, names: &'c NameList, task: &Task<'c>) -> Result<Scope<'c>, Memory>
        ensures { IfOk result (λ scope. scope ≡ copied (map (λ n. n.name) names.now) task.now.scope ++ self.now.given) }
    {
        let mut scope = match self.given.copy(self.alloc) {
            Ok(scope) => scope,
            Err(memory) => return Err(memory),
        };
        let mut left = names.len();
        while left > 0 {
            left -= 1;
            let name = &names.at(left).name;
            match scope.bind(name, task.scope.value_of(name)) {
                Ok(()) => {}
                Err(memory) => return Err(memory),
            }
        }
        Ok(scope)
    }

    // A statement.
    #[cycle(statement)]
    fn statement(
        &self,
        statement: &'c Statement,
        path: &Path,
        task: &mut Task<'c>,
        state: &mut RunState,
    ) -> Result<(), Stop>
        ensures { Follows result (perform (shown self.now) path.now (action statement.now) task.old state.old) task.new state.new }
    {
        match statement {
            Statement::Local { name, value, .. } => self.local(name, value, task, state),
            Statement::Assign { name, value, .. } => self.assign(name, value, task, state),
            Statement::Store { target, value } => self.store(target, value, task, state),
            Statement::If {
                test,
                then,
                otherwise,
            } => {
                if self.value(task, &state.objects, test)?.holds() {
                    return self.scoped(then, path, task, state);
                }
                match otherwise {
                    None => Ok(()),
                    Some(block) => self.scoped(block, path, task, state),
                }
            }
            Statement::For {
                name,
                low,
                high,
                body,
                ..
            } => self.repeat(name, body, low, high, path, task, state),
            Statement::Withonly {
                pos,
                section,
                names,
                body,
            } => {
                self.unless_commuting(*pos, task, state)?;
                self.build(section, path, task, state)?;
                self.create(*pos, names, body, path, task, state)
            }
            Statement::With { pos, section } => {
                self.unless_commuting(*pos, task, state)?;
                self.amend(section, path, task, state)
            }
            Statement::Declare { word, pos, object } => {
                self.declare(*word, *pos, object, task, state)
            }
        }
    }

    // A loop: its bounds, and its turns.
    #[cycle(statement)]
    fn repeat(
        &self,
        name: &'c Name,
        body: &'c Block,
        low: &Expr,
        high: &Expr,
        path: &Path,
        task: &mut Task<'c>,
        state: &mut RunState,
    ) -> Result<(), Stop>
        ensures { Follows result (perform (shown self.now) path.now (For name.now (expression low.now) (expression high.now)
            (block body.now)) task.old state.old) task.new state.new }
    {
        let low = self.value(task, &state.objects, low)?.whole();
        let high = self.value(task, &state.objects, high)?.whole();
        self.turns(name, low, high, body, path, task, state)
    }

    // The section of a `withonly`.
    #[cycle(statement)]
    fn build(
        &self,
        section: &'c Block,
        path: &Path,
        task: &mut Task<'c>,
        state: &mut RunState,
    ) -> Result<(), Stop>
        ensures { let u = record task.old { draft = Building (none_of self.now.items) } in
            Follows result (within u (perform_all (shown self.now) path.now (block section.now) u state.old)) task.new state.new }
    {
        self.begin_building(task)?;
        self.scoped(section, path, task, state)
    }

    // A `with`: its section, and the rights that it leaves.
    #[cycle(statement)]
    fn amend(
        &self,
        section: &'c Block,
        path: &Path,
        task: &mut Task<'c>,
        state: &mut RunState,
    ) -> Result<(), Stop>
        ensures { let u = record task.old { draft = Amending task.old.spec } in
            Follows result (then_on (within u (perform_all (shown self.now) path.now (block section.now) u state.old))
            (λ w m. Goes (changed w) m)) task.new state.new }
    {
        self.begin_amending(task)?;
        self.scoped(section, path, task, state)?;
        self.end_amending(task)?;
        Ok(())
    }

    // A step: it is counted, and the statement is done.
    #[cycle(statement)]
    fn step(
        &self,
        statement: &'c Statement,
        path: &Path,
        task: &mut Task<'c>,
        state: &mut RunState,
    ) -> Result<(), Stop>
        ensures { Follows result (then_on (begun self.now.limit task.old state.old)
            (perform (shown self.now) path.now (action statement.now))) task.new state.new }
    {
        match self.begin(task, state) {
            Ok(()) => self.statement(statement, path, task, state),
            Err(stop) => Err(stop),
        }
    }

    // Statements in order, each a step.
    #[cycle(statement)]
    fn block(
        &self,
        statements: &'c Block,
        path: &Path,
        task: &mut Task<'c>,
        state: &mut RunState,
    ) -> Result<(), Stop>
        ensures { Follows result (perform_all (shown self.now) path.now (block statements.now) task.old state.old) task.new state.new }
    {
        for i in 0..statements.len() {
            match self.step(statements.at(i), path, task, state) {
                Ok(()) => {}
                Err(stop) => return Err(stop),
            }
        }
        Ok(())
    }

    // A block, whose variables end with it.
    #[cycle(statement)]
    fn scoped(
        &self,
        statements: &'c Block,
        path: &Path,
        task: &mut Task<'c>,
        state: &mut RunState,
    ) -> Result<(), Stop>
        ensures { Follows result (within task.old (perform_all (shown self.now) path.now (block statements.now) task.old state.old)) task.new state.new }
    {
        let variables = task.scope.len();
        match self.block(statements, path, task, state) {
            Ok(()) => {
                task.scope.leave(variables);
                Ok(())
            }
            Err(stop) => Err(stop),
        }
    }

    // The turns of a loop, from the value `low` of its variable on.
    #[cycle(statement)]
    fn turns(
        &self,
        name: &'c Name,
        low: i64,
        high: i64,
        body: &'c Block,
        path: &Path,
        task: &mut Task<'c>,
        state: &mut RunState,
    ) -> Result<(), Stop>
        ensures { Follows result (turned self.now.limit (turn_count low high) low name.now
            (perform_all (shown self.now) path.now (block body.now)) task.old state.old) task.new state.new }
    {
        let mut index = low;
        while index < high {
            match self.turn(name, index, body, path, task, state) {
                Ok(()) => {}
                Err(stop) => return Err(stop),
            }
            index += 1;
        }
        Ok(())
    }

    // A turn of a loop: a step, and the body with the loop's variable.
    #[cycle(statement)]
    fn turn(
        &self,
        name: &'c Name,
        index: i64,
        body: &'c Block,
        path: &Path,
        task: &mut Task<'c>,
        state: &mut RunState,
    ) -> Result<(), Stop>
        ensures { Follows result (turned_once self.now.limit index name.now
            (perform_all (shown self.now) path.now (block body.now)) task.old state.old) task.new state.new }
    {
        match self.begin(task, state) {
            Ok(()) => {}
            Err(stop) => return Err(stop),
        }
        let variables = task.scope.len();
        match task.scope.bind(name, Value::IntOf(index)) {
            Ok(()) => {}
            Err(Memory) => return Err(Stop::Memory),
        }
        match self.block(body, path, task, state) {
            Ok(()) => {
                task.scope.leave(variables);
                Ok(())
            }
            Err(stop) => Err(stop),
        }
    }

    // The end of the section of a `withonly`: a child is made and run.
    #[cycle(statement)]
    fn create(
        &self,
        at: Pos,
        names: &'c NameList,
        body: &'c Block,
        path: &Path,
        task: &mut Task<'c>,
        state: &mut RunState,
    ) -> Result<(), Stop>
        ensures { Follows result (created (shown self.now) path.now at (map (λ n. n.name) names.now)
            (λ q. perform_all (shown self.now) q (block body.now)) task.old state.old) task.new state.new }
    {
        let spec = match self.end_building(task) {
            Ok(spec) => spec,
            Err(Memory) => return Err(Stop::Memory),
        };
        if !spec.may_commute() {
            return Err(Stop::Fault(blame_at(FaultKind::Commute, at)));
        }
        if !task.spec.covers(&spec) {
            return Err(Stop::Fault(blame_at(FaultKind::Cover, at)));
        }
        let scope = match self.copied(names, task) {
            Ok(scope) => scope,
            Err(Memory) => return Err(Stop::Memory),
        };
        match self.run_child(scope, spec, body, path, &task.tally, state) {
            Ok(()) => {}
            Err(Memory) => return Err(Stop::Memory),
        }
        match task.tally.begin_part() {
            Ok(()) => Ok(()),
            Err(Memory) => Err(Stop::Memory),
        }
    }

    // Notes the part that a creation ends, and runs the child to its end; one that commutes has its
    // turn at once.
    #[cycle(statement)]
    fn run_child(
        &self,
        scope: Scope<'c>,
        spec: DenseSpec,
        body: &'c Block,
        path: &Path,
        tally: &Tally,
        state: &mut RunState,
    ) -> Result<(), Memory>
        ensures { OnOk result (let q = path.now ++ tally.now.children ∷ [] in state.new
            ≡ ended q (perform_all (shown self.now) q (block body.now) (child_task scope.entry spec)
            (turn_noted (commuting_on spec) q (noted path.now tally.now.children tally.now.part None state.old)))) }
    {
        match state.note(self.alloc, path, tally.children(), tally.part(), None) {
            Ok(()) => {}
            Err(memory) => return Err(memory),
        }
        let child_path = match path.child(self.alloc, tally.children()) {
            Ok(path) => path,
            Err(memory) => return Err(memory),
        };
        match state.note_turn(self.alloc, spec.commuting_on(), &child_path) {
            Ok(()) => {}
            Err(memory) => return Err(memory),
        }
        self.run(scope, spec, body, &child_path, state)
    }

    /// Runs a task with these variables and rights to its end.
    #[cycle(statement)]
    pub(crate) fn run(
        &self,
        scope: Scope<'c>,
        spec: DenseSpec,
        body: &'c Block,
        path: &Path,
        state: &mut RunState,
    ) -> Result<(), Memory>
        ensures { OnOk result (state.new ≡ ended path.now (perform_all (shown self.now) path.now (block body.now) (child_task scope.entry spec) state.old)) }
    {
        let mut task = Task {
            scope,
            spec,
            draft: Draft::absent(self.alloc),
            tally: Tally::start(),
        };
        let blame = match self.block(body, path, &mut task, state) {
            Ok(()) => None,
            Err(Stop::Fault(blame)) => Some(blame),
            Err(Stop::Memory) => return Err(Memory),
        };
        state.note(
            self.alloc,
            path,
            task.tally.children(),
            task.tally.part(),
            blame,
        )
    }
}
