//! A task in a worker's hands.

ghost use Rattle.std.specs.Prelude.{◌≡◌, IfOk, ◌-◌, ◌^◌, ◌+◌, ◌%◌, is_some, length, true, false, None};
ghost use Rattle.jade_syntax.specs.Objects.{input_names};
ghost use Rattle.object_table.specs.Rule.{first_view};
ghost use Rattle.task_suspend.specs.Asked.{asks, is_end, is_take_in};
ghost use Rattle.task_suspend.specs.Ties.{TiedTo};
ghost use Rattle.task_suspend.specs.steps.Facts.{TiedTo-prop};

use crate::modes::Modes;
use crate::name::RunName;
use code_keeps::Compiled;
use jade_base::{Memory, Path};
use object_table::TaskPass;
use std::alloc::Global;
use std::marker::PhantomData;
use task_machine::{Ask, Machine};
use task_roll::OnPath;

/// A task that runs: the pass and the machine of one task, at the same ask. So many events of the task are
/// done; what the ask that stands stands for is done on the objects below the number `from`; and `passed`
/// says whether the gate was called for the ask that stands.
#[derive(Drop)]
pub struct Running<'c> {
    pub pass: TaskPass,
    pub machine: Machine<'c>,
    pub events: u64,
    pub from: u32,
    pub passed: bool,
}

/// A task in a worker's hands, of the run `N`. It lies in a place of its own, so that it is small to
/// move.
#[derive(Drop)]
pub struct Capsule<'c, N: RunName> {
    pub task: Box<Running<'c>>,
    pub name: PhantomData<N>,
    pub ghost tied: { TiedTo N.mark N.plan task.value } by { TiedTo-prop N.mark N.plan task.value },
}

/// A task that runs in a place of its own. The error is want of memory.
#[inline(always)]
pub(crate) fn boxed<'c>(alloc: Global, task: Running<'c>) -> Result<Box<Running<'c>>, Memory>
    ensures { IfOk result (λ b. b.value ≡ task.entry) }
{
    match Box::new(alloc, task) {
        Ok(task) => Ok(task),
        Err(_) => Err(Memory),
    }
}

impl<'c, N: RunName> OnPath for Capsule<'c, N> {
    ghost task = { λ c. c.task.value.pass.shows.seat.path };

    fn path(&self) -> &Path {
        self.task.pass.path()
    }
}

impl<'c, N: RunName> Capsule<'c, N> {
    /// The root of a run at its begin: its pass is the one that its table gave for it, it asks for
    /// nothing yet, and nothing of it is done. The error is want of memory.
    pub fn root(
        alloc: Global,
        pass: TaskPass,
        compiled: &'c Compiled,
        numbers: &'c [i64],
        limit: u32,
    ) -> Result<Capsule<'c, N>, Memory>
        requires mark { pass.mark ≡ N.mark }
        requires shows { pass.shows ≡ first_view N.plan }
        requires plan { N.plan ≡ record { program = compiled.now.program; numbers = numbers.now; limit = limit } }
        requires given { length numbers.now ≡ length (input_names compiled.now.program.items) }
        ensures pass { IfOk result (λ capsule. capsule.task.value.pass ≡ pass) }
        ensures asks { IfOk result (λ capsule. (capsule.task.value.machine.ask ≡ None) × (capsule.task.value.machine.asks ≡ 0)) }
        ensures begins { IfOk result (λ capsule. (capsule.task.value.from ≡ 0) × (capsule.task.value.events ≡ 0) × (capsule.task.value.passed ≡ false)) }
    {
        let _objects = compiled.checked().objects();
        let machine = Machine::root(alloc, compiled.decoded(), numbers, limit)?;
        let running = Running {
            pass,
            machine,
            from: 0,
            events: 0,
            passed: false,
        };
        let task = boxed(alloc, running)?;
        Ok(Capsule {
            task,
            name: PhantomData,
        })
    }

    /// The path of its task. It takes no memory.
    pub fn path(&self) -> &Path
        ensures { result.now ≡ self.now.task.value.pass.shows.seat.path }
    {
        self.task.pass.path()
    }

    /// What its task asks for; none where no ask stands. It takes no memory.
    pub fn asked(&self) -> Option<Ask>
        ensures { result ≡ self.now.task.value.machine.ask }
    {
        self.task.machine.asked()
    }

    /// Whether it asks for a content in one of these modes. It takes no memory.
    pub fn asks_in(&self, modes: Modes) -> bool
        ensures { result ≡ asks (is_take_in modes) self.now.task.value.machine.ask }
    {
        match self.task.machine.asked() {
            Some(Ask::Take(_, mode)) => modes.has(mode),
            _ => false,
        }
    }

    /// Whether it is to end, with a fault or without one. It takes no memory.
    pub fn is_ending(&self) -> bool
        ensures { result ≡ asks is_end self.now.task.value.machine.ask }
    {
        match self.task.machine.asked() {
            Some(Ask::End) => true,
            Some(Ask::Fault(_)) => true,
            _ => false,
        }
    }

    /// Whether an ask stands. It takes no memory.
    pub fn is_asking(&self) -> bool
        ensures { result ≡ is_some self.now.task.value.machine.ask }
    {
        self.task.machine.asked().is_some()
    }

    /// The number of the last ask, from 0, modulo 2^64: how many asks were made, less one. It takes no
    /// memory.
    pub fn ask_number(&self) -> u64
        ensures { result ≡ (self.now.task.value.machine.asks + (2 ^ 64 - 1)) % 2 ^ 64 }
    {
        self.task.machine.asks().wrapping_sub(1)
    }

    /// Whether the gate was called for the ask that stands. It takes no memory.
    pub fn passed(&self) -> bool
        ensures { result ≡ self.now.task.value.passed }
    {
        self.task.passed
    }

    /// Notes that the gate was called for the ask that stands. It takes no memory.
    pub fn set_passed(&mut self)
        ensures passed { self.new.task.value.passed ≡ true }
        ensures pass { self.new.task.value.pass ≡ self.old.task.value.pass }
        ensures machine { self.new.task.value.machine ≡ self.old.task.value.machine }
    {
        self.task.passed = true;
    }
}
