//! The table of a run's objects.

ghost use Rattle.std.specs.Prelude.{◌≡◌, ◌<◌, ◌∷◌, [], true, Some, None, IfOk, IfErr, OnOk, OnErr, length};
ghost use Rattle.jade_meaning.specs.Talk.{Task as TaskOf, Take, Give, Enter, Enroll, Shift, Leave, Resign};
ghost use Rattle.schedule_core.specs.declared.steps.Seat.{Seat as SeatOf};
ghost use Rattle.jade_syntax.specs.Objects.{sizes};
ghost use Rattle.object_table.specs.Views.{count_of, word_of};
ghost use Rattle.object_table.specs.Rule.{first_view};
ghost use Rattle.object_table.specs.Touches.{held_at, put_held};
ghost use Rattle.object_table.specs.Plays.{without_kid, kid_view, joined};
ghost use Rattle.object_table.specs.Calls.{Next, TakenAs, TriedAs, EnrolledAs, HandedInAs, AsBefore, Did, Ended, IsBusy, IsGone, Retired};
ghost use Rattle.object_table.specs.steps.Kept.{FirstSlots, start_slots};

use crate::answers::{Taken, Tried};
use crate::finish::finish_with;
use crate::pass::TaskPass;
use crate::ran::Ran;
use crate::room::PassRoom;
use crate::slot::Slot;
use crate::tally::{STOCK, Tally};
use crate::task::Task;
use crate::turns::{
    enroll_at, enter_at, give_at, hand_in_at, leave_at, resign_at, retire_at, shift_at, split_off,
    take_at, take_in,
};
use crate::view::{Bearing, Joining, Sharing, View};
use atomic_table::Table;
use jade_base::{Blame, Content, Memory, Mode, ObjectId, Path, Right, Rights};
use jade_meaning::Plan;
use object_shelf::Shelf;
use part_notes::{Notes, SpareNote};
use std::alloc::Global;
use std::marker::Model;

/// The objects of one run. Threads share it, and each task has a pass. There is one word and one
/// slot for each object, with its shelf, and one for the roll. No call waits: each makes one try at
/// one word at most. Creations and ends are done at no word: a pass has the notes of the parts that
/// its task has ended, and tickets for those that may still come, of which a child gets a share. What
/// resigned passes have is handed in at the roll's word; when no ticket and no note is out, all is
/// over.
#[derive(Drop)]
pub struct ObjectTable<'c> {
    table: Table<Slot, View, Plan<'c>, Sharing, Global>,
}

impl<'c> Model for ObjectTable<'c> {
    ghost use Rattle.object_table.specs.Calls.{Desk};
    ghost use Rattle.object_table.specs.Encodings.{coded_desk};
    ghost use Rattle.object_table.specs.steps.Kept.{Laid};

    ghost Value = { Desk };

    ghost coded = { coded_desk };

    ghost view = { λ t. record { mark = t.table.shared.table_id; plan = t.table.shared.key } };

    ghost invariant = { λ t. Laid t.table.shared.table_id t.table.shared.key };
}

// The root's rights.
const BOTH: Rights = Rights {
    reads: Right::Immediate,
    writes: Right::Immediate,
    commutes: Right::Absent,
};

// The slots at the start: each object with the root's entry alone, and the roll with the root.
fn first_slots(alloc: Global, root: &Path, plan: &Plan) -> Result<Vec<Slot>, Memory>
    requires { root.now ≡ 0 ∷ [] }
    ensures { IfOk result (λ slots. FirstSlots (sizes plan.now.program.items) slots.items) }
{
    let mut slots = first_objects(alloc, root, plan)?;
    let tally = Tally::start(alloc);
    slots.push(Slot::Roll(tally))?;
    Ok(slots)
}

// The slots of the objects at the start.
fn first_objects(alloc: Global, root: &Path, plan: &Plan) -> Result<Vec<Slot>, Memory>
    requires { root.now ≡ 0 ∷ [] }
    ensures { IfOk result (λ slots. slots.items ≡ start_slots (sizes plan.now.program.items)) }
{
    let mut slots = Vec::new(alloc);
    for object in 0..plan.objects() {
        let size = plan.size(ObjectId(object));
        let shelf = Shelf::start(alloc, root, BOTH, size as usize)?;
        slots.push(Slot::Object(shelf))?;
    }
    Ok(slots)
}

// How many words there are for so many places. The error stands for more than there can be.
fn words_for(places: usize) -> Result<usize, Memory>
    ensures { IfOk result (λ n. n ≡ word_of places) }
{
    match places.checked_mul(16) {
        Some(words) => match words.checked_add(16) {
            Some(words) => Ok(words),
            None => Err(Memory),
        },
        None => Err(Memory),
    }
}

impl<'c> ObjectTable<'c> {
    /// The objects of the plan's program, with zeros, and the pass of its root, with no event done.
    /// The error is want of memory.
    pub fn start(alloc: Global, plan: &Plan<'c>) -> Result<(ObjectTable<'c>, TaskPass), Memory>
        ensures table { IfOk result (λ r. r.0.plan ≡ plan.now) }
        ensures pass { IfOk result (λ r. (r.1.mark ≡ r.0.mark) × (r.1.shows ≡ first_view plan.now)) }
    {
        let path = Path::root(alloc)?;
        let spare = SpareNote::of(alloc, &path)?;
        let slots = first_slots(alloc, &path, plan)?;
        let words = Vec::from_elem(alloc, 0, words_for(slots.len())?)?;
        match Table::new(alloc, words.as_slice(), slots, plan) {
            Ok((table, seat)) => {
                let task = Task {
                    seat,
                    path,
                    spare: Some(spare),
                    tickets: STOCK,
                    notes: Notes::none(alloc),
                    children: 0,
                    events: 0,
                    touched: 0,
                    over: false,
                };
                Ok((ObjectTable { table }, TaskPass { task }))
            }
            Err(_) => Err(Memory),
        }
    }

    /// One try to take an object in a mode, which is the pass's next event. Got hands the content
    /// out, of which no cell is copied where it can be shared: it is one event of a core that events
    /// have reached, in which the pass's task stands as the pass shows, so what the laws of cores say
    /// of what is handed out holds of it. NotYet names the task whose entry, as it was read in this
    /// turn and as such a core shows it, is the first before the pass's own that conflicts, or else of
    /// the task that has the content out for which this one waits to commute. The error is want of
    /// memory. All but Got leave the pass and the objects as before.
    pub fn take(
        &self,
        alloc: Global,
        pass: &mut TaskPass,
        object: ObjectId,
        mode: Mode,
    ) -> Result<Taken, Memory>
        requires mark { pass.old.mark ≡ self.now.mark }
        requires declared { object.0 < count_of self.now.plan }
        requires next { Next (Take object.0 mode) pass.old.shows }
        ensures mark { pass.new.mark ≡ pass.old.mark }
        ensures answer { TakenAs object.0 mode pass.old.shows result pass.new.shows }
    {
        take_at(
            &self.table.shared,
            alloc,
            &mut pass.task,
            object.0 as usize,
            mode,
        )
    }

    /// One try to give an object's content back, which is the pass's next event; the content is the
    /// one that the pass holds. The error is Busy: it hands the content back, with the word read. It
    /// takes no memory.
    pub fn give(
        &self,
        pass: &mut TaskPass,
        object: ObjectId,
        content: Content,
    ) -> Result<(), (Content, u64)>
        requires mark { pass.old.mark ≡ self.now.mark }
        requires declared { object.0 < count_of self.now.plan }
        requires next { Next (Give object.0) pass.old.shows }
        requires held { held_at object.0 pass.old.shows.held ≡ Some content }
        ensures mark { pass.new.mark ≡ pass.old.mark }
        ensures done { OnOk result (Did object.0 (put_held object.0 None pass.old.shows.held) pass.old.shows pass.new.shows) }
        ensures busy { IfErr result (λ r. (r.0 ≡ content) × IsBusy r.1 object.0 pass.old.shows pass.new.shows) }
    {
        give_at(
            &self.table.shared,
            &mut pass.task,
            object.0 as usize,
            content,
        )
    }

    /// One try to put the next child's entry on an object before the task's own, which is the pass's
    /// next event. The error is want of memory, and leaves the pass and the objects as before.
    pub fn enter(
        &self,
        alloc: Global,
        pass: &mut TaskPass,
        object: ObjectId,
        rights: Rights,
    ) -> Result<Tried, Memory>
        requires mark { pass.old.mark ≡ self.now.mark }
        requires declared { object.0 < count_of self.now.plan }
        requires next { Next (Enter object.0 rights) pass.old.shows }
        ensures mark { pass.new.mark ≡ pass.old.mark }
        ensures answer { IfOk result (λ r. TriedAs object.0 pass.old.shows r pass.new.shows) }
        ensures unchanged { OnErr result (AsBefore pass.old.shows pass.new.shows) }
    {
        enter_at(
            &self.table.shared,
            alloc,
            &mut pass.task,
            object.0 as usize,
            rights,
        )
    }

    /// One try to give the task's entry on an object other rights, which is the pass's next event.
    /// It takes no memory.
    pub fn shift(&self, pass: &mut TaskPass, object: ObjectId, rights: Rights) -> Tried
        requires mark { pass.old.mark ≡ self.now.mark }
        requires declared { object.0 < count_of self.now.plan }
        requires next { Next (Shift object.0 rights) pass.old.shows }
        ensures mark { pass.new.mark ≡ pass.old.mark }
        ensures answer { TriedAs object.0 pass.old.shows result pass.new.shows }
    {
        shift_at(
            &self.table.shared,
            &mut pass.task,
            object.0 as usize,
            rights,
        )
    }

    /// One try to take the task's entry off an object, which is the pass's next event. It takes no
    /// memory.
    pub fn leave(&self, pass: &mut TaskPass, object: ObjectId) -> Tried
        requires mark { pass.old.mark ≡ self.now.mark }
        requires declared { object.0 < count_of self.now.plan }
        requires next { Next (Leave object.0) pass.old.shows }
        ensures mark { pass.new.mark ≡ pass.old.mark }
        ensures answer { TriedAs object.0 pass.old.shows result pass.new.shows }
    {
        leave_at(&self.table.shared, &mut pass.task, object.0 as usize)
    }

    // The place of the roll, behind those of the objects.
    fn roll_place(&self) -> usize
        ensures { result ≡ count_of self.now.plan }
    {
        self.table.slot_count() - 1
    }

    /// The creation of the next child, which is the pass's next event, and one of such a core; the part
    /// that ends with it has so many steps, and the pass has a note of it, on which it spends a ticket.
    /// The child then has its seat, and `split` makes its pass. No word is tried for it, but where the
    /// pass has fewer than three tickets: then it is one try to get some, at the roll's. The error is
    /// want of memory, and leaves the pass and the objects as before.
    pub fn enroll(&self, alloc: Global, pass: &mut TaskPass, steps: u64) -> Result<Tried, Memory>
        requires mark { pass.old.mark ≡ self.now.mark }
        requires next { (t : TaskOf) × Next (Enroll t steps) pass.old.shows }
        ensures mark { pass.new.mark ≡ pass.old.mark }
        ensures answer { IfOk result (λ r. EnrolledAs (count_of self.now.plan) steps pass.old.shows r pass.new.shows) }
        ensures unchanged { OnErr result (AsBefore pass.old.shows pass.new.shows) }
    {
        let place = self.roll_place();
        enroll_at(&self.table.shared, alloc, &mut pass.task, place, steps)
    }

    /// The pass of the child that was enrolled last, with no event done. It is no event. It takes less
    /// memory where there is room. The error is want of memory, and changes nothing but the room.
    pub fn split(
        &self,
        alloc: Global,
        pass: &mut TaskPass,
        room: &mut PassRoom,
    ) -> Result<TaskPass, Memory>
        requires mark { pass.old.mark ≡ self.now.mark }
        requires live { pass.old.shows.live ≡ true }
        requires kid { (kid : SeatOf) × (pass.old.shows.unborn ≡ Some kid) }
        ensures mark { pass.new.mark ≡ pass.old.mark }
        ensures parent { OnOk result (pass.new.shows ≡ without_kid pass.old.shows) }
        ensures child { IfOk result (λ child. (child.mark ≡ pass.old.mark) × (child.shows ≡ kid_view pass.old.shows.unborn pass.old.shows)) }
        ensures unchanged { OnErr result (pass.new.shows ≡ pass.old.shows) }
    {
        let task = split_off(&self.table.shared, alloc, &mut pass.task, room)?;
        Ok(TaskPass { task })
    }

    /// The task's end, which is the pass's last event, and one of such a core; its last part has so many
    /// steps, and it ended with this fault, if with one. The pass has a note of it. No word is tried for
    /// it, and it does not fail for want of memory.
    pub fn resign(&self, pass: &mut TaskPass, blame: Option<Blame>, steps: u64)
        requires mark { pass.old.mark ≡ self.now.mark }
        requires next { Next (Resign blame steps) pass.old.shows }
        ensures mark { pass.new.mark ≡ pass.old.mark }
        ensures done { Ended blame steps pass.old.shows pass.new.shows }
    {
        resign_at(&self.table.shared, &mut pass.task, blame, steps);
    }

    /// The task's end, as `resign` does it, with which its pass is taken into a resigned one, as `end` does
    /// it. The note of its last part goes there at once, and what was brought along for it is room for
    /// another. No word is tried for it, and it does not fail for want of memory.
    pub fn retire(
        &self,
        keeper: &mut TaskPass,
        pass: TaskPass,
        blame: Option<Blame>,
        steps: u64,
        room: &mut PassRoom,
    )
        requires mark { (keeper.old.mark ≡ self.now.mark) × (pass.mark ≡ self.now.mark) }
        requires gone { IsGone keeper.old.shows }
        requires next { Next (Resign blame steps) pass.shows }
        ensures mark { keeper.new.mark ≡ keeper.old.mark }
        ensures done { Retired blame steps pass.shows keeper.old.shows keeper.new.shows }
    {
        let TaskPass { task } = pass;
        retire_at(
            &self.table.shared,
            &mut keeper.task,
            task,
            blame,
            steps,
            room,
        );
    }

    /// Takes one resigned pass into another, with its tickets and notes; what either knew of the end is
    /// kept. No word is tried for it, and it does not fail for want of memory.
    pub fn end(&self, keeper: &mut TaskPass, ended: TaskPass)
        requires mark { (keeper.old.mark ≡ self.now.mark) × (ended.mark ≡ self.now.mark) }
        requires gone { IsGone keeper.old.shows × IsGone ended.shows }
        ensures mark { keeper.new.mark ≡ keeper.old.mark }
        ensures shows { keeper.new.shows ≡ joined keeper.old.shows ended.shows }
    {
        let TaskPass { task } = ended;
        take_in(&self.table.shared, &mut keeper.task, task);
    }

    /// One try to hand in all tickets and notes of a resigned pass, at the roll's word; it is no event.
    /// Where nothing may come any more after it, no task is live, all notes were handed in, and the pass
    /// knows from then on that all is over. Where the pass has nothing to hand in, no word is tried. It
    /// does not fail for want of memory.
    pub fn hand_in(&self, pass: &mut TaskPass) -> Tried
        requires mark { pass.old.mark ≡ self.now.mark }
        requires gone { IsGone pass.old.shows }
        ensures mark { pass.new.mark ≡ pass.old.mark }
        ensures gone { IsGone pass.new.shows }
        ensures answer { HandedInAs (count_of self.now.plan) pass.old.shows result pass.new.shows }
    {
        let place = self.roll_place();
        hand_in_at(&self.table.shared, &mut pass.task, place)
    }

    /// What the run did, once a pass knows that all is over; the plan is the one that the table is of.
    /// Nobody shares the table any more, and it ends with this. The error is want of memory.
    pub fn finish(self, alloc: Global, plan: Plan<'c>, pass: TaskPass) -> Result<Ran<'c>, Memory>
        requires plan { plan ≡ self.plan }
        requires mark { pass.mark ≡ self.mark }
        requires over { pass.shows.over ≡ true }
        ensures { IfOk result (λ ran. ran.plan ≡ self.entry.plan) }
    {
        let ObjectTable { table } = self;
        let TaskPass { task } = pass;
        finish_with(alloc, table, plan, task)
    }
}

fn is_shared<T: Sync>(_thing: &T) {}

fn is_sent<T: Send>(_thing: &T) {}

/// Threads may share a table, and a pass may go to another thread.
pub fn crosses(table: &ObjectTable, pass: &TaskPass) {
    is_shared(table);
    is_sent(pass);
}
