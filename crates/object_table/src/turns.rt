//! Turns at the words, and what is done in them.

ghost use Rattle.std.specs.Prelude.{◌≡◌, ◌<◌, ◌%◌, ◌+◌, ◌^◌, ◌∷◌, ◌++◌, ◌||◌, ◌≤◌, [], ℕ, true, false, None, Some, IfOk, IfErr, IsSome, OnOk, OnErr, MatchOption, length};
ghost use mathlib.Core.Option.{none};
ghost use Rattle.atomic_table.specs.Table.{Me, Step, step};
ghost use Rattle.jade_meaning.specs.Talk.{Task as TaskOf, Take, Give, Enter, Enroll, Shift, Leave, Resign};
ghost use Rattle.object_shelf.specs.Views.{ShelfView};
ghost use Rattle.object_shelf.specs.Shelves.{keeper_in, at, without, entered_in, with_rights};
ghost use Rattle.object_shelf.specs.Homes.{hand_in, handed, returned, on_queue};
ghost use Rattle.object_table.specs.Tallies.{TallyView, most, restocked, received};
ghost use Rattle.object_table.specs.Views.{word_of, worth};
ghost use Rattle.object_table.specs.Plays.{tried_at, is_all_in, without_kid, joined};
ghost use Rattle.object_table.specs.Touches.{held_at, put_held};
ghost use Rattle.object_table.specs.Calls.{Next, TakenAs, TriedAs, EnrolledAs, RestockedAs, Restocked, SpentOne, HandedInAs, HandedIn, AsBefore, Did, Bore, Ended, IsBusy, IsGone, Retired};
ghost use Rattle.schedule_core.specs.declared.steps.Seat.{Seat as SeatOf};
ghost use Rattle.object_table.specs.steps.Kept.{Rests, Fits, FitsRoll, Laid, GotTurn, Leaves, Laws};
ghost use Rattle.object_table.specs.steps.Kept.{shown, IsObject, IsRoll, IsKidOf, HandedAs, EnteredAs};
ghost use Rattle.object_table.specs.steps.Leaving.{Begun, BegunRoll, Stocked, Ending, EndsWith, Desisted};
ghost use Rattle.object_table.specs.declared.slot.Slot.{Slot as SlotOf};
ghost use Rattle.object_table.specs.declared.task.Task.{Task as TaskState};
ghost use Rattle.jade_meaning.specs.Plan.{RunPlan};

use crate::answers::{Taken, Tried};
use crate::room::PassRoom;
use crate::slot::Slot;
use crate::tally::STOCK;
use crate::task::Task;
use crate::view::{
    Bearing, Desist, Enrolling, Finish, Joining, Looking, Relieving, Resigning, Restocking,
    Sharing, Try, View,
};
use atomic_table::{Play, Seat, Shared};
use jade_base::{Blame, Content, Memory, Mode, Path, Rights};
use jade_meaning::Plan;
use object_shelf::{Handout, Shelf};
use part_notes::{Notes, SpareNote};
use std::alloc::Global;

/// The words and slots of a table.
pub(crate) type Words<'c> = Shared<Slot, View, Plan<'c>, Sharing>;

/// What is true of every core.
pub(crate) fn core_laws()
    ensures { (key : RunPlan) → Laws key }
{
    schedule_core::laws::core_tells();
    schedule_core::laws::entries_are_there();
    schedule_core::laws::holders_are_live();
    schedule_core::laws::notes_are_serial();
    jade_meaning::laws::report_ascends();
}

// One try at a turn, by a pass whose task is live or which has something to hand in. The word of a place lies 16 words behind that of the one before, so that no two
// share a cache line of 64 bytes, nor a pair of such lines, which processors fetch together. The
// first word of the table is that of no place, and nothing writes it: creations, ends, and each split
// and join of passes read it.
pub(crate) fn take_turn(words: &Words, seat: &mut Seat<Slot, View>, place: usize) -> Result<(), u64>
    requires laid { Laid words.now.table_id words.now.key }
    requires table { (seat.old.table_id ≡ words.now.table_id) × (place < words.now.table_id.slots) }
    requires rests { (seat.old.me.1 ≡ []) × (seat.old.me.0.turn ≡ false) }
    requires ready { seat.old.me.0.live ≡ false → 0 < worth seat.old.me.0 }
    ensures mark { seat.new.table_id ≡ seat.old.table_id }
    ensures got { IfOk result (λ _. (y : SlotOf) × GotTurn words.now.table_id.slots place y seat.old.me seat.new.me) }
    ensures busy { IfErr result (λ n. (n ≡ 1) × (seat.new.me ≡ (tried_at place 1 seat.old.me.0, []))) }
{
    let found = words.compare_exchange::<Try>(seat, place * 16 + 16, 0, 1);
    if found != 0 {
        return Err(found);
    }
    Ok(())
}

// Leaves the turn, with what lies in the slot now.
pub(crate) fn leave_turn<P: Play<Slot, View>>(
    words: &Words,
    seat: &mut Seat<Slot, View>,
    place: usize,
)
    requires laid { Laid words.now.table_id words.now.key }
    requires table { (seat.old.table_id ≡ words.now.table_id) × (place < words.now.table_id.slots) }
    requires allowed { Leaves P.then words.now.key words.now.table_id.slots seat.old.id seat.old.me place }
    ensures mark { seat.new.table_id ≡ seat.old.table_id }
    ensures done { P.then (step words.now.table_id.slots (word_of place) 0 0 none) seat.old.me 0 seat.new.me }
{
    words.store::<P>(seat, place * 16 + 16, 0);
}

// An event is done, with the touches before it.
fn settle(task: &mut Task)
    ensures seat { task.new.seat ≡ task.old.seat }
    ensures path { (task.new.path ≡ task.old.path) × (task.new.children ≡ task.old.children) × (task.new.over ≡ task.old.over) }
    ensures spare { task.new.spare ≡ task.old.spare }
    ensures purse { (task.new.tickets ≡ task.old.tickets) × (task.new.notes ≡ task.old.notes) }
    ensures events { (task.new.touched ≡ 0) × (task.new.events ≡ (task.old.events + 1) % 2 ^ 64) }
{
    task.events = task.events.wrapping_add(1);
    task.touched = 0;
}

// One try at a turn, with which what lies in the slot is the task's; without it the try is over.
fn begin(words: &Words, task: &mut Task, place: usize) -> Result<(), u64>
    requires laid { Laid words.now.table_id words.now.key }
    requires table { (task.old.seat.table_id ≡ words.now.table_id) × (place < words.now.table_id.slots) }
    requires rests { Rests task.old }
    requires live { (shown task.old).live ≡ true }
    ensures mark { task.new.seat.table_id ≡ task.old.seat.table_id }
    ensures got { IfOk result (λ _. (y : SlotOf) × Begun words.now.table_id.slots place y y task.old task.new) }
    ensures over { IfErr result (λ _. Rests task.new) }
    ensures busy { IfErr result (λ n. IsBusy n place (shown task.old) (shown task.new)) }
{
    take_turn(words, &mut task.seat, place)
}

// The turn at an object is left with the task's next event done, which made what lies in the slot.
fn complete(words: &Words, task: &mut Task, object: usize)
    requires laid { Laid words.now.table_id words.now.key }
    requires table { (task.old.seat.table_id ≡ words.now.table_id) × (object < words.now.table_id.slots) }
    requires ending { Ending words.now.key words.now.table_id.slots object task.old }
    ensures mark { task.new.seat.table_id ≡ task.old.seat.table_id }
    ensures rests { Rests task.new }
    ensures done { (d : Ending words.now.key words.now.table_id.slots object task.old)
        → EndsWith object d.event d.value (shown d.before) (shown task.new) }
{
    core_laws();
    leave_turn::<Finish>(words, &mut task.seat, object);
    settle(task);
}

// The turn is left with nothing done; what was found lies in the slot.
fn desist(words: &Words, task: &mut Task, place: usize)
    requires laid { Laid words.now.table_id words.now.key }
    requires table { (task.old.seat.table_id ≡ words.now.table_id) × (place < words.now.table_id.slots) }
    requires begun { (before : TaskState) × (y : SlotOf) × Begun words.now.table_id.slots place y y before task.old }
    ensures mark { task.new.seat.table_id ≡ task.old.seat.table_id }
    ensures rests { Rests task.new }
    ensures after { (before : TaskState) (y : SlotOf) → Begun words.now.table_id.slots place y y before task.old → Desisted place y before task.new }
{
    core_laws();
    leave_turn::<Desist>(words, &mut task.seat, place);
}

// One try at a turn at the roll's place, by a pass whose task is live or which has something to hand
// in.
fn begin_roll(words: &Words, task: &mut Task, place: usize) -> Result<(), u64>
    requires fits { FitsRoll words.now.table_id words.now.key task.old place }
    requires rests { Rests task.old }
    requires ready { (shown task.old).live ≡ false → 0 < worth (shown task.old) }
    ensures mark { task.new.seat.table_id ≡ task.old.seat.table_id }
    ensures got { IfOk result (λ _. (r : TallyView) × BegunRoll place r (SlotOf.Roll r) task.old task.new) }
    ensures over { IfErr result (λ _. Rests task.new) }
    ensures busy { IfErr result (λ n. IsBusy n place (shown task.old) (shown task.new)) }
{
    take_turn(words, &mut task.seat, place)
}

// The turn at the roll is left with nothing done; what was found lies in the slot.
fn desist_roll(words: &Words, task: &mut Task, place: usize)
    requires laid { Laid words.now.table_id words.now.key }
    requires table { (task.old.seat.table_id ≡ words.now.table_id) × (place < words.now.table_id.slots) }
    requires begun { (before : TaskState) × (r : TallyView) × BegunRoll place r (SlotOf.Roll r) before task.old }
    ensures mark { task.new.seat.table_id ≡ task.old.seat.table_id }
    ensures rests { Rests task.new }
    ensures after { (before : TaskState) (r : TallyView) → BegunRoll place r (SlotOf.Roll r) before task.old → AsBefore (shown before) (shown task.new) }
{
    leave_turn::<Desist>(words, &mut task.seat, place);
}

// More tickets for a live task, by a turn at the roll. The error stands for more notes than there is
// room for; it leaves the pass and the objects as before.
fn restock(words: &Words, task: &mut Task, place: usize) -> Result<Tried, Memory>
    requires fits { FitsRoll words.now.table_id words.now.key task.old place }
    requires rests { Rests task.old }
    requires live { (shown task.old).live ≡ true }
    ensures mark { task.new.seat.table_id ≡ task.old.seat.table_id }
    ensures rests { Rests task.new }
    ensures answer { IfOk result (λ r. RestockedAs place (shown task.old) r (shown task.new)) }
    ensures unchanged { OnErr result (AsBefore (shown task.old) (shown task.new)) }
{
    match begin_roll(words, task, place) {
        Ok(()) => {}
        Err(word) => return Ok(Tried::Busy(word)),
    }
    let slot = task.seat.slot_mut(&*words, place);
    if !restock_in(slot) {
        desist_roll(words, task, place);
        return Err(Memory);
    }
    supply(words, task, place);
    Ok(Tried::Done)
}

// The turn at the roll is left with more tickets, which the slot counts already.
fn supply(words: &Words, task: &mut Task, place: usize)
    requires fits { FitsRoll words.now.table_id words.now.key task.old place }
    requires stocked { Stocked place task.old }
    ensures mark { task.new.seat.table_id ≡ task.old.seat.table_id }
    ensures rests { Rests task.new }
    ensures done { (s : Stocked place task.old) → Restocked place (shown s.before) (shown task.new) }
{
    leave_turn::<Restocking>(words, &mut task.seat, place);
    task.tickets += STOCK;
}

// A task's creation is done: its part that ends leaves a note, for which there is this room, and the
// task has made so many children.
fn bear(words: &Words, task: &mut Task, spare: SpareNote, children: u32, steps: u64)
    requires laid { Laid words.now.table_id words.now.key }
    requires mark { task.old.seat.table_id ≡ words.now.table_id }
    requires rests { Rests task.old }
    requires next { (t : TaskOf) × Next (Enroll t steps) (shown task.old) }
    requires rich { 2 < task.old.tickets }
    requires spare { spare ≡ task.old.path }
    requires count { children ≡ task.old.children + 1 }
    ensures mark { task.new.seat.table_id ≡ task.old.seat.table_id }
    ensures rests { Rests task.new }
    ensures done { Bore steps (shown task.old) (shown task.new) }
    ensures spent { SpentOne (shown task.old) (shown task.new) }
{
    core_laws();
    words.load::<Enrolling>(&mut task.seat, 0);
    settle(task);
    task.tickets -= 1;
    task.notes.push(spare, task.children, None, steps);
    task.children = children;
}

// The same, where the pass has tickets enough already; the memory for the note is taken now. The error
// is want of it, and changes nothing.
fn bear_at_once(
    words: &Words,
    alloc: Global,
    task: &mut Task,
    children: u32,
    steps: u64,
) -> Result<(), Memory>
    requires laid { Laid words.now.table_id words.now.key }
    requires mark { task.old.seat.table_id ≡ words.now.table_id }
    requires rests { Rests task.old }
    requires next { (t : TaskOf) × Next (Enroll t steps) (shown task.old) }
    requires rich { 2 < task.old.tickets }
    requires count { children ≡ task.old.children + 1 }
    ensures mark { task.new.seat.table_id ≡ task.old.seat.table_id }
    ensures rests { Rests task.new }
    ensures done { OnOk result (Bore steps (shown task.old) (shown task.new)) }
    ensures spent { OnOk result (SpentOne (shown task.old) (shown task.new)) }
    ensures unchanged { OnErr result (shown task.new ≡ shown task.old) }
{
    core_laws();
    task.notes.add(alloc, &task.path, task.children, steps)?;
    words.load::<Enrolling>(&mut task.seat, 0);
    settle(task);
    task.tickets -= 1;
    task.children = children;
    Ok(())
}

// The room that is kept for the last note.
fn taken_out(spare: &mut Option<SpareNote>) -> SpareNote
    requires { IsSome spare.old }
    ensures { spare.old ≡ Some result }
{
    match spare.take() {
        Some(note) => note,
        None => unreachable!(),
    }
}

// All that the pass has is handed in, in its turn at the roll.
fn relieve(words: &Words, task: &mut Task, place: usize)
    requires fits { FitsRoll words.now.table_id words.now.key task.old place }
    requires begun { (before : TaskState) × (r : TallyView) × BegunRoll place r (SlotOf.Roll r) before task.old × IsGone (shown before) }
    ensures mark { task.new.seat.table_id ≡ task.old.seat.table_id }
    ensures rests { Rests task.new }
    ensures done { (before : TaskState) (r : TallyView) → BegunRoll place r (SlotOf.Roll r) before task.old → IsGone (shown before)
        → HandedIn place (shown before) (shown task.new) }
{
    core_laws();
    let worth = task.tickets + task.notes.len() as u64;
    let slot = task.seat.slot_mut(&*words, place);
    let last = receive_in(slot, worth, &mut task.notes);
    leave_turn::<Relieving>(words, &mut task.seat, place);
    task.tickets = 0;
    task.over = either(task.over, last);
}

// What a shelf hands out, or the path that keeps the task from it.
enum Handed {
    Content(Content),
    Kept(Path),
}

// Hands the content out, where no entry keeps the task from it. Where none does and the content is
// not there all the same, as at no table that passes share, it answers as where memory is wanting.
fn hand_out(shelf: &mut Shelf, alloc: Global, path: &Path, mode: Mode) -> Result<Handed, Memory>
    ensures { HandedAs shelf.old path.now mode result (SlotOf.Object shelf.new) }
{
    match shelf.hand_out(alloc, path, mode)? {
        Handout::Content(content) => Ok(Handed::Content(content)),
        Handout::Kept(path) => Ok(Handed::Kept(path)),
        Handout::Nothing => Err(Memory),
    }
}

// The same of the object in a slot.
fn hand_out_of(slot: &mut Slot, alloc: Global, path: &Path, mode: Mode) -> Result<Handed, Memory>
    requires { IsObject slot.old }
    ensures { (z : ShelfView) → slot.old ≡ SlotOf.Object z → HandedAs z path.now mode result slot.new }
{
    match slot {
        Slot::Object(shelf) => hand_out(shelf, alloc, path, mode),
        Slot::Away => unreachable!(),
        Slot::Roll(_) => unreachable!(),
    }
}

// Gives a content back to the object in a slot.
fn give_to(slot: &mut Slot, path: &Path, content: Content)
    requires { IsObject slot.old }
    ensures { (z : ShelfView) → slot.old ≡ SlotOf.Object z → slot.new ≡ SlotOf.Object (returned path.now content z) }
{
    match slot {
        Slot::Object(shelf) => shelf.give(path, content),
        Slot::Away => unreachable!(),
        Slot::Roll(_) => unreachable!(),
    }
}

// Gives the path's entry on the object in a slot other rights.
fn shift_in(slot: &mut Slot, path: &Path, rights: Rights)
    requires { IsObject slot.old }
    ensures { (z : ShelfView) → slot.old ≡ SlotOf.Object z → slot.new ≡ SlotOf.Object (on_queue (at path.now (with_rights rights)) z) }
{
    match slot {
        Slot::Object(shelf) => shelf.shift(path, rights),
        Slot::Away => unreachable!(),
        Slot::Roll(_) => unreachable!(),
    }
}

// Takes the path's entry off the object in a slot.
fn leave_in(slot: &mut Slot, path: &Path)
    requires { IsObject slot.old }
    ensures { (z : ShelfView) → slot.old ≡ SlotOf.Object z → slot.new ≡ SlotOf.Object (on_queue (without path.now) z) }
{
    match slot {
        Slot::Object(shelf) => shelf.leave(path),
        Slot::Away => unreachable!(),
        Slot::Roll(_) => unreachable!(),
    }
}

// Enters a child, or changes nothing. Where the parent has no entry, as at no table that passes share,
// it answers as where memory is wanting.
fn enter_in(shelf: &mut Shelf, parent: &Path, child: Path, rights: Rights) -> Result<(), Memory>
    ensures { EnteredAs shelf.old parent.now child rights result (SlotOf.Object shelf.new) }
{
    let before = shelf.len();
    shelf.enter(parent, child, rights)?;
    if shelf.len() == before {
        return Err(Memory);
    }
    Ok(())
}

// The same of the object in a slot.
fn enter_to(slot: &mut Slot, parent: &Path, child: Path, rights: Rights) -> Result<(), Memory>
    requires { IsObject slot.old }
    ensures { (z : ShelfView) → slot.old ≡ SlotOf.Object z → EnteredAs z parent.now child rights result slot.new }
{
    match slot {
        Slot::Object(shelf) => enter_in(shelf, parent, child, rights),
        Slot::Away => unreachable!(),
        Slot::Roll(_) => unreachable!(),
    }
}

// More tickets are out, if there is room for their notes.
fn restock_in(slot: &mut Slot) -> bool
    requires { IsRoll slot.old }
    ensures done { (r : TallyView) → slot.old ≡ SlotOf.Roll r → result ≡ true
        → (slot.new ≡ SlotOf.Roll (restocked r)) × ((restocked r).due + length r.notes ≤ most) }
    ensures unchanged { result ≡ false → slot.new ≡ slot.old }
{
    match slot {
        Slot::Roll(tally) => tally.restock(),
        Slot::Away => unreachable!(),
        Slot::Object(_) => unreachable!(),
    }
}

// So many tickets and notes come in, with these notes among them; whether nothing may still come.
fn receive_in(slot: &mut Slot, worth: u64, notes: &mut Notes) -> bool
    requires { (r : TallyView) × (slot.old ≡ SlotOf.Roll r) × (worth ≤ r.due) × (r.due + length r.notes ≤ most) × (length notes.old ≤ worth) }
    ensures done { (r : TallyView) → slot.old ≡ SlotOf.Roll r → slot.new ≡ SlotOf.Roll (received worth notes.old r) }
    ensures notes { notes.new ≡ [] }
    ensures last { result ≡ is_all_in slot.new }
{
    match slot {
        Slot::Roll(tally) => tally.receive(worth, notes),
        Slot::Away => unreachable!(),
        Slot::Object(_) => unreachable!(),
    }
}

/// One try at a take.
pub(crate) fn take_at(
    words: &Words,
    alloc: Global,
    task: &mut Task,
    object: usize,
    mode: Mode,
) -> Result<Taken, Memory>
    requires fits { Fits words.now.table_id words.now.key task.old object }
    requires rests { Rests task.old }
    requires next { Next (Take object mode) (shown task.old) }
    ensures mark { task.new.seat.table_id ≡ task.old.seat.table_id }
    ensures rests { Rests task.new }
    ensures answer { TakenAs object mode (shown task.old) result (shown task.new) }
{
    match begin(words, task, object) {
        Ok(()) => {}
        Err(word) => return Ok(Taken::Busy(word)),
    }
    let slot = task.seat.slot_mut(&*words, object);
    match hand_out_of(slot, alloc, &task.path, mode) {
        Ok(Handed::Content(content)) => {
            complete(words, task, object);
            Ok(Taken::Got(content))
        }
        Ok(Handed::Kept(path)) => {
            desist(words, task, object);
            Ok(Taken::NotYet(path))
        }
        Err(_) => {
            desist(words, task, object);
            Err(Memory)
        }
    }
}

/// One try at a give.
pub(crate) fn give_at(
    words: &Words,
    task: &mut Task,
    object: usize,
    content: Content,
) -> Result<(), (Content, u64)>
    requires fits { Fits words.now.table_id words.now.key task.old object }
    requires rests { Rests task.old }
    requires next { Next (Give object) (shown task.old) }
    requires held { held_at object (shown task.old).held ≡ Some content }
    ensures mark { task.new.seat.table_id ≡ task.old.seat.table_id }
    ensures rests { Rests task.new }
    ensures done { OnOk result (Did object (put_held object None (shown task.old).held) (shown task.old) (shown task.new)) }
    ensures busy { IfErr result (λ r. (r.0 ≡ content) × IsBusy r.1 object (shown task.old) (shown task.new)) }
{
    match begin(words, task, object) {
        Ok(()) => {}
        Err(word) => return Err((content, word)),
    }
    let slot = task.seat.slot_mut(&*words, object);
    give_to(slot, &task.path, content);
    complete(words, task, object);
    Ok(())
}

/// One try at a change of the rights of the task's entry.
pub(crate) fn shift_at(words: &Words, task: &mut Task, object: usize, rights: Rights) -> Tried
    requires fits { Fits words.now.table_id words.now.key task.old object }
    requires rests { Rests task.old }
    requires next { Next (Shift object rights) (shown task.old) }
    ensures mark { task.new.seat.table_id ≡ task.old.seat.table_id }
    ensures rests { Rests task.new }
    ensures answer { TriedAs object (shown task.old) result (shown task.new) }
{
    match begin(words, task, object) {
        Ok(()) => {}
        Err(word) => return Tried::Busy(word),
    }
    let slot = task.seat.slot_mut(&*words, object);
    shift_in(slot, &task.path, rights);
    complete(words, task, object);
    Tried::Done
}

/// One try at a leave of the task's entry.
pub(crate) fn leave_at(words: &Words, task: &mut Task, object: usize) -> Tried
    requires fits { Fits words.now.table_id words.now.key task.old object }
    requires rests { Rests task.old }
    requires next { Next (Leave object) (shown task.old) }
    ensures mark { task.new.seat.table_id ≡ task.old.seat.table_id }
    ensures rests { Rests task.new }
    ensures answer { TriedAs object (shown task.old) result (shown task.new) }
{
    match begin(words, task, object) {
        Ok(()) => {}
        Err(word) => return Tried::Busy(word),
    }
    let slot = task.seat.slot_mut(&*words, object);
    leave_in(slot, &task.path);
    complete(words, task, object);
    Tried::Done
}

/// One try at an entry of the next child.
pub(crate) fn enter_at(
    words: &Words,
    alloc: Global,
    task: &mut Task,
    object: usize,
    rights: Rights,
) -> Result<Tried, Memory>
    requires fits { Fits words.now.table_id words.now.key task.old object }
    requires rests { Rests task.old }
    requires next { Next (Enter object rights) (shown task.old) }
    ensures mark { task.new.seat.table_id ≡ task.old.seat.table_id }
    ensures rests { Rests task.new }
    ensures answer { IfOk result (λ r. TriedAs object (shown task.old) r (shown task.new)) }
    ensures unchanged { OnErr result (AsBefore (shown task.old) (shown task.new)) }
{
    let child = task.path.child(alloc, task.children)?;
    match begin(words, task, object) {
        Ok(()) => {}
        Err(word) => return Ok(Tried::Busy(word)),
    }
    let slot = task.seat.slot_mut(&*words, object);
    match enter_to(slot, &task.path, child, rights) {
        Ok(()) => {
            complete(words, task, object);
            Ok(Tried::Done)
        }
        Err(_) => {
            desist(words, task, object);
            Err(Memory)
        }
    }
}

/// The creation of the next child. Where the pass wants tickets for it, it is one try to get them.
/// After 2^32 - 1 children, for which no limit has steps, it answers as where memory is wanting.
pub(crate) fn enroll_at(
    words: &Words,
    alloc: Global,
    task: &mut Task,
    place: usize,
    steps: u64,
) -> Result<Tried, Memory>
    requires fits { FitsRoll words.now.table_id words.now.key task.old place }
    requires rests { Rests task.old }
    requires next { (t : TaskOf) × Next (Enroll t steps) (shown task.old) }
    ensures mark { task.new.seat.table_id ≡ task.old.seat.table_id }
    ensures rests { Rests task.new }
    ensures answer { IfOk result (λ r. EnrolledAs place steps (shown task.old) r (shown task.new)) }
    ensures unchanged { OnErr result (AsBefore (shown task.old) (shown task.new)) }
{
    let children = match task.children.checked_add(1) {
        Some(children) => children,
        None => return Err(Memory),
    };
    if task.tickets < 3 {
        return enroll_with_more(words, alloc, task, place, children, steps);
    }
    bear_at_once(words, alloc, task, children, steps)?;
    Ok(Tried::Done)
}

// The same, by a pass that wants tickets first: one for the part that ends with the creation, one for
// the child, and one for itself. After they are got nothing may want memory.
fn enroll_with_more(
    words: &Words,
    alloc: Global,
    task: &mut Task,
    place: usize,
    children: u32,
    steps: u64,
) -> Result<Tried, Memory>
    requires fits { FitsRoll words.now.table_id words.now.key task.old place }
    requires rests { Rests task.old }
    requires next { (t : TaskOf) × Next (Enroll t steps) (shown task.old) }
    requires poor { task.old.tickets < 3 }
    requires count { children ≡ task.old.children + 1 }
    ensures mark { task.new.seat.table_id ≡ task.old.seat.table_id }
    ensures rests { Rests task.new }
    ensures answer { IfOk result (λ r. EnrolledAs place steps (shown task.old) r (shown task.new)) }
    ensures unchanged { OnErr result (AsBefore (shown task.old) (shown task.new)) }
{
    let spare = SpareNote::of(alloc, &task.path)?;
    match restock(words, task, place)? {
        Tried::Done => {
            bear(words, task, spare, children, steps);
            Ok(Tried::Done)
        }
        Tried::Busy(word) => Ok(Tried::Busy(word)),
    }
}

/// The task's end: its last part leaves its note.
pub(crate) fn resign_at(words: &Words, task: &mut Task, blame: Option<Blame>, steps: u64)
    requires laid { Laid words.now.table_id words.now.key }
    requires mark { task.old.seat.table_id ≡ words.now.table_id }
    requires rests { Rests task.old }
    requires next { Next (Resign blame steps) (shown task.old) }
    ensures mark { task.new.seat.table_id ≡ task.old.seat.table_id }
    ensures rests { Rests task.new }
    ensures done { Ended blame steps (shown task.old) (shown task.new) }
{
    core_laws();
    let spare = taken_out(&mut task.spare);
    words.load::<Resigning>(&mut task.seat, 0);
    settle(task);
    task.tickets -= 1;
    task.notes.push(spare, task.children, blame, steps);
}

// Whether a pass has neither a ticket nor a note.
fn has_nothing(task: &Task) -> bool
    ensures yes { result ≡ true → task.now.tickets + length task.now.notes ≡ 0 }
    ensures no { result ≡ false → 0 < task.now.tickets + length task.now.notes }
{
    task.tickets == 0 && task.notes.len() == 0
}

/// One try to hand in all that a pass has whose task has ended.
pub(crate) fn hand_in_at(words: &Words, task: &mut Task, place: usize) -> Tried
    requires fits { FitsRoll words.now.table_id words.now.key task.old place }
    requires rests { Rests task.old }
    requires gone { IsGone (shown task.old) }
    ensures mark { task.new.seat.table_id ≡ task.old.seat.table_id }
    ensures rests { Rests task.new }
    ensures answer { HandedInAs place (shown task.old) result (shown task.new) }
{
    if has_nothing(task) {
        return Tried::Done;
    }
    match begin_roll(words, task, place) {
        Ok(()) => {}
        Err(word) => return Tried::Busy(word),
    }
    relieve(words, task, place);
    Tried::Done
}

/// The token of the child that was enrolled last, with no event done. Its spare note lies in the room, if
/// there is some.
pub(crate) fn split_off(
    words: &Words,
    alloc: Global,
    task: &mut Task,
    room: &mut PassRoom,
) -> Result<Task, Memory>
    requires laid { Laid words.now.table_id words.now.key }
    requires mark { task.old.seat.table_id ≡ words.now.table_id }
    requires rests { Rests task.old }
    requires live { (shown task.old).live ≡ true }
    requires kid { (kid : SeatOf) × ((shown task.old).unborn ≡ Some kid) }
    ensures mark { task.new.seat.table_id ≡ task.old.seat.table_id }
    ensures rests { Rests task.new }
    ensures parent { OnOk result (shown task.new ≡ without_kid (shown task.old)) }
    ensures child { IfOk result (IsKidOf task.old) }
    ensures unchanged { OnErr result (shown task.new ≡ shown task.old) }
{
    let path = task.path.child(alloc, task.children - 1)?;
    let spare = SpareNote::in_place(alloc, room.spare.take(), &path)?;
    let seat = words.split_seat::<Bearing>(&mut task.seat);
    let tickets = 1 + task.tickets / 16;
    task.tickets -= tickets;
    Ok(Task {
        seat,
        path,
        spare: Some(spare),
        tickets,
        notes: Notes::none(alloc),
        children: 0,
        events: 0,
        touched: 0,
        over: false,
    })
}

/// Takes the token of a task that has ended into that of another, with all that it has.
pub(crate) fn take_in(words: &Words, keeper: &mut Task, ended: Task)
    requires laid { Laid words.now.table_id words.now.key }
    requires mark { (keeper.old.seat.table_id ≡ words.now.table_id) × (ended.seat.table_id ≡ words.now.table_id) }
    requires rests { Rests keeper.old × Rests ended }
    requires gone { IsGone (shown keeper.old) × IsGone (shown ended) }
    ensures mark { keeper.new.seat.table_id ≡ keeper.old.seat.table_id }
    ensures rests { Rests keeper.new }
    ensures shows { shown keeper.new ≡ joined (shown keeper.old) (shown ended) }
{
    core_laws();
    let Task {
        seat,
        path: _,
        spare: _,
        tickets,
        mut notes,
        children: _,
        events: _,
        touched: _,
        over,
    } = ended;
    words.join_seat::<Joining>(&mut keeper.seat, seat);
    words.load::<Looking>(&mut keeper.seat, 0);
    keeper.tickets += tickets;
    keeper.notes.append(&mut notes);
    keeper.over = either(keeper.over, over);
}

/// The task's end, with which its token is taken into that of a task that has ended. The note of its last
/// part goes there at once; the room is what that note does not need.
pub(crate) fn retire_at(
    words: &Words,
    keeper: &mut Task,
    task: Task,
    blame: Option<Blame>,
    steps: u64,
    room: &mut PassRoom,
)
    requires laid { Laid words.now.table_id words.now.key }
    requires mark { (keeper.old.seat.table_id ≡ words.now.table_id) × (task.seat.table_id ≡ words.now.table_id) }
    requires rests { Rests keeper.old × Rests task }
    requires gone { IsGone (shown keeper.old) }
    requires next { Next (Resign blame steps) (shown task) }
    ensures mark { keeper.new.seat.table_id ≡ keeper.old.seat.table_id }
    ensures rests { Rests keeper.new }
    ensures done { Retired blame steps (shown task) (shown keeper.old) (shown keeper.new) }
{
    core_laws();
    let Task {
        mut seat,
        path: _,
        mut spare,
        tickets,
        notes,
        children,
        events: _,
        touched: _,
        over,
    } = task;
    let spare = taken_out(&mut spare);
    words.load::<Resigning>(&mut seat, 0);
    words.join_seat::<Joining>(&mut keeper.seat, seat);
    words.load::<Looking>(&mut keeper.seat, 0);
    keeper.tickets += tickets - 1;
    room.spare = keeper
        .notes
        .append_last(notes, spare, children, blame, steps);
    keeper.over = either(keeper.over, over);
}

// Whether one of two holds.
fn either(first: bool, other: bool) -> bool
    ensures { result ≡ first || other }
{
    first || other
}
