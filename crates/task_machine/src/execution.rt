//! The execution of the body of one task.

ghost use Rattle.std.specs.Prelude.{◌≡◌, ◌+◌, ◌<◌, ◌≤◌, ◌^◌, false, [], length, map, replicate, slice_get, slice_set, Some, None, IfOk, IfSome, IfNone, OnOk, OnErr};
ghost use Rattle.task_machine.specs.Stages.{copy_spread, slots_of, rights_at};
ghost use Rattle.code_meaning.specs.Meaning.{given_slots, passed};
ghost use Rattle.jade_base.specs.Rights.{both_rights};
ghost use Rattle.jade_base.specs.Specification.{joined_in, kept, settled};
ghost use Rattle.task_machine.specs.Executions.{Advanced, body_at, created_by, held_by, IsBegun, moved_on, with_content};
ghost use Rattle.task_machine.specs.Executions.{without_content, objects_in};
ghost use Rattle.task_machine.specs.Machines.{amended_at, holds_at};
ghost use Rattle.task_machine.specs.steps.Holding.{RowsAscend, row_from};
ghost use Rattle.task_machine.specs.steps.Owning.{rights_of};
ghost use Rattle.jade_meaning.specs.Talk.{held};
ghost use Rattle.task_code.specs.Rules.{Valid};
ghost use Rattle.jade_base.specs.Rights.{join};
ghost use Rattle.jade_meaning.specs.Specification.{commuting_on, rights_on};
ghost use Rattle.jade_meaning.specs.Spread.{spread};
ghost use Rattle.task_machine.specs.declared.section.Section.{Section};

use crate::frame::{Frame, Pause, go_past};
use crate::holdings::{Holdings, Row};
use crate::room::MachineRoom;
use crate::section::{
    Own, all_rights, commit, copied_for, declare_for_child, end_section_for, outside_section,
    own_object, rights_for,
};
use crate::slots::{empty_slots, give_call, give_inputs};
use crate::{entries, play};
use access_spec::WorkingCopy;
use code_meaning::code::Operand;
use jade_base::{Content, Memory, Mode, ObjectId, Rights, Spec};
use std::alloc::Global;
use std::marker::Model;
use task_code::{DecodedCode, DecodedInstruction};

/// The execution of the body of one task. Contracts see it as plain data.
#[derive(Drop)]
pub struct Execution<'c> {
    code: &'c DecodedCode,
    numbers: &'c [i64],
    limit: u32,
    body: u32,
    own: Own,
    frame: Frame,
    held: Holdings,
}

impl<'c> Model for Execution<'c> {
    ghost use Rattle.task_machine.specs.Executions.{Execution as ExecutionOf, coded_execution};
    ghost use Rattle.task_machine.specs.steps.Executing.{shown, IsReady};

    ghost Value = { ExecutionOf };

    ghost coded = { coded_execution };

    ghost view = { λ e. shown e.code.now e.numbers.now e.limit e.body e.own e.frame e.held };

    ghost invariant = { λ e. IsReady e.code.now e.numbers.now e.body e.own e.frame };
}

/// The instructions of a body.
pub fn instructions(code: &DecodedCode, body: u32) -> &[DecodedInstruction]
    requires { body < length code.now.bodies }
    ensures code { result.now ≡ (body_at code.now body).code }
    ensures valid { Valid code.now }
{
    code.keeps_rules();
    let body = &code.bodies()[body as usize];
    body.code.as_slice()
}

// The number of slots of a body.
fn room(code: &DecodedCode, body: u32) -> u32
    requires { body < length code.now.bodies }
    ensures { result ≡ (body_at code.now body).slots }
{
    let body = &code.bodies()[body as usize];
    body.slots
}

// What a creator gives a body.
fn call_of(code: &DecodedCode, body: u32) -> &[Operand]
    requires { body < length code.now.bodies }
    ensures { result.now ≡ (body_at code.now body).call }
{
    let body = &code.bodies()[body as usize];
    body.call.as_slice()
}

/// That there is a first body. It does nothing.
pub fn first_body(code: &DecodedCode)
    ensures { 0 < length code.now.bodies }
{
    code.keeps_rules();
}

// A body that is created is there.
fn created_body(code: &DecodedCode, body: u32, place: usize, number: u32)
    requires there { body < length code.now.bodies }
    requires created { created_by (slice_get (body_at code.now body).code place) ≡ Some number }
    ensures later { body < number }
    ensures there { number < length code.now.bodies }
    ensures place { place < length (body_at code.now body).code }
{
    code.keeps_rules();
}

// A body has slots for the inputs and for what it is given.
fn body_room(code: &DecodedCode, body: u32)
    requires { body < length code.now.bodies }
    ensures { code.now.inputs + length (body_at code.now body).call ≤ (body_at code.now body).slots }
{
    code.keeps_rules();
}

// The slots of a body with the inputs in the first of them, in a vector that may have been used.
fn slots_with_inputs(
    used: Vec<i64>,
    code: &DecodedCode,
    numbers: &[i64],
    body: u32,
) -> Result<Vec<i64>, Memory>
    requires there { body < length code.now.bodies }
    requires numbers { length numbers.now ≡ code.now.inputs }
    ensures slots { IfOk result (λ slots. slots_of slots.items ≡ given_slots numbers.now) }
    ensures long { IfOk result (λ slots. length slots.items ≡ (body_at code.now body).slots) }
{
    body_room(code, body);
    let mut slots = empty_slots(used, room(code, body))?;
    give_inputs(&mut slots, numbers);
    Ok(slots)
}

/// The slots of a body with the inputs in the first of them. The error is want of memory.
pub fn input_slots(
    alloc: Global,
    code: &DecodedCode,
    numbers: &[i64],
    body: u32,
) -> Result<Vec<i64>, Memory>
    requires there { body < length code.now.bodies }
    requires numbers { length numbers.now ≡ code.now.inputs }
    ensures slots { IfOk result (λ slots. slots_of slots.items ≡ given_slots numbers.now) }
    ensures long { IfOk result (λ slots. length slots.items ≡ (body_at code.now body).slots) }
{
    slots_with_inputs(Vec::new(alloc), code, numbers, body)
}

/// The slots of a body that is created, in a vector that may have been used. The error is want of
/// memory.
pub fn child_slots(
    used: Vec<i64>,
    code: &DecodedCode,
    numbers: &[i64],
    body: u32,
    frame: &Frame,
) -> Result<Vec<i64>, Memory>
    requires there { body < length code.now.bodies }
    requires numbers { length numbers.now ≡ code.now.inputs }
    ensures slots { IfOk result (λ slots.
        slots_of slots.items ≡ passed numbers.now (body_at code.now body).call (slots_of frame.now.slots.items)) }
    ensures long { IfOk result (λ slots. length slots.items ≡ (body_at code.now body).slots) }
{
    body_room(code, body);
    let mut slots = slots_with_inputs(used, code, numbers, body)?;
    give_call(&mut slots, numbers.len(), call_of(code, body), frame);
    Ok(slots)
}

// The number of objects.
fn count_objects(code: &DecodedCode) -> u32
    requires { length code.now.sizes < 2 ^ 32 }
    ensures { result ≡ length code.now.sizes }
{
    code.sizes().len() as u32
}

// The execution of a body from its begin.
fn begun<'c>(
    code: &'c DecodedCode,
    numbers: &'c [i64],
    limit: u32,
    body: u32,
    slots: Vec<i64>,
    own: Own,
    held: Holdings,
) -> Execution<'c>
    requires there { body < length code.now.bodies }
    requires numbers { length numbers.now ≡ code.now.inputs }
    requires objects { own.objects ≡ length code.now.sizes }
    requires spec { own.spec ≡ settled own.spec.entries }
    requires section { own.section ≡ Section.Absent }
    requires slots { length slots.items ≡ (body_at code.now body).slots }
    requires held { held ≡ map without_content own.spec.entries }
    ensures { IsBegun code.now numbers.now limit body (slots_of slots.items) own.spec.entries result }
{
    Execution {
        code,
        numbers,
        limit,
        body,
        own,
        frame: Frame {
            slots,
            place: 0,
            left: limit,
            events: 0,
        },
        held,
    }
}

// The rights of the task on an object. Its entry is looked for at this place first.
fn rights_near(own: &Own, place: usize, object: ObjectId) -> Rights
    ensures { result ≡ rights_on (rights_of own.now) object.0 }
{
    let spec = own.spec.spec();
    if place < spec.len() {
        let (other, rights) = entries::rights_at(spec, own.objects, place);
        if other.0 == object.0 {
            return rights;
        }
    }
    rights_for(own, object)
}

impl<'c> Execution<'c> {
    /// The execution of the first body, from its begin, with immediate reading and writing of all
    /// objects and no content held. The error is want of memory.
    pub fn root(
        alloc: Global,
        code: &'c DecodedCode,
        numbers: &'c [i64],
        limit: u32,
    ) -> Result<Execution<'c>, Memory>
        requires numbers { length numbers.now ≡ code.now.inputs }
        requires objects { length code.now.sizes < 2 ^ 32 }
        ensures begun { IfOk result (λ e. IsBegun code.now numbers.now limit 0 (given_slots numbers.now) e.stage.spec.entries e) }
        ensures rights { IfOk result (λ e. rights_at e.stage ≡ replicate (length code.now.sizes) both_rights) }
    {
        first_body(code);
        let objects = count_objects(code);
        let slots = input_slots(alloc, code, numbers, 0)?;
        let spec = all_rights(alloc, objects)?;
        let held = Holdings::none(alloc, &spec)?;
        let own = outside_section(alloc, objects, spec);
        Ok(begun(code, numbers, limit, 0, slots, own, held))
    }

    /// Goes on to the next pause. It takes no memory.
    pub fn advance(&mut self) -> Pause
        ensures { Advanced self.old result self.new }
    {
        let code = instructions(self.code, self.body);
        play::go_to_pause(code, &mut self.own, &mut self.frame, &mut self.held)
    }

    /// The content of an object is held; nothing changes where the task's specification does not
    /// tell of the object. Its row is looked for at this place first. It takes no memory.
    pub fn supply(&mut self, near: usize, object: ObjectId, content: Content)
        ensures { self.new ≡ record self.old { rows = with_content object.0 (Some content) self.old.rows } }
    {
        self.held.supply(near, object, content);
    }

    /// The content of an object is held no more; it is the result, where it was held. Its row is
    /// looked for at this place first. It takes no memory.
    pub fn surrender(&mut self, near: usize, object: ObjectId) -> Option<Content>
        ensures content { result ≡ held_by self.old object.0 }
        ensures rows { self.new ≡ record self.old { rows = with_content object.0 None self.old.rows } }
    {
        self.held.surrender(near, object)
    }

    /// Declares rights on an object for the child whose section has come to this, and goes on to
    /// the next instruction. The error is want of memory, and changes nothing.
    pub fn declare(&mut self, alloc: Global, object: ObjectId, rights: Rights) -> Result<(), Memory>
        requires within { object.0 < self.old.stage.objects }
        requires place { self.old.stage.place < length self.old.stage.code }
        ensures declared { OnOk result (self.new ≡ record self.old {
          stage = moved_on self.old.stage.section self.old.stage.spec
              (settled (joined_in self.old.stage.child.entries object rights)) self.old.stage;
        }) }
        ensures spread { OnOk result (spread self.new.stage.objects self.new.stage.child.entries ≡ slice_set
            (spread self.old.stage.objects self.old.stage.child.entries) object.0
            (join (rights_on (spread self.old.stage.objects self.old.stage.child.entries) object.0) rights)) }
        ensures refused { OnErr result (self.new ≡ self.old) }
    {
        declare_for_child(&mut self.own, alloc, object, rights)?;
        go_past(instructions(self.code, self.body), &mut self.frame);
        Ok(())
    }

    /// The copy that a section of the task itself has changed is its specification from here on,
    /// and the next instruction follows. It takes no memory.
    pub fn change(&mut self)
        requires place { self.old.stage.place < length self.old.stage.code }
        ensures changed { self.new ≡ record self.old {
          stage = moved_on Section.Absent (settled (kept self.old.stage.spec.entries self.old.stage.spec.draft)) self.old.stage.child self.old.stage;
        } }
        ensures rights { rights_at self.new.stage ≡ copy_spread self.old.stage.objects self.old.stage.spec }
    {
        commit(&mut self.own);
        go_past(instructions(self.code, self.body), &mut self.frame);
    }

    /// The child of the body of this number, which is created: it begins with the slots that its
    /// creator gives it and the specification that the section has made, with no content held. The
    /// creator goes on to the next instruction, in no section. Its vectors are those of the room. The
    /// error is want of memory, and changes nothing but the room.
    pub fn child(
        &mut self,
        alloc: Global,
        number: u32,
        room: &mut MachineRoom,
    ) -> Result<Execution<'c>, Memory>
        requires created { created_by (slice_get self.old.stage.code self.old.stage.place) ≡ Some number }
        ensures begun { IfOk result (λ child. IsBegun self.old.program self.old.numbers self.old.limit number
            (passed self.old.numbers (body_at self.old.program number).call (slots_of self.old.stage.slots))
            self.old.stage.child.entries child) }
        ensures moved { OnOk result (self.new ≡ record self.old {
          stage = moved_on Section.Absent self.old.stage.spec (settled []) self.old.stage;
        }) }
        ensures refused { OnErr result (self.new ≡ self.old) }
    {
        created_body(self.code, self.body, self.frame.place, number);
        let used = room.take_slots(alloc);
        let slots = child_slots(used, self.code, self.numbers, number, &self.frame)?;
        let held = Holdings::none_in(room.take_rows(alloc), alloc, &self.own.child)?;
        let spec = end_section_for(&mut self.own, room.take_spec(alloc));
        go_past(instructions(self.code, self.body), &mut self.frame);
        let own = outside_section(alloc, self.own.objects, spec);
        Ok(begun(
            self.code,
            self.numbers,
            self.limit,
            number,
            slots,
            own,
            held,
        ))
    }

    /// Leaves its vectors, but for the marks, and its specification in a room.
    pub(crate) fn leave_in(self, room: &mut MachineRoom) {
        room.slots = self.frame.slots;
        room.rows = self.held.into_rows();
        room.spec = self.own.spec.abandon();
    }

    /// The mode in which an object is held, if it is. It takes no memory.
    pub fn hold(&self, object: ObjectId) -> Option<Mode>
        ensures { result ≡ held (holds_at self.now) object.0 }
    {
        if object.0 < self.own.objects {
            self.held.mode(object.0 as usize)
        } else {
            None
        }
    }

    /// The mode in which an object is held, whose row is at this place, if it is.
    pub(crate) fn hold_in_row(&self, place: usize, object: ObjectId) -> Option<Mode>
        requires { slice_get (objects_in self.now.rows) place ≡ Some object }
        ensures { result ≡ held (holds_at self.now) object.0 }
    {
        if object.0 < self.own.objects {
            self.held.mode_at(place, object)
        } else {
            None
        }
    }

    /// The rights of the task on an object, found at once where its entry has the same place as its
    /// row, which is at this one.
    pub(crate) fn rights_in_row(&self, place: usize, object: ObjectId) -> Rights
        ensures { result ≡ rights_on (rights_at self.now.stage) object.0 }
    {
        rights_near(&self.own, place, object)
    }

    /// The rights of the task on an object. It takes no memory.
    pub fn rights(&self, object: ObjectId) -> Rights
        ensures { result ≡ rights_on (rights_at self.now.stage) object.0 }
    {
        rights_for(&self.own, object)
    }

    /// The object on which the task commutes, if it does. It takes no memory.
    pub fn own_object(&self) -> Option<ObjectId>
        ensures found { IfSome result (λ object. commuting_on (rights_at self.now.stage) ≡ Some object.0) }
        ensures none { IfNone result (commuting_on (rights_at self.now.stage) ≡ None) }
        ensures within { IfSome result (λ object. object.0 < self.now.stage.objects) }
    {
        own_object(&self.own)
    }

    /// The rights on an object as a section of the task itself has changed them. It takes no memory.
    pub fn amended(&self, object: ObjectId) -> Rights
        ensures { result ≡ rights_on (amended_at self.now) object.0 }
    {
        copied_for(&self.own, object)
    }

    /// The objects on which a section has made rights for a child, with these. It takes no memory.
    pub fn child_spec(&self) -> &Spec
        ensures { result.now ≡ self.now.stage.child }
    {
        &self.own.child
    }

    /// The specification of the task, with the copy that a section changes. It takes no memory.
    pub(crate) fn spec(&self) -> &WorkingCopy
        ensures { result.now ≡ self.now.stage.spec }
    {
        &self.own.spec
    }

    /// Whether the copy that a section changes may say other than the specification does.
    pub(crate) fn is_drafted(&self) -> bool
        ensures { result ≡ false → self.now.stage.spec ≡ settled self.now.stage.spec.entries }
    {
        self.own.spec.spec().is_drafted()
    }

    /// The number of objects.
    pub(crate) fn objects(&self) -> u32
        ensures { result ≡ self.now.stage.objects }
    {
        self.own.objects
    }

    /// The steps that it may still begin.
    pub(crate) fn steps_left(&self) -> u32
        ensures { result ≡ self.now.stage.left }
    {
        self.frame.left
    }

    /// How many instructions its body has.
    pub(crate) fn length(&self) -> usize
        ensures { result ≡ length self.now.stage.code }
    {
        instructions(self.code, self.body).len()
    }

    /// The events that it has done, modulo 2^64.
    pub(crate) fn events(&self) -> u64
        ensures { result ≡ self.now.events }
    {
        self.frame.events
    }

    /// That the copy which a section has changed is what its rights become. It does nothing.
    pub(crate) fn settles(&self)
        ensures { spread self.now.stage.objects (kept self.now.stage.spec.entries self.now.stage.spec.draft) ≡ amended_at self.now }
    {
        let _count = self.own.spec.spec().len();
    }

    /// That a body that is created is there, and a later one. It does nothing.
    pub(crate) fn creates(&self, number: u32)
        requires { created_by (slice_get self.now.stage.code self.now.stage.place) ≡ Some number }
        ensures later { self.now.body < number }
        ensures there { number < length self.now.program.bodies }
        ensures place { self.now.stage.place < length self.now.stage.code }
    {
        created_body(self.code, self.body, self.frame.place, number);
    }

    /// The number of objects whose contents the task may hold.
    pub(crate) fn rows(&self) -> usize
        ensures count { result ≡ length self.now.rows }
        ensures ascend { RowsAscend self.now.rows }
    {
        self.held.len()
    }

    /// The object of a row.
    pub(crate) fn object_at(&self, place: usize) -> ObjectId
        requires { place < length self.now.rows }
        ensures { slice_get (objects_in self.now.rows) place ≡ Some result }
    {
        self.held.object_at(place)
    }

    /// The place of an object's row.
    pub(crate) fn row_of(&self, object: ObjectId) -> Option<usize>
        ensures { result ≡ row_from object.0 0 self.now.rows }
    {
        self.held.row_of(object.0 as usize)
    }

    /// The same, where its row is looked for at this place first.
    #[inline(always)]
    pub(crate) fn row_near(&self, near: usize, object: ObjectId) -> Option<usize>
        ensures { result ≡ row_from object.0 0 self.now.rows }
    {
        self.held.row_near(near, object.0 as usize)
    }
}
