//! The specification of a task, and what its sections make.

ghost use Rattle.std.specs.Prelude.{◌≡◌, ◌<◌, ◌≤◌, ◌^◌, true, false, [], None, Some, replicate, slice_set, IfOk, IfSome, IfNone, OnOk, OnErr};
ghost use Rattle.jade_base.specs.Rights.{both_rights, join, no_rights};
ghost use Rattle.jade_base.specs.Specification.{joined_in, kept, rights_in, settled};
ghost use Rattle.jade_meaning.specs.Specification.{rights_on, commuting_on, covers, is_commuting, may_commute};
ghost use Rattle.jade_meaning.specs.Spread.{spread};
ghost use Rattle.access_spec.specs.Copies.{copied};
ghost use Rattle.jade_meaning.specs.Changes.{change_of};
ghost use Rattle.jade_meaning.specs.Course.{Building, Amending};
ghost use Rattle.jade_syntax.specs.declared.tree.DeclareWord.{DeclareWord as WordOf};
ghost use Rattle.task_machine.specs.steps.Owning.{copy_spread, rights_of, draft_of};
ghost use Rattle.task_machine.specs.steps.Acting.{KeepsRights, SaidBy};

use crate::entries::{commuting, may_have};
use access_spec::{Change, WorkingCopy};
use jade_base::{Memory, ObjectId, Right, Rights, Spec};
use jade_meaning::laws::spread_agrees;
use jade_meaning::section_words::{change_of, declared};
use jade_syntax::tree::DeclareWord;
use spec_cover::uncovered;
use std::alloc::Global;
use std::mem;

/// Whether there is a section, and whose specification it makes.
#[derive(Clone, Copy, Debug, PartialEq, Eq)]
pub enum Section {
    Absent,
    Building,
    Amending,
}

/// The number of objects of the program, the specification of the task with the copy that a section
/// changes, and the specification that a section makes for a child.
#[derive(Drop)]
pub struct Own {
    pub objects: u32,
    pub spec: WorkingCopy,
    pub child: Spec,
    pub section: Section,
    pub alloc: Global,
}

/// What comes of a word of a section.
#[derive(Clone, Copy, Debug, PartialEq, Eq)]
pub enum Said {
    Done,
    /// These rights on the object are to be declared.
    Asks(ObjectId, Rights),
    /// The word asks for a right that is not there.
    Refused,
}

/// The rights of the task on an object.
pub(crate) fn rights_on(own: &Own, object: usize) -> Rights
    ensures rights { result ≡ rights_on (rights_of own.now) object }
    ensures narrow { 2 ^ 32 ≤ object → result ≡ no_rights }
{
    if object < own.objects as usize {
        own.spec.spec().rights(ObjectId(object as u32))
    } else {
        Rights::NONE
    }
}

/// The rights of the task on an object.
pub(crate) fn rights_for(own: &Own, object: ObjectId) -> Rights
    ensures { result ≡ rights_on (rights_of own.now) object.0 }
{
    rights_on(own, object.0 as usize)
}

/// The rights on an object in the copy that a section of the task changes.
pub(crate) fn copied_for(own: &Own, object: ObjectId) -> Rights
    ensures { result ≡ rights_on (copy_spread own.now.objects own.now.spec) object.0 }
{
    if object.0 >= own.objects {
        return Rights::NONE;
    }
    copied(own.spec.spec(), object)
}

// The rights on an object in a copy.
fn copied(spec: &Spec, object: ObjectId) -> Rights
    ensures { result ≡ copied spec.now object }
{
    match spec.place_of(object) {
        None => Rights::NONE,
        Some(place) => spec.draft_at(place),
    }
}

/// The object on which the task commutes, if it does.
pub fn own_object(own: &Own) -> Option<ObjectId>
    ensures found { IfSome result (λ object. commuting_on (rights_of own.now) ≡ Some object.0) }
    ensures none { IfNone result (commuting_on (rights_of own.now) ≡ None) }
    ensures within { IfSome result (λ object. object.0 < own.now.objects) }
{
    commuting(own.spec.spec(), own.objects)
}

/// Whether the task commutes on some object.
pub fn commutes(own: &Own) -> bool
    ensures { result ≡ is_commuting (rights_of own.now) }
{
    own_object(own).is_some()
}

/// Whether a task may have the rights that the section has made for a child.
pub fn may_be_made(own: &Own) -> bool
    ensures { result ≡ may_commute (spread own.now.objects own.now.child.entries) }
{
    may_have(&own.child, own.objects)
}

/// A section of a child begins.
pub fn open(own: &mut Own)
    ensures kept { KeepsRights own.old own.new }
    ensures draft { draft_of own.new ≡ Building (replicate own.old.objects no_rights) }
{
    own.child.clear();
    own.section = Section::Building;
}

/// A section of the task itself begins.
pub fn amend(own: &mut Own)
    ensures kept { KeepsRights own.old own.new }
    ensures draft { draft_of own.new ≡ Amending (rights_of own.old) }
{
    let empty = WorkingCopy::begin(Spec::empty(own.alloc));
    let spec = mem::replace(&mut own.spec, empty).abandon();
    own.spec = WorkingCopy::begin(spec);
    own.section = Section::Amending;
}

// A change of the task's own rights on an object.
fn change(own: &mut Own, change: Change, object: usize) -> Said
    requires { own.old.section ≡ Section.Amending }
    ensures { (how : WordOf) → change_of how ≡ Some change → SaidBy result own.old how object own.new }
{
    if object < own.objects as usize {
        match own.spec.change(ObjectId(object as u32), change) {
            Ok(()) => Said::Done,
            Err(_) => Said::Refused,
        }
    } else {
        match change.amend(Rights::NONE) {
            Ok(_) => Said::Done,
            Err(_) => Said::Refused,
        }
    }
}

/// A word of a section on an object.
pub fn say(own: &mut Own, word: DeclareWord, object: usize) -> Said
    ensures { SaidBy result own.old word object own.new }
{
    match own.section {
        Section::Absent => Said::Done,
        Section::Building => {
            if object < own.objects as usize {
                Said::Asks(ObjectId(object as u32), declared(word))
            } else {
                Said::Done
            }
        }
        Section::Amending => match change_of(word) {
            None => Said::Done,
            Some(change_asked) => change(own, change_asked, object),
        },
    }
}

/// Whether the task's rights cover those that the section has made for a child.
pub fn covers_child(own: &Own) -> bool
    ensures { result ≡ covers (rights_of own.now) (spread own.now.objects own.now.child.entries) }
{
    spread_agrees();
    match uncovered(own.spec.spec(), &own.child) {
        None => true,
        Some(object) => object.0 >= own.objects,
    }
}

/// Declares rights on an object for a child, in its section. The error is want of memory, and
/// changes nothing.
pub fn declare_for_child(
    own: &mut Own,
    alloc: Global,
    object: ObjectId,
    rights: Rights,
) -> Result<(), Memory>
    requires { object.0 < own.old.objects }
    ensures declared { OnOk result (own.new ≡ record own.old { child = settled (joined_in own.old.child.entries object rights) }) }
    ensures spread { OnOk result (spread own.new.objects own.new.child.entries ≡ slice_set
        (spread own.old.objects own.old.child.entries) object.0 (join (rights_on (spread own.old.objects own.old.child.entries) object.0) rights)) }
    ensures refused { OnErr result (own.new ≡ own.old) }
{
    own.child.declare(alloc, object, rights)?;
    Ok(())
}

/// The copy that a section of the task itself has changed is its specification from here on.
pub fn commit(own: &mut Own)
    ensures changed { own.new ≡ record own.old { spec = settled (kept own.old.spec.entries own.old.spec.draft); section = Section.Absent } }
    ensures rights { rights_of own.new ≡ copy_spread own.old.objects own.old.spec }
{
    let _count = own.spec.spec().len();
    let empty = WorkingCopy::begin(Spec::empty(own.alloc));
    let spec = mem::replace(&mut own.spec, empty).commit();
    own.spec = WorkingCopy::begin(spec);
    own.section = Section::Absent;
}

// Immediate rights to read and to write.
fn both_rights() -> Rights
    ensures { result ≡ both_rights }
{
    Rights {
        reads: Right::Immediate,
        writes: Right::Immediate,
        commutes: Right::Absent,
    }
}

/// Immediate reading and writing of so many objects. The error is want of memory.
pub fn all_rights(alloc: Global, objects: u32) -> Result<Spec, Memory>
    ensures { IfOk result (λ spec. spread objects spec.entries ≡ replicate objects both_rights) }
{
    let mut spec = Spec::empty(alloc);
    'objects: for object in 0..objects {
        spec.declare(alloc, ObjectId(object), both_rights())?;
    }
    Ok(spec)
}

/// What a task has that begins with a specification, in no section.
pub fn outside_section(alloc: Global, objects: u32, spec: Spec) -> Own
    ensures { result ≡ record {
      objects = objects;
      spec = settled spec.entries;
      child = settled [];
      section = Section.Absent;
      alloc = alloc;
    } }
{
    Own {
        objects,
        spec: WorkingCopy::begin(spec),
        child: Spec::empty(alloc),
        section: Section::Absent,
        alloc,
    }
}

/// The section of a child ends; the result is the specification that it has made.
pub fn end_section(own: &mut Own) -> Spec
    ensures made { result ≡ own.old.child }
    ensures ended { own.new ≡ record own.old { child = settled []; section = Section.Absent } }
{
    let next = Spec::empty(own.alloc);
    end_section_for(own, next)
}

/// The same, where the next one makes its specification in this one, which has no entries.
pub(crate) fn end_section_for(own: &mut Own, next: Spec) -> Spec
    requires { next ≡ settled [] }
    ensures made { result ≡ own.old.child }
    ensures ended { own.new ≡ record own.old { child = settled []; section = Section.Absent } }
{
    own.section = Section::Absent;
    mem::replace(&mut own.child, next)
}
