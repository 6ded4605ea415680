//! The contents that a task holds.

ghost use Rattle.std.specs.Prelude.{◌≡◌, ◌<◌, length, map, slice_get, None, Some, IfOk, IfSome};
ghost use Rattle.jade_syntax.specs.Objects.{sizes};
ghost use Rattle.jade_meaning.specs.Serial.{zeros};
ghost use Rattle.task_machine.specs.Whole.{all_held, without};
ghost use Rattle.task_machine.specs.Telling.{mode_held};
ghost use Rattle.task_machine.specs.Executions.{objects_in, with_content, without_content};
ghost use Rattle.task_machine.specs.steps.Holding.{RowsAscend, contents_of, row_from, cell_in, Written, whole_from};
ghost use Rattle.task_machine.specs.steps.Searching.{IsFirstFrom};

use crate::halves::FEW;
use crate::hold::Hold;
use crate::room::emptied;
use jade_base::{Content, Memory, Mode, Numbers, ObjectId, Spec};
use jade_syntax::Checked;
use std::alloc::Global;
use std::marker::Model;

/// An object, with its content where that is held.
#[derive(Debug, Drop)]
pub struct Row {
    object: ObjectId,
    content: Hold,
}

/// The contents that a task holds, by ascending number of the object.
#[derive(Debug, Drop)]
pub struct Holdings {
    rows: Vec<Row>,
}

impl Model for Holdings {
    ghost use Rattle.std.specs.Prelude.{List};
    ghost use Rattle.task_machine.specs.declared.holdings.Row.{Row as RowOf};
    ghost use Rattle.task_machine.specs.steps.Holding.{RowsAscend};

    ghost Value = { List RowOf };

    ghost view = { λ h. h.rows.items };

    ghost invariant = { λ h. RowsAscend h.rows.items };
}

impl Holdings {
    /// No content of any object of a specification. The error is want of memory.
    pub(crate) fn none(alloc: Global, spec: &Spec) -> Result<Holdings, Memory>
        ensures { IfOk result (λ held. held ≡ map without_content spec.now.entries) }
    {
        Holdings::none_in(Vec::new(alloc), alloc, spec)
    }

    /// The same, with the rows in a vector that may have been used.
    pub(crate) fn none_in(used: Vec<Row>, alloc: Global, spec: &Spec) -> Result<Holdings, Memory>
        ensures { IfOk result (λ held. held ≡ map without_content spec.now.entries) }
    {
        let mut rows = emptied(used, spec.len());
        'rows: for place in 0..spec.len() {
            let (object, _) = spec.entry(place);
            rows.push(Row {
                object,
                content: Hold::none(alloc),
            })?;
        }
        Ok(Holdings { rows })
    }

    /// Every object of a program, held for writing, with zero in each cell. The error is want of
    /// memory.
    pub fn whole(alloc: Global, checked: &Checked) -> Result<Holdings, Memory>
        ensures { IfOk result (λ held. contents_of held ≡ all_held (zeros (sizes checked.now.program.items))) }
    {
        let rows = rows_of(alloc, checked)?;
        Ok(Holdings { rows })
    }

    /// The vector of the rows, for others.
    pub(crate) fn into_rows(self) -> Vec<Row> {
        self.rows
    }

    /// Takes the content of an object out, where it is held. It takes no memory.
    pub fn take(&mut self, object: usize) -> Option<Content>
        ensures taken { result ≡ contents_of self.old object }
        ensures left { contents_of self.new ≡ without object (contents_of self.old) }
    {
        take_among(self.rows.as_mut_slice(), object, object)
    }

    /// The number of rows.
    pub(crate) fn len(&self) -> usize
        ensures count { result ≡ length self.now }
        ensures ascend { RowsAscend self.now }
    {
        self.rows.len()
    }

    /// The object of the row at a place.
    pub(crate) fn object_at(&self, place: usize) -> ObjectId
        requires { place < length self.now }
        ensures { slice_get (objects_in self.now) place ≡ Some result }
    {
        self.rows[place].object
    }

    /// The place of an object's row.
    pub(crate) fn row_of(&self, object: usize) -> Option<usize>
        ensures { result ≡ row_from object 0 self.now }
    {
        place_of(self.rows.as_slice(), object)
    }

    /// The same, where its row is looked for at this place first.
    #[inline(always)]
    pub(crate) fn row_near(&self, near: usize, object: usize) -> Option<usize>
        ensures { result ≡ row_from object 0 self.now }
    {
        place_near(self.rows.as_slice(), near, object)
    }

    /// The mode in which an object is held, if it is.
    pub(crate) fn mode(&self, object: usize) -> Option<Mode>
        ensures { result ≡ mode_held (contents_of self.now object) }
    {
        mode_among(self.rows.as_slice(), object)
    }

    /// The mode in which an object is held, whose row is at this place, if it is.
    #[inline(always)]
    pub(crate) fn mode_at(&self, place: usize, _object: ObjectId) -> Option<Mode>
        requires { slice_get (objects_in self.now) place ≡ Some _object }
        ensures { result ≡ mode_held (contents_of self.now _object.0) }
    {
        self.rows[place].content.mode()
    }

    /// The number in a cell of an object, whose row is at this place, where the object is held; a cell
    /// that is not there has 0.
    #[inline(always)]
    pub(crate) fn cell(&self, row: usize, _object: usize, cell: usize) -> Option<i64>
        requires { row_from _object 0 self.now ≡ Some row }
        ensures { result ≡ cell_in (contents_of self.now _object) cell }
    {
        cell_among(self.rows.as_slice(), row, _object, cell)
    }

    /// Writes a number into a cell of an object, whose row is at this place; whether the object is held
    /// for more than reading.
    #[inline(always)]
    pub(crate) fn write(&mut self, row: usize, object: usize, cell: usize, number: i64) -> bool
        requires { row_from object 0 self.old ≡ Some row }
        ensures written { Written (contents_of self.old) object cell number result (contents_of self.new) }
        ensures objects { objects_in self.new ≡ objects_in self.old }
    {
        write_among(self.rows.as_mut_slice(), row, object, cell, number)
    }

    /// The row of an object, if there is one, holds this content; what it held goes. Its row is looked
    /// for at this place first. It takes no memory.
    #[inline(always)]
    pub(crate) fn supply(&mut self, near: usize, object: ObjectId, content: Content)
        ensures { self.new ≡ with_content object.0 (Some content) self.old }
    {
        fill_among(self.rows.as_mut_slice(), near, object.0 as usize, content);
    }

    /// Takes the content of an object out of its row, where it is held. Its row is looked for at this
    /// place first. It takes no memory.
    #[inline(always)]
    pub(crate) fn surrender(&mut self, near: usize, object: ObjectId) -> Option<Content>
        ensures content { result ≡ contents_of self.old object.0 }
        ensures rows { self.new ≡ with_content object.0 None self.old }
    {
        take_among(self.rows.as_mut_slice(), near, object.0 as usize)
    }
}

// A row for each object of a program, held for writing, with zero in each cell.
fn rows_of(alloc: Global, checked: &Checked) -> Result<Vec<Row>, Memory>
    ensures { IfOk result (λ rows. rows.items ≡ whole_from 0 (sizes checked.now.program.items)) }
{
    let mut rows = Vec::new(alloc);
    for object in 0..checked.objects() {
        let object = ObjectId(object);
        let cells = Vec::from_elem(alloc, 0, checked.size(object) as usize)?;
        let content = Hold::of(alloc, Content::of(Mode::Writing, Numbers::from_vec(cells)));
        rows.push(Row { object, content })?;
    }
    Ok(rows)
}

// Takes the content of an object out, where it is held. Its row is looked for at this place first.
#[inline(always)]
fn take_among(rows: &mut [Row], near: usize, object: usize) -> Option<Content>
    requires { RowsAscend rows.old }
    ensures taken { result ≡ contents_of rows.old object }
    ensures left { contents_of rows.new ≡ without object (contents_of rows.old) }
    ensures rows { rows.new ≡ with_content object None rows.old }
    ensures ascend { RowsAscend rows.new }
{
    match place_near(rows, near, object) {
        None => None,
        Some(place) => rows[place].content.take(),
    }
}

// The place of the first row whose object is not below this one, found by halves, and one by one
// among the few that are left.
fn place_from(rows: &[Row], object: usize) -> usize
    requires { RowsAscend rows.now }
    ensures { IsFirstFrom object result (objects_in rows.now) }
{
    let mut low = 0;
    let mut high = rows.len();
    'halves: while high - low > FEW {
        let middle = low + (high - low) / 2;
        if (rows[middle].object.0 as usize) < object {
            low = middle + 1;
        } else {
            high = middle;
        }
    }
    'few: for place in low..high {
        if rows[place].object.0 as usize >= object {
            return place;
        }
    }
    high
}

// The place of an object's row, found by a look at one after another.
fn place_among_few(rows: &[Row], object: usize) -> Option<usize>
    ensures row { result ≡ row_from object 0 rows.now }
    ensures within { IfSome result (λ place. place < length rows.now) }
{
    'few: for place in 0..rows.len() {
        if rows[place].object.0 as usize == object {
            return Some(place);
        }
    }
    None
}

// The place of an object's row among many, found by halves.
fn place_by_halves(rows: &[Row], object: usize) -> Option<usize>
    requires { RowsAscend rows.now }
    ensures row { result ≡ row_from object 0 rows.now }
    ensures within { IfSome result (λ place. place < length rows.now) }
{
    let place = place_from(rows, object);
    if place < rows.len() && rows[place].object.0 as usize == object {
        return Some(place);
    }
    None
}

// The place of an object's row. Where all objects of a program are there, it is the object's number;
// else it is sought one by one among few, or by halves. It is called, so that no such search stands
// where an object is touched.
#[inline(never)]
fn place_of(rows: &[Row], object: usize) -> Option<usize>
    requires { RowsAscend rows.now }
    ensures row { result ≡ row_from object 0 rows.now }
    ensures within { IfSome result (λ place. place < length rows.now) }
{
    if object < rows.len() && rows[object].object.0 as usize == object {
        return Some(object);
    }
    if rows.len() <= FEW {
        place_among_few(rows, object)
    } else {
        place_by_halves(rows, object)
    }
}

// The place of an object's row, which is looked for at this place first.
#[inline(always)]
fn place_near(rows: &[Row], near: usize, object: usize) -> Option<usize>
    requires { RowsAscend rows.now }
    ensures row { result ≡ row_from object 0 rows.now }
    ensures within { IfSome result (λ place. place < length rows.now) }
{
    if near < rows.len() && rows[near].object.0 as usize == object {
        return Some(near);
    }
    place_of(rows, object)
}

// The number in a cell of an object, whose row is at this place, where the object is held.
#[inline(always)]
fn cell_among(rows: &[Row], row: usize, _object: usize, cell: usize) -> Option<i64>
    requires row { row_from _object 0 rows.now ≡ Some row }
    requires within { row < length rows.now }
    ensures { result ≡ cell_in (contents_of rows.now _object) cell }
{
    rows[row].content.cell(cell)
}

// The mode in which an object is held, if it is.
fn mode_among(rows: &[Row], object: usize) -> Option<Mode>
    requires { RowsAscend rows.now }
    ensures { result ≡ mode_held (contents_of rows.now object) }
{
    match place_of(rows, object) {
        None => None,
        Some(place) => rows[place].content.mode(),
    }
}

// Writes a number into a cell of an object, whose row is at this place; whether the object is held for
// more than reading.
#[inline(always)]
fn write_among(rows: &mut [Row], row: usize, _object: usize, cell: usize, number: i64) -> bool
    requires ascend { RowsAscend rows.old }
    requires row { row_from _object 0 rows.old ≡ Some row }
    requires within { row < length rows.old }
    ensures written { Written (contents_of rows.old) _object cell number result (contents_of rows.new) }
    ensures objects { objects_in rows.new ≡ objects_in rows.old }
    ensures ascend { RowsAscend rows.new }
{
    rows[row].content.write(cell, number)
}

// The row of an object, if there is one, holds this content. It is looked for at this place first.
#[inline(always)]
fn fill_among(rows: &mut [Row], near: usize, object: usize, content: Content)
    requires { RowsAscend rows.old }
    ensures rows { rows.new ≡ with_content object (Some content) rows.old }
    ensures ascend { RowsAscend rows.new }
{
    match place_near(rows, near, object) {
        None => {}
        Some(place) => rows[place].content.fill(content),
    }
}
