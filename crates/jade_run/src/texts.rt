//! The texts that the commands write.

ghost use Rattle.std.specs.Prelude.{◌≡◌, ◌++◌, ◌∷◌, [], codes, IfOk, OnOk, ◌<◌, length, slice_get, Some};
ghost use Rattle.std.specs.Fmt.{decimal, signed_decimal};
ghost use Rattle.jade_run.specs.Texts.{place_text, path_text, fault_word, fault_text, place_before, refused_text, line_of, cells_text};
ghost use Rattle.jade_run.specs.Texts.{object_text, objects_text, between, numbers_text, static_word, drilled_text, form_text};
ghost use Rattle.jade_syntax.specs.Objects.{labels};

use itoa::Buffer;
use jade_base::{Blame, CellLists, FaultKind, Numbers, ObjectId, Path, Pos};
use jade_syntax::{Checked, Name, StaticKind};
use record_parts::{push_decimal, push_label};
use std::alloc::{AllocError, Global};

/// Puts a number with its sign last, in decimal.
fn push_signed(text: &mut Vec<u8>, number: i64) -> Result<(), AllocError>
    ensures { OnOk result (text.new.items ≡ text.old.items ++ signed_decimal number) }
{
    let mut buffer = Buffer::new();
    text.extend_from_slice(buffer.format(number).as_bytes())
}

/// Puts a sum last, in decimal with its sign.
fn push_sum(text: &mut Vec<u8>, sum: i128) -> Result<(), AllocError>
    ensures { OnOk result (text.new.items ≡ text.old.items ++ signed_decimal sum) }
{
    let mut buffer = Buffer::new();
    text.extend_from_slice(buffer.format(sum).as_bytes())
}

/// Puts a place last.
fn push_place(text: &mut Vec<u8>, pos: Pos) -> Result<(), AllocError>
    ensures { OnOk result (text.new.items ≡ text.old.items ++ place_text pos) }
{
    push_decimal(text, pos.line)?;
    text.push(b':')?;
    push_decimal(text, pos.column)
}

/// The word of a fault.
fn fault_word(kind: FaultKind) -> &'static [u8]
    ensures { result.now ≡ fault_word kind }
{
    match kind {
        FaultKind::Overflow => b"overflow",
        FaultKind::Zero => b"zero",
        FaultKind::Index => b"index",
        FaultKind::Object => b"object",
        FaultKind::Right => b"right",
        FaultKind::Cover => b"cover",
        FaultKind::Change => b"change",
        FaultKind::Limit => b"limit",
        FaultKind::Commute => b"commute",
    }
}

/// The word of a static fault.
pub fn static_word(kind: StaticKind) -> &'static [u8]
    ensures { result.now ≡ static_word kind }
{
    match kind {
        StaticKind::Name => b"name",
        StaticKind::Twice => b"twice",
        StaticKind::Kind => b"kind",
        StaticKind::Assign => b"assign",
        StaticKind::Size => b"size",
    }
}

/// What a run is answered with that was given another count of numbers than its text has inputs.
pub fn numbers(alloc: Global, wanted: u32, got: u32) -> Result<Vec<u8>, AllocError>
    ensures { IfOk result (λ text. text.items ≡ numbers_text wanted got) }
{
    let mut text = Vec::from_slice(alloc, b"numbers: want ")?;
    push_decimal(&mut text, wanted)?;
    text.extend_from_slice(b", got ")?;
    push_decimal(&mut text, got)?;
    text.push(b'\n')?;
    Ok(text)
}

/// Puts the byte between two items last, before the item of a number.
fn push_between(text: &mut Vec<u8>, byte: u8, number: usize) -> Result<(), AllocError>
    ensures { OnOk result (text.new.items ≡ text.old.items ++ between byte number) }
{
    if number > 0 {
        text.push(byte)?;
    }
    Ok(())
}

/// Puts the numbers of a path last, joined by dots.
fn push_path(text: &mut Vec<u8>, path: &[u32]) -> Result<(), AllocError>
    ensures { OnOk result (text.new.items ≡ text.old.items ++ path_text path.now) }
{
    for (i, number) in path.iter().enumerate() {
        push_between(text, b'.', i)?;
        push_decimal(text, *number)?;
    }
    Ok(())
}

/// What a text that can't be run is answered with: its place and why.
pub fn refused(alloc: Global, pos: Pos, why: &[u8]) -> Result<Vec<u8>, AllocError>
    ensures { IfOk result (λ text. text.items ≡ refused_text pos why.now) }
{
    let mut text = Vec::from_slice(alloc, b"refused ")?;
    push_place(&mut text, pos)?;
    text.push(b' ')?;
    text.extend_from_slice(why)?;
    text.push(b'\n')?;
    Ok(text)
}

/// What a run is answered with whose first fault is this one, of the task at a path.
pub fn fault(alloc: Global, path: &Path, blame: Blame) -> Result<Vec<u8>, AllocError>
    ensures { IfOk result (λ text. text.items ≡ fault_text path.now blame) }
{
    let mut text = Vec::from_slice(alloc, b"fault ")?;
    if let Some(pos) = blame.pos {
        push_place(&mut text, pos)?;
        text.push(b' ')?;
    }
    text.extend_from_slice(fault_word(blame.kind))?;
    text.extend_from_slice(b" task ")?;
    push_path(&mut text, path.numbers())?;
    text.push(b'\n')?;
    Ok(text)
}

/// One of the cells of an object.
fn cell_at(cells: &[i64], place: usize) -> i64
    requires { place < length cells.now }
    ensures { slice_get cells.now place ≡ Some result }
{
    cells[place]
}

/// Puts the cells of an object last, with one space between them.
fn push_cells(text: &mut Vec<u8>, cells: &[i64]) -> Result<(), AllocError>
    ensures { OnOk result (text.new.items ≡ text.old.items ++ cells_text cells.now) }
{
    for i in 0..cells.len() {
        push_between(text, b' ', i)?;
        push_signed(text, cell_at(cells, i))?;
    }
    Ok(())
}

/// Puts the line of one object last.
fn push_object(
    text: &mut Vec<u8>,
    name: &Name,
    member: Option<u32>,
    cells: &Numbers,
) -> Result<(), AllocError>
    ensures { OnOk result (text.new.items ≡ text.old.items ++ object_text (record { name = name.now; member = member }) cells.now) }
{
    push_label(text, name, member)?;
    text.extend_from_slice(b" = ")?;
    push_cells(text, cells.as_slice())?;
    text.push(b'\n')?;
    Ok(())
}

/// What a run is answered with that has no fault: one line for each object, in declared order.
pub fn objects(alloc: Global, checked: &Checked, cells: &CellLists) -> Result<Vec<u8>, AllocError>
    ensures { IfOk result (λ text. text.items ≡ objects_text (labels checked.now.program.items) cells.now) }
{
    let mut text = Vec::new(alloc);
    for i in 0..checked.objects() {
        let place = i as usize;
        if place >= cells.len() {
            break;
        }
        let (name, member) = checked.label(ObjectId(i));
        push_object(&mut text, name, member, cells.at(place))?;
    }
    Ok(text)
}

/// What a drill of so many tasks is answered with that has no fault: the sum of all cells.
pub fn drilled(alloc: Global, tasks: u32, sum: i128) -> Result<Vec<u8>, AllocError>
    ensures { IfOk result (λ text. text.items ≡ drilled_text tasks sum) }
{
    let mut text = Vec::from_slice(alloc, b"tasks ")?;
    push_decimal(&mut text, tasks)?;
    text.extend_from_slice(b" sum ")?;
    push_sum(&mut text, sum)?;
    text.push(b'\n')?;
    Ok(text)
}

/// What a recording is answered with of which this line is the first that breaks the form.
pub fn form(alloc: Global, line: u32) -> Result<Vec<u8>, AllocError>
    ensures { IfOk result (λ text. text.items ≡ form_text line) }
{
    let mut text = Vec::from_slice(alloc, b"replay: form ")?;
    push_decimal(&mut text, line)?;
    text.push(b'\n')?;
    Ok(text)
}
