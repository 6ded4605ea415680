//! What a run has come to.

use jade_base::CellLists;
use jade_syntax::Checked;
use picture_base::{Stop, labels};
use std::alloc::Global;

/// Prints a line for each object: its label and its cells.
pub(crate) fn tell_objects<P: Print>(
    rt: &P,
    alloc: Global,
    checked: &Checked,
    objects: &CellLists,
) -> Result<(), Stop> {
    let labels = labels(alloc, checked)?;
    for number in 0..labels.len() {
        if number >= objects.len() {
            break;
        }
        let label = &labels[number];
        let cells = cells_word(alloc, objects.at(number).as_slice())?;
        println!(rt; "{label} ={cells}")?;
    }
    Ok(())
}

/// Numbers, each after a space.
fn cells_word(alloc: Global, cells: &[i64]) -> Result<String, Stop> {
    let mut text = String::new(alloc);
    for cell in cells {
        let piece = format!(in alloc; " {cell}")?;
        text.push_str(piece.as_str())?;
    }
    Ok(text)
}
