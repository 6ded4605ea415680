//! Texts of programs that are made from a number.
//!
//! Floor `text`, over `jade_base`, with `itoa` of the kit.
#![tactic(auto)]

#[cfg(test)]
mod tests;

ghost use Rattle.std.specs.Prelude.{◌≡◌, ◌≤◌, IfOk, length};
ghost use Rattle.jade_gen.specs.Drill.{drill_text};

use itoa::Buffer;
use jade_base::Memory;
use std::alloc::Global;

/// What stands before the number of tasks.
const HEAD: &[u8] = b"objects block[16] : 64;\nmain {\n    for i in 0 .. ";

/// The declarations of a task, and the loop over its cells.
const TASK: &[u8] =
    b" {\n        withonly { rd(block[7 * i % 16]); rd_wr(block[(5 * i + 3) % 16]); } do (i) {\n            for c in 0 .. 64 {\n";

/// What a task does with each cell.
const CELL: &[u8] =
    b"                block[(5 * i + 3) % 16][c] = (block[(5 * i + 3) % 16][c] + block[7 * i % 16][c]) / 2 + i + c;\n";

/// The ends of the blocks.
const ENDS: &[u8] = b"            }\n        }\n    }\n}\n";

/// The drill text of 1 to 10,000 tasks, at most 512 bytes: a program over sixteen objects of 64 cells, in
/// which task `i` reads the object of number `7 * i % 16` and changes each cell of that of number
/// `(5 * i + 3) % 16`.
pub fn drill_text(alloc: Global, tasks: u32) -> Result<Vec<u8>, Memory>
    requires { (1 ≤ tasks) × (tasks ≤ 10000) }
    ensures text { IfOk result (λ text. text.items ≡ drill_text tasks) }
    ensures short { IfOk result (λ text. length text.items ≤ 512) }
{
    let mut buffer = Buffer::new();
    let mut text = Vec::from_slice(alloc, HEAD)?;
    text.extend_from_slice(buffer.format(tasks).as_bytes())?;
    text.extend_from_slice(TASK)?;
    text.extend_from_slice(CELL)?;
    text.extend_from_slice(ENDS)?;
    Ok(text)
}
