//! Paths, specifications and contents.

use crate::Stop;
use jade_base::content::SharedCells;
use jade_base::{Content, Mode, Numbers, ObjectId, Path, Right, Rights, Spec};
use std::alloc::Global;

const READS: Rights = Rights {
    reads: Right::Deferred,
    writes: Right::Absent,
    commutes: Right::Absent,
};

const WRITES: Rights = Rights {
    reads: Right::Absent,
    writes: Right::Immediate,
    commutes: Right::Absent,
};

/// Prints the last of four paths, and how they stand to one another.
fn show_order(
    rt: &HostRuntime,
    root: &Path,
    first: &Path,
    second: &Path,
    deep: &Path,
) -> Result<(), Stop> {
    println!(rt; "path {:?}", deep.numbers())?;
    println!(rt; "root to first child: {:?}", root.compare(first))?;
    println!(rt; "second child to grandchild: {:?}", second.compare(deep))?;
    println!(rt; "first child to grandchild: {:?}", first.compare(deep))?;
    println!(rt; "grandchild to itself: {:?}", deep.compare(deep))?;
    println!(rt; "the same: {} {}", deep.is_same(deep), deep.is_same(first))?;
    Ok(())
}

/// The eighth child of a task, whose path is made of a copy.
fn eighth_child(alloc: Global, task: &Path) -> Result<Path, Stop> {
    let copy = task.copy(alloc)?;
    Ok(copy.child(alloc, 7)?)
}

/// The root, its first two children and the eighth child of the first, each beside the next.
pub fn paths(rt: &HostRuntime) -> Result<(), Stop> {
    let alloc = rt.alloc();
    let root = Path::root(alloc)?;
    let first = root.child(alloc, 0)?;
    let second = root.child(alloc, 1)?;
    let deep = eighth_child(alloc, &first)?;
    show_order(rt, &root, &first, &second, &deep)
}

/// Prints the entries of a specification.
fn tell(rt: &HostRuntime, what: &str, spec: &Spec) -> Result<(), Stop> {
    println!(rt; "{what}: {} entries", spec.len())?;
    for place in 0..spec.len() {
        let (object, rights) = spec.entry(place);
        println!(rt;
            "  object {}: {:?} {:?}",
            object.0, rights.reads, rights.writes
        )?;
    }
    Ok(())
}

/// Declarations on three objects, of which one declares nothing, and a draft that is dropped and one
/// that is kept.
pub fn specifications(rt: &HostRuntime) -> Result<(), Stop> {
    let alloc = rt.alloc();
    let mut spec = Spec::empty(alloc);
    spec.declare(alloc, ObjectId(7), READS)?;
    spec.declare(alloc, ObjectId(2), WRITES)?;
    spec.declare(alloc, ObjectId(7), WRITES)?;
    spec.declare(alloc, ObjectId(4), Rights::NONE)?;
    tell(rt, "declared", &spec)?;
    spec.set_draft(0, READS);
    spec.drop_draft();
    tell(rt, "dropped", &spec)?;
    spec.set_draft(0, Rights::NONE);
    spec.set_draft(1, READS);
    let mut copy = spec.copy(alloc)?;
    copy.keep_draft();
    tell(rt, "kept", &copy)
}

/// Two cells.
fn two(alloc: Global) -> Result<Numbers, Stop> {
    let mut cells = Vec::new(alloc);
    cells.push(-3)?;
    cells.push(4)?;
    Ok(Numbers::from_vec(cells))
}

/// The number in a cell, or 0 where there is none.
fn cell(content: &Content, cell: usize) -> i64 {
    if cell < content.len() {
        content.get(cell)
    } else {
        0
    }
}

/// Another number in a cell, where there is one and it may be written.
fn put(content: &mut Content, cell: usize, number: i64) {
    if cell < content.len() && content.mode() == Mode::Writing {
        content.set(cell, number);
    }
}

/// A content that is written and copied, and cells that are shared, which nobody has alone until the
/// other reader lets go.
pub fn contents(rt: &HostRuntime) -> Result<(), Stop> {
    let alloc = rt.alloc();
    let mut content = Content::of(Mode::Writing, two(alloc)?);
    put(&mut content, 1, 9);
    let copy = content.copy(alloc, Mode::Reading)?;
    println!(rt;
        "{:?}: {} cells, {} and {}",
        copy.mode(),
        copy.len(),
        cell(&copy, 0),
        cell(&copy, 1)
    )?;
    let Ok(shared) = SharedCells::of(alloc, two(alloc)?) else {
        return Err(Stop);
    };
    let Ok(again) = shared.again() else {
        return Err(Stop);
    };
    let content = Content::shared(again);
    println!(rt; "shared: {}", cell(&content, 0))?;
    let mut shared = shared;
    if shared.take_out(alloc).is_some() {
        return Err(Stop);
    }
    drop(content);
    println!(rt; "alone: {}", shared.take_out(alloc).is_some())?;
    Ok(())
}
