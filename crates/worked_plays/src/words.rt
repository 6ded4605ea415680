//! The words of reports.

use jade_base::{Blame, FaultKind, Path};
use jade_syntax::StaticKind;
use std::alloc::Global;
use worked_case::Stop;

/// The word of a fault.
fn kind_word(kind: FaultKind) -> &'static str {
    match kind {
        FaultKind::Overflow => "overflow",
        FaultKind::Zero => "zero",
        FaultKind::Index => "index",
        FaultKind::Object => "object",
        FaultKind::Right => "right",
        FaultKind::Cover => "cover",
        FaultKind::Change => "change",
        FaultKind::Limit => "limit",
        FaultKind::Commute => "commute",
    }
}

/// The word of a static fault.
pub(crate) fn static_word(kind: StaticKind) -> &'static str {
    match kind {
        StaticKind::Name => "name",
        StaticKind::Twice => "twice",
        StaticKind::Kind => "kind",
        StaticKind::Assign => "assign",
        StaticKind::Size => "size",
    }
}

/// A task's path, with dots.
pub(crate) fn path_word(alloc: Global, path: &Path) -> Result<String, Stop> {
    let mut text = String::new(alloc);
    for number in path.numbers() {
        let dot = if text.is_empty() { "" } else { "." };
        let piece = format!(in alloc; "{dot}{number}")?;
        text.push_str(piece.as_str())?;
    }
    Ok(text)
}

/// The key of a part, with dots: the task's path and the number of its children.
pub(crate) fn key(alloc: Global, path: &Path, children: u32) -> Result<String, Stop> {
    let mut text = path_word(alloc, path)?;
    let last = format!(in alloc; ".{children}")?;
    text.push_str(last.as_str())?;
    Ok(text)
}

/// A fault's place, if it has one, and its kind.
pub(crate) fn blame(alloc: Global, blame: Blame) -> Result<String, Stop> {
    let kind = kind_word(blame.kind);
    let text = match blame.pos {
        Some(pos) => format!(in alloc; "{}:{} {kind}", pos.line, pos.column),
        None => format!(in alloc; "{kind}"),
    };
    Ok(text?)
}
