//! The words of what is printed.

use crate::Stop;
use jade_base::{Mode, Path};
use jade_meaning::walker::{Act, Carried};
use object_shelf::Entry;
use std::alloc::Global;

/// A path's numbers with dots.
pub(crate) fn path_word(alloc: Global, path: &Path) -> Result<String, Stop> {
    let mut text = String::new(alloc);
    for number in path.numbers() {
        let dot = if text.is_empty() { "" } else { "." };
        let piece = format!(in alloc; "{dot}{number}")?;
        text.push_str(piece.as_str())?;
    }
    Ok(text)
}

/// A mode.
fn mode_word(mode: Mode) -> &'static str {
    match mode {
        Mode::Reading => "reading",
        Mode::Writing => "writing",
        Mode::Commuting => "commuting",
    }
}

/// An entry: its path, its hold and the first cell of the version that is kept for it.
pub(crate) fn entry_word(alloc: Global, entry: &Entry) -> Result<String, Stop> {
    let path = path_word(alloc, &entry.path)?;
    let hold = match entry.hold {
        Some(mode) => mode_word(mode),
        None => "waiting",
    };
    match &entry.version {
        Some(version) => {
            let cells = version.as_slice();
            let value = if cells.is_empty() { 0 } else { cells[0] };
            Ok(format!(in alloc; "{path}({hold}, keeps {value})")?)
        }
        None => Ok(format!(in alloc; "{path}({hold})")?),
    }
}

/// An event: what is done, and what it carries.
pub(crate) fn event_word(alloc: Global, act: Act, carried: Carried) -> Result<String, Stop> {
    let text = match (act, carried) {
        (Act::Take(object), Carried::Mode(mode)) => {
            let word = mode_word(mode);
            format!(in alloc; "takes {} for {word}", object.0)
        }
        (Act::Touch, Carried::Read(object, _)) => format!(in alloc; "reads {}", object.0),
        (Act::Touch, Carried::Write(object, _, value)) => {
            format!(in alloc; "writes {value} to {}", object.0)
        }
        (Act::Give(object), _) => format!(in alloc; "gives {}", object.0),
        (Act::Enter(object), _) => format!(in alloc; "enters its child on {}", object.0),
        (Act::Enroll, _) => format!(in alloc; "enrolls its child"),
        (Act::Shift(object), _) => format!(in alloc; "shifts its rights on {}", object.0),
        (Act::Leave(object), _) => format!(in alloc; "leaves {}", object.0),
        (Act::Resign, _) => format!(in alloc; "resigns"),
        _ => format!(in alloc; "does something else"),
    };
    Ok(text?)
}
