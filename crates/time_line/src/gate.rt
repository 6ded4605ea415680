//! A gate that notes who came when.

use jade_base::Path;
use picture_base::Stop;
use std::alloc::Global;
use std::fs::Files;
use std::sync::atomic::{AtomicBool, Ordering};
use std::sync::{Mutex, Wait};
use std::time::Instant;
use steal_workers::Gate;

/// The link by which the system names the calling thread.
const THREAD: &str = "/proc/thread-self";

/// A task came to one of its asks: its path, the number of the ask, the time since the begin in
/// nanoseconds, and the system's number of the thread in which it was carried.
#[derive(Drop)]
struct Note {
    path: Path,
    ask: u64,
    time: u128,
    thread: u32,
}

/// The gate that holds nobody, and notes who came when.
#[derive(Drop)]
pub(crate) struct TimeGate<'s> {
    system: &'s HostRuntime,
    alloc: Global,
    begin: Instant,
    notes: Mutex<Vec<Note>>,
    // Whether a note could not be made.
    is_short: AtomicBool,
}

impl<'s> TimeGate<'s> {
    /// The gate of a run that begins now.
    pub(crate) fn new(system: &'s HostRuntime, alloc: Global) -> Result<TimeGate<'s>, Stop> {
        let begin = Instant::now(system)?;
        Ok(TimeGate {
            system,
            alloc,
            begin,
            notes: Mutex::new(Vec::new(alloc)),
            is_short: AtomicBool::new(false),
        })
    }

    /// The time since the begin.
    fn time(&self) -> Result<u128, Stop> {
        let now = Instant::now(self.system)?;
        Ok(now.saturating_duration_since(self.begin).as_nanos())
    }

    /// The number of the calling thread.
    fn thread(&self) -> Result<u32, Stop> {
        let link = self.system.read_link(self.alloc, THREAD)?;
        let Some(name) = link.file_name() else {
            return Err(Stop::Failed);
        };
        match name.parse::<u32>() {
            Ok(thread) => Ok(thread),
            Err(_) => Err(Stop::Failed),
        }
    }

    /// The note of an ask, now.
    fn note(&self, path: &Path, ask: u64) -> Result<Note, Stop> {
        Ok(Note {
            time: self.time()?,
            thread: self.thread()?,
            path: path.copy(self.alloc)?,
            ask,
        })
    }

    /// Prints the notes in the order in which they were made, and the time by now. The error is a note
    /// that could not be made, or a line that could not be printed.
    pub(crate) fn tell<R: Wait + Print>(&self, rt: &R, is_timed: bool) -> Result<(), Stop> {
        let end = self.time()?;
        if self.is_short.load(Ordering::SeqCst) {
            return Err(Stop::Failed);
        }
        let notes = self.notes.lock(rt);
        for place in 0..notes.len() {
            tell_note(rt, self.alloc, &notes[place], is_timed)?;
        }
        if is_timed {
            println!(rt; "over {end}")?;
        }
        Ok(())
    }
}

/// Prints a note.
fn tell_note<P: Print>(rt: &P, alloc: Global, note: &Note, is_timed: bool) -> Result<(), Stop> {
    let path = path_word(alloc, &note.path)?;
    let Note {
        ask,
        time,
        thread,
        ..
    } = note;
    if is_timed {
        println!(rt; "note {path} {ask} {time} {thread}")?;
    } else {
        println!(rt; "note {path} {ask}")?;
    }
    Ok(())
}

/// A path's numbers with dots.
fn path_word(alloc: Global, path: &Path) -> Result<String, Stop> {
    let mut text = String::new(alloc);
    for number in path.numbers() {
        let dot = if text.is_empty() { "" } else { "." };
        let piece = format!(in alloc; "{dot}{number}")?;
        text.push_str(piece.as_str())?;
    }
    Ok(text)
}

impl<'s> Gate for TimeGate<'s> {
    fn pass<R: Wait>(&self, rt: &R, path: &Path, ask: u64) {
        let is_noted = match self.note(path, ask) {
            Ok(note) => self.notes.lock(rt).push(note).is_ok(),
            Err(_) => false,
        };
        if !is_noted {
            self.is_short.store(true, Ordering::SeqCst);
        }
    }
}
