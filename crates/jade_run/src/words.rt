//! What the words of a command ask for.

ghost use Rattle.std.specs.Prelude.{◌≡◌, ℕ, ◌↔◌, ◌∷◌, IsTrue, MatchOption, MatchResult};
ghost use Rattle.jade_run.specs.Words.{Asks, IsUsage, NoDrill, NoExecution, NoNumbers, NoRun, SpellsAmount, SpellsDrill, SpellsExecution, SpellsNumbers};
ghost use Rattle.jade_run.specs.Words.{SpellsRun, works_on_text};

use jade_base::{Numbers, Word};
use number_words::{number_of, signed_of};
use std::alloc::Global;

/// The most workers of a run or a drill.
const MOST_WORKERS: u32 = 64;

/// The most tasks of a drill.
const MOST_TASKS: u32 = 10_000;

/// The most numbers of a run.
const MOST_NUMBERS: usize = 64;

/// Whether a word is a text.
fn is_text(word: &[u8], text: &[u8]) -> bool
    ensures { IsTrue result ↔ (word.now ≡ text.now) }
{
    word == text
}

/// The number from 1 to the most allowed that a word spells.
fn amount_of(word: &[u8], most: u32) -> Option<u32>
    ensures { MatchOption result ((n : ℕ) → ¬ (SpellsAmount word.now most n)) (SpellsAmount word.now most) }
{
    match number_of(word) {
        Some(number) if 1 <= number && number <= most => Some(number),
        _ => None,
    }
}

/// What a program is executed with: the most steps, and the numbers for its inputs.
#[derive(Debug, Drop)]
pub struct Execution {
    pub limit: u32,
    pub numbers: Numbers,
}

/// What is asked for: that a text be run with so many workers, or serially, that it be checked, that
/// the layout of its program be shown, that a drill of so many tasks be run with so many workers, that
/// a run of a text with so many workers be recorded, that a recording be replayed, or that the
/// procedures of a text be expanded.
#[derive(Debug, Drop)]
pub enum Command {
    Run(u32, Execution),
    Serial(Execution),
    Check,
    Show,
    Drill(u32, u32),
    Record(u32, Execution),
    Replay,
    Expand,
}

impl Command {
    /// Whether it works on a text; a drill has its own.
    pub fn works_on_text(&self) -> bool
        ensures { result ≡ works_on_text self.now }
    {
        match self {
            Command::Run(_, _)
            | Command::Serial(_)
            | Command::Check
            | Command::Show
            | Command::Record(_, _)
            | Command::Replay
            | Command::Expand => true,
            Command::Drill(_, _) => false,
        }
    }
}

/// Why there is no command: the words are those of none, or there was no memory, which says
/// nothing of the words.
#[derive(Clone, Copy, Debug, PartialEq, Eq)]
pub enum WordsError {
    Usage,
    Memory,
}

/// The numbers that words spell, at most 64.
fn numbers_of(alloc: Global, words: &[Word]) -> Result<Numbers, WordsError>
    ensures { MatchResult result (SpellsNumbers words.now) (NoNumbers words.now) }
{
    if words.len() > MOST_NUMBERS {
        return Err(WordsError::Usage);
    }
    let mut numbers = Numbers::empty(alloc);
    for i in 0..words.len() {
        let Some(number) = signed_of(words[i].bytes()) else {
            return Err(WordsError::Usage);
        };
        if numbers.push(number).is_err() {
            return Err(WordsError::Memory);
        }
    }
    Ok(numbers)
}

/// The limit and the numbers that words spell.
fn execution_of(alloc: Global, words: &[Word]) -> Result<Execution, WordsError>
    ensures { MatchResult result (λ e. SpellsExecution words.now e.limit e.numbers) (NoExecution words.now) }
{
    let Some((limit, rest)) = words.split_first() else {
        return Err(WordsError::Usage);
    };
    let Some(limit) = amount_of(limit.bytes(), u32::MAX) else {
        return Err(WordsError::Usage);
    };
    match numbers_of(alloc, rest) {
        Ok(numbers) => Ok(Execution { limit, numbers }),
        Err(error) => Err(error),
    }
}

/// The workers, the limit and the numbers that words spell.
fn run_of(alloc: Global, words: &[Word]) -> Result<(u32, Execution), WordsError>
    ensures { MatchResult result (λ c. SpellsRun words.now c.0 c.1.limit c.1.numbers) (NoRun words.now) }
{
    let Some((workers, rest)) = words.split_first() else {
        return Err(WordsError::Usage);
    };
    let Some(workers) = amount_of(workers.bytes(), MOST_WORKERS) else {
        return Err(WordsError::Usage);
    };
    match execution_of(alloc, rest) {
        Ok(execution) => Ok((workers, execution)),
        Err(error) => Err(error),
    }
}

/// The tasks and the workers that words spell.
fn drill_of(words: &[Word]) -> Option<(u32, u32)>
    ensures { MatchOption result (NoDrill words.now) (λ c. SpellsDrill words.now c.0 c.1) }
{
    let Some((tasks, rest)) = words.split_first() else {
        return None;
    };
    let Some((workers, rest)) = rest.split_first() else {
        return None;
    };
    if !rest.is_empty() {
        return None;
    }
    let Some(tasks) = amount_of(tasks.bytes(), MOST_TASKS) else {
        return None;
    };
    let Some(workers) = amount_of(workers.bytes(), MOST_WORKERS) else {
        return None;
    };
    Some((tasks, workers))
}

/// The command of a name and the words after it.
fn named(alloc: Global, name: &[u8], rest: &[Word]) -> Result<Command, WordsError>
    ensures { MatchResult result (Asks (name.now ∷ rest.now)) (IsUsage (name.now ∷ rest.now)) }
{
    if is_text(name, b"run") {
        return match run_of(alloc, rest) {
            Ok((workers, execution)) => Ok(Command::Run(workers, execution)),
            Err(error) => Err(error),
        };
    }
    if is_text(name, b"record") {
        return match run_of(alloc, rest) {
            Ok((workers, execution)) => Ok(Command::Record(workers, execution)),
            Err(error) => Err(error),
        };
    }
    if is_text(name, b"serial") {
        return match execution_of(alloc, rest) {
            Ok(execution) => Ok(Command::Serial(execution)),
            Err(error) => Err(error),
        };
    }
    if is_text(name, b"drill") {
        return match drill_of(rest) {
            Some((tasks, workers)) => Ok(Command::Drill(tasks, workers)),
            None => Err(WordsError::Usage),
        };
    }
    if !rest.is_empty() {
        return Err(WordsError::Usage);
    }
    if is_text(name, b"check") {
        return Ok(Command::Check);
    }
    if is_text(name, b"show") {
        return Ok(Command::Show);
    }
    if is_text(name, b"replay") {
        return Ok(Command::Replay);
    }
    if is_text(name, b"expand") {
        return Ok(Command::Expand);
    }
    Err(WordsError::Usage)
}

/// The command that the words spell: `run WORKERS LIMIT NUMBER*`, `serial LIMIT NUMBER*`, `check`,
/// `show`, `drill TASKS WORKERS`, `record WORKERS LIMIT NUMBER*`, `replay` or `expand`, with 1 to 64
/// workers, a limit of 1 to 4,294,967,295 steps, at most 64 numbers of 64 bits with their signs, and
/// 1 to 10,000 tasks. The error is `Usage` exactly where they are none of these.
pub fn command_of(alloc: Global, words: &[Word]) -> Result<Command, WordsError>
    ensures { MatchResult result (Asks words.now) (IsUsage words.now) }
{
    match words.split_first() {
        Some((name, rest)) => named(alloc, name.bytes(), rest),
        None => Err(WordsError::Usage),
    }
}
