//! The top call.

ghost use Rattle.std.specs.Prelude.{◌≡◌, ◌≤◌, [], length, IfOk, IfErr, MatchResult, codes};
ghost use Rattle.jade_run.specs.Headline.{Answers, Headline, Stops};
ghost use Rattle.jade_run.specs.Answered.{BySomeTurns};
ghost use Rattle.jade_run.specs.Outcome.{IsAllowed};
ghost use Rattle.jade_run.specs.Standing.{first_place};
ghost use Rattle.jade_run.specs.Witnessed.{Carried};
ghost use Rattle.jade_run.specs.Words.{NeedsNoText};
ghost use Rattle.jade_run.specs.Texts.{refused_text, usage_text};

use crate::answer::{Answer, check_text, expand_text, show_text};
use crate::drill::run_drill;
use crate::record::record_text;
use crate::replay::replay_text;
use crate::run::{run_text, serial_text};
use crate::standing::FIRST_PLACE;
use crate::status::Status;
use crate::texts;
use crate::witness::Witness;
use crate::words::{Command, WordsError, command_of};
use jade_base::{Memory, Sink, Source, TextError, Word, read_text, write_text};
use std::alloc::Global;
use std::sync::Wait;
use std::thread::Threads;
use steal_workers::Gate;

/// Runs the command that the words after the program's name ask for: reads the text from the
/// source where they are those of a command that works on one, writes what it comes to, and answers
/// the status. For a drill and for refused words nothing is read.
///
/// `run`, `drill` and `record` run the tasks on as many workers as the words say, the caller among
/// them, and `record` writes a recording of the run, by which `replay` checks its answer. What they
/// write does not depend on that, nor on the gate, but for the order in which tasks take their
/// turns that commute. The witness is shown what such a run did, with the turns, where it comes to an
/// answer, before that is written; what is written is the outcome by these turns. `replay` runs its
/// tasks on the caller alone, lets them through no gate and shows the witness nothing.
///
/// The words are tested first, then the length of the text, then the text. The whole text of the
/// answer is built before its first byte is written.
pub fn jade_main<R: Threads + Wait + Sync, S: Source, K: Sink, G: Gate, W: Witness>(
    rt: &R,
    alloc: Global,
    words: &[Word],
    source: &mut S,
    sink: &mut K,
    gate: &G,
    witness: &mut W,
) -> Status
    ensures unread { NeedsNoText words.now → (source.new ≡ source.old) × (result ≡ Status.Reading → ⊥) }
    ensures headline { Headline words.now result
        (record {
          left = S.left source.old;
          taken = K.taken sink.old;
          room = K.room sink.old;
          source_faults = S.faults source.old;
          sink_faults = K.faults sink.old;
          seen = W.seen witness.old;
        })
        (record {
          left = S.left source.new;
          taken = K.taken sink.new;
          room = K.room sink.new;
          source_faults = S.faults source.new;
          sink_faults = K.faults sink.new;
          seen = W.seen witness.new;
        }) }
{
    match answer(rt, alloc, words, source, gate, witness) {
        Ok(answer) => match write_text(sink, &answer.text) {
            Ok(()) => answer.status,
            Err(_) => Status::Writing,
        },
        Err(status) => status,
    }
}

/// What words and a source come to. The error is the status of a failed source, or of want of
/// memory.
fn answer<R: Threads + Wait + Sync, S: Source, G: Gate, W: Witness>(
    rt: &R,
    alloc: Global,
    words: &[Word],
    source: &mut S,
    gate: &G,
    witness: &mut W,
) -> Result<Answer, Status>
    ensures still { IfErr result (λ s. s ≡ Status.Reading → W.seen witness.new ≡ W.seen witness.old) }
    ensures unread { NeedsNoText words.now → (source.new ≡ source.old) × IfErr result (λ s. s ≡ Status.Memory) }
    ensures answer { MatchResult result
        (λ a. Answers words.now (S.left source.old) (S.left source.new) a.text.items a.status (W.seen witness.old) (W.seen witness.new))
        (λ s. Stops s (S.faults source.old) (S.faults source.new)) }
{
    let command = match command_of(alloc, words) {
        Ok(command) => command,
        Err(error) => return not_a_command(alloc, error),
    };
    if !command.works_on_text() {
        return without_text(rt, alloc, &command, gate, witness);
    }
    match read_text(alloc, source) {
        Ok(text) => match of_text(rt, alloc, &command, &text, gate, witness) {
            Ok(answer) => Ok(answer),
            Err(Memory) => Err(Status::Memory),
        },
        Err(TextError::TooLong) => match too_long(alloc) {
            Ok(answer) => Ok(answer),
            Err(Memory) => Err(Status::Memory),
        },
        Err(TextError::Failed) => Err(Status::Reading),
        Err(TextError::Memory) => Err(Status::Memory),
    }
}

/// What a command comes to that works on no text. The error is the status of want of memory.
fn without_text<R: Threads + Wait + Sync, G: Gate, W: Witness>(
    rt: &R,
    alloc: Global,
    command: &Command,
    gate: &G,
    witness: &mut W,
) -> Result<Answer, Status>
    requires { IsAllowed command.now }
    ensures answer { IfOk result (λ a. BySomeTurns
        (λ turns. Carried command.now [] turns a.text.items a.status (W.seen witness.old) (W.seen witness.new))) }
    ensures memory { IfErr result (λ s. s ≡ Status.Memory) }
{
    match of_text(rt, alloc, command, &[], gate, witness) {
        Ok(answer) => Ok(answer),
        Err(Memory) => Err(Status::Memory),
    }
}

/// What a command comes to on a text of at most 1,048,576 bytes.
fn of_text<R: Threads + Wait + Sync, G: Gate, W: Witness>(
    rt: &R,
    alloc: Global,
    command: &Command,
    text: &[u8],
    gate: &G,
    witness: &mut W,
) -> Result<Answer, Memory>
    requires within { length text.now ≤ 1048576 }
    requires allowed { IsAllowed command.now }
    ensures { IfOk result (λ a. BySomeTurns
        (λ turns. Carried command.now text.now turns a.text.items a.status (W.seen witness.old) (W.seen witness.new))) }
{
    match command {
        Command::Run(workers, execution) => {
            let numbers = execution.numbers.as_slice();
            run_text(
                rt,
                alloc,
                text,
                numbers,
                *workers,
                execution.limit,
                gate,
                witness,
            )
        }
        Command::Serial(execution) => {
            serial_text(alloc, text, execution.numbers.as_slice(), execution.limit)
        }
        Command::Check => check_text(alloc, text),
        Command::Show => show_text(alloc, text),
        Command::Drill(tasks, workers) => run_drill(rt, alloc, *tasks, *workers, gate, witness),
        Command::Record(workers, execution) => {
            let numbers = execution.numbers.as_slice();
            record_text(
                rt,
                alloc,
                text,
                numbers,
                *workers,
                execution.limit,
                gate,
                witness,
            )
        }
        Command::Replay => replay_text(rt, alloc, text),
        Command::Expand => expand_text(alloc, text),
    }
}

/// What words are answered with that are no command's.
fn not_a_command(alloc: Global, error: WordsError) -> Result<Answer, Status>
    ensures usage { IfOk result (λ a. (error ≡ WordsError.Usage) × (a.text.items ≡ usage_text) × (a.status ≡ Status.Words)) }
    ensures memory { IfErr result (λ s. s ≡ Status.Memory) }
{
    match error {
        WordsError::Usage => match usage(alloc) {
            Ok(answer) => Ok(answer),
            Err(Memory) => Err(Status::Memory),
        },
        WordsError::Memory => Err(Status::Memory),
    }
}

/// What refused words are answered with.
fn usage(alloc: Global) -> Result<Answer, Memory>
    ensures text { IfOk result (λ a. a.text.items ≡ usage_text) }
    ensures status { IfOk result (λ a. a.status ≡ Status.Words) }
{
    Ok(Answer {
        text: Vec::from_slice(alloc, b"usage\n")?,
        status: Status::Words,
    })
}

/// What a text that is too long is answered with.
fn too_long(alloc: Global) -> Result<Answer, Memory>
    ensures text { IfOk result (λ a. a.text.items ≡ refused_text first_place (codes "text")) }
    ensures status { IfOk result (λ a. a.status ≡ Status.Refused) }
{
    Ok(Answer {
        text: texts::refused(alloc, FIRST_PLACE, b"text")?,
        status: Status::Refused,
    })
}
