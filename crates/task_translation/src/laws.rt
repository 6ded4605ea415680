//! What is proved of the code of a program.

ghost use Rattle.std.specs.Prelude.{ℕ};
ghost use Rattle.jade_syntax.specs.Abstract.{AbstractProgram};
ghost use Rattle.task_translation.specs.Correct.{CodeFollows};

/// The code of a program does what the program does: on any numbers, as many as it has inputs, and
/// under any limit, the course of the code is the course of the program's root.
pub fn code_follows()
    ensures { (p : AbstractProgram) (limit : ℕ) → CodeFollows p limit }
{}
