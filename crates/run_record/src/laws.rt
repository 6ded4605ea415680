//! What is proved of recordings, for whoever stands on them.

ghost use Rattle.std.specs.Prelude.{ℕ, List};
ghost use Rattle.run_record.specs.Recording.{Recorded};
ghost use Rattle.run_record.specs.Laws.{IsDotted, IsLeast, NoneBreaks};

/// No recording begins with the lines up to the first that breaks the form, and none is refused.
pub fn none_breaks()
    ensures { (r : Recorded) (n : ℕ) (after : List ℕ) → NoneBreaks r n after }
{}

/// The lines before the first that breaks the form are the first lines of a recording, which has more.
pub fn is_least()
    ensures { (bytes : List ℕ) (n : ℕ) → IsLeast bytes n }
{}

/// A path is spelled with a dot between its numbers.
pub fn is_dotted()
    ensures { (path : List ℕ) → IsDotted path }
{}
