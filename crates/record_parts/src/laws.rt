//! What is proved of the turns of a run, for whoever records it.

ghost use Rattle.std.specs.Prelude.{ℕ, ℤ, List, All};
ghost use Rattle.jade_meaning.specs.Turns.{Full, turns_in};
ghost use Rattle.jade_syntax.specs.Abstract.{AbstractProgram};
ghost use Rattle.record_parts.specs.Named.{IsRooted};

/// The turn lists of a run, where they are full, have paths that begin at the root.
pub fn turns_are_rooted()
    ensures { (p : AbstractProgram) (numbers : List ℤ) (limit : ℕ) (lists : List (List (List ℕ))) → Full p numbers limit (turns_in lists)
        → All (All IsRooted) lists }
{}
