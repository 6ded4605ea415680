//! What is proved of code, for whoever stands on it.

ghost use Rattle.std.specs.Prelude.{ℕ, ℤ, List};
ghost use Rattle.code_meaning.specs.Meaning.{Body};
ghost use Rattle.code_meaning.specs.Children.{ChildrenAre, RootIs};

/// A later body that a body creates does what its code says.
pub fn children_are()
    ensures { (zs : List ℤ) (limit : ℕ) (bodies : List Body) → ChildrenAre zs limit bodies }
{}

/// The whole code does what its first body does.
pub fn root_is()
    ensures { (zs : List ℤ) (limit : ℕ) (bodies : List Body) → RootIs zs limit bodies }
{}
