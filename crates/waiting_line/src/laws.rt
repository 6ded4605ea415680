//! Why it suffices to let the first of a line go, and the readers right behind it.

ghost use Rattle.std.specs.Prelude.{◌≡◌, ◌⊎◌, ℕ, true, false, List, ◌∷◌, Some, slice_get, is_some};
ghost use Rattle.jade_base.specs.declared.rights.Mode.TheVariants.{Reading, Writing, Commuting};
ghost use Rattle.object_shelf.specs.declared.queue.Entry.{Entry};
ghost use Rattle.object_shelf.specs.Order.{stands_before};
ghost use Rattle.object_shelf.specs.Shelves.{find, holder_in};
ghost use Rattle.waiting_line.specs.Waiters.{Waiter, Asks, Waits, Standing, InLine, BothCommute, may_take, let_go};

/// If a task may take an object, then so may each one that stands before it and is to take it.
pub fn first_may_too()
    ensures { (es : List Entry) → Standing es → (v w : Waiter) → Asks es v → stands_before v.path w.path ≡ true → may_take es w ≡ true → may_take es v ≡ true }
{}

/// If a task may take an object, and one that stands before it and waits for it too, then both are to
/// read it, or both are to commute.
pub fn both_read_or_commute()
    ensures { (es : List Entry) → Standing es → (v w : Waiter) → Waits es v → stands_before v.path w.path ≡ true → may_take es w ≡ true
        → ((v.mode ≡ Reading) × (w.mode ≡ Reading)) ⊎ BothCommute v w }
{}

/// A task for whom a version is kept may read at any time; so none that waits to read has one.
pub fn versions_wait_for_nobody()
    ensures { (es : List Entry) → Standing es → (w : Waiter) (e : Entry) → find w.path es ≡ Some e → is_some e.version ≡ true → w.mode ≡ Reading → may_take es w ≡ true }
{}

/// While the content is out, no task may take the object for commuting: of those that commute one at a
/// time holds it.
pub fn one_commutes()
    ensures { (es : List Entry) (w : Waiter) (e : Entry) → holder_in es ≡ Some e → w.mode ≡ Commuting → may_take es w ≡ false }
{}

/// If some task of a line may take the object, then the first may, and it is among those that are let
/// go; or it is to commute as the first is, which holds the content alone until it gives it back.
pub fn first_suffices()
    ensures { (es : List Entry) → Standing es → (v : Waiter) (ws : List Waiter) → InLine es (v ∷ ws) → (i : ℕ) (w : Waiter) → slice_get (v ∷ ws) i ≡ Some w
        → may_take es w ≡ true → (may_take es v ≡ true) × ((slice_get (let_go (v ∷ ws)) i ≡ Some w) ⊎ BothCommute v w) }
{}
