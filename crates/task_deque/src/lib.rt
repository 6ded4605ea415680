//! Deques of ready tasks, one for each worker, under a rule: what was put into a deque is what was
//! taken out of it and what still lies there, each task once, and only the owner puts.
//!
//! The owner takes the task that it put last, and others take the one that was put first.
//!
//! Each call keeps the rule, so it holds at every moment, whatever the threads do. It is over the
//! histories of all handles of a deque: its owner's, and that of each visit by which others steal. What
//! a call adds to the history of its handle is told by its contract. A handle does not know the others'
//! histories; so of the rule the clauses tell what the owner's history shows alone: the owner took no
//! task more often than it was put, and no more tasks lie there than were put and not taken by the
//! owner.
//!
//! What no clause says: when `None`, `Empty` and `Retry` come, that a task which is stolen was put, how
//! many tasks lie there at least, in which order tasks leave a deque, that a task which lies there is
//! ever taken, and how long a call takes.
//!
//! Floor `running`, with `crossbeam_deque` of the kit.
#![tactic(auto)]

ghost use Rattle.std.specs.Prelude.{◌≡◌, ◌≤◌, ◌+◌, [], ◌∷◌, ◌++◌, true, false, IfErr, IfOk, MatchResult, MatchOption, length};
ghost use Rattle.crossbeam_deque.specs.Handles.{IsPassOf, stealer_deque, view, worker_capacity, worker_deque, worker_flavor, worker_index, worker_view};
ghost use Rattle.crossbeam_deque.specs.Steals.{MatchSteal};
ghost use Rattle.task_deque.specs.Histories.{TookOfPut, history};

use crossbeam_deque::protocol::{Lesson, Outcome, Protocol};
use crossbeam_deque::{Pass, Steal, Stealer, Worker};
use std::alloc::{AllocError, Global};
use std::collections::LinkedList;

/// The slots with which a deque begins; it grows as it must.
const FIRST_SLOTS: usize = 16;

/// Whether a handle of a deque is its owner's, and what it has put into the deque and taken out of it,
/// in the order in which it did. It stands in contracts only; no value of it is made.
pub struct History<T> {
    pub owns: bool,
    pub put: LinkedList<T>,
    pub taken: LinkedList<T>,
}

/// The rule: what all handles put is what they took and what still lies in the deque. At most one of
/// them is the owner's, and only it puts.
pub struct Balanced;

impl<T> Protocol<T, History<T>> for Balanced {
    ghost use Rattle.std.specs.Prelude.{[], true, false};
    ghost use Rattle.task_deque.specs.Histories.{history, IsBalanced};

    ghost holds = { IsBalanced };

    ghost first = { history true [] [] };

    ghost guest = { history false [] [] };
}

/// What a call that puts tells: these tasks were put last.
pub struct Put;

impl<T> Outcome<T, History<T>> for Put {
    ghost use Rattle.std.specs.Prelude.{◌≡◌, ◌++◌};
    ghost use Rattle.task_deque.specs.Histories.{history};

    ghost then = { λ h xs g. g ≡ history h.owns (h.put ++ xs) h.taken };
}

/// What a call of the owner that takes tells: these tasks were taken last, and the owner took no task
/// more often than it was put.
pub struct Took;

impl<T> Outcome<T, History<T>> for Took {
    ghost use Rattle.std.specs.Prelude.{◌≡◌, ◌++◌};
    ghost use Rattle.task_deque.specs.Histories.{TookOfPut, history};

    ghost then = { λ h xs g. (g ≡ history h.owns h.put (h.taken ++ xs)) × TookOfPut g };
}

/// What a call of another worker that takes tells: these tasks were taken last.
pub struct Stole;

impl<T> Outcome<T, History<T>> for Stole {
    ghost use Rattle.std.specs.Prelude.{◌≡◌, ◌++◌};
    ghost use Rattle.task_deque.specs.Histories.{history};

    ghost then = { λ h xs g. g ≡ history h.owns h.put (h.taken ++ xs) };
}

/// What a look of the owner at the deque tells: no more tasks lie there than were put and not taken by
/// the owner.
pub struct Looked;

impl<T> Lesson<T, History<T>> for Looked {
    ghost use Rattle.std.specs.Prelude.{◌≤◌, ◌+◌, length};

    ghost fact = { λ h items. length items + length h.taken ≤ length h.put };
}

/// A deque as its worker holds it: its history is the one that owns. It has at least the slots with
/// which it began, and the index of its next put is at most the number of tasks that were put.
#[derive(Drop)]
pub struct Owner<T> {
    pub worker: Worker<T, Global, History<T>, Balanced>,
    ghost owns: { (worker_view worker).owns ≡ true },
    ghost slots: { 16 ≤ worker_capacity worker },
    ghost index: { worker_index worker ≤ length (worker_view worker).put },
}

/// A deque as the other workers hold it.
pub type Thief<T> = Stealer<T, Global, History<T>, Balanced>;

/// A visit of another worker to a deque, with its history.
pub type Visit<T> = Pass<T, History<T>, Global>;

/// An empty deque, of which the owner takes what it put last.
pub fn empty<T: Drop>(alloc: Global) -> Result<Owner<T>, AllocError>
    ensures history { IfOk result (λ owner. worker_view owner.worker ≡ history true [] []) }
    ensures lifo { IfOk result (λ owner. worker_flavor owner.worker ≡ 1) }
{
    let worker = Worker::<T, Global, History<T>, Balanced>::lifo_as(alloc, FIRST_SLOTS)?;
    Ok(Owner { worker })
}

/// The deque for another worker.
pub fn thief_of<T: Drop>(owner: &Owner<T>) -> Result<Thief<T>, AllocError>
    ensures { IfOk result (λ thief. stealer_deque thief ≡ worker_deque owner.now.worker) }
{
    owner.worker.stealer()
}

/// Puts a task last. The error hands the task back, and the owner's history is as it was: there was
/// no memory, or the deque can't grow any more. It comes only once 16 tasks were put.
pub fn put_task<T: Drop>(owner: &mut Owner<T>, task: T) -> Result<(), T>
    ensures put { MatchResult result (λ _. worker_view owner.new.worker ≡ history (worker_view owner.old.worker).owns ((worker_view owner.old.worker).put ++ task ∷ []) (worker_view owner.old.worker).taken)
        (λ back. (back ≡ task) × (worker_view owner.new.worker ≡ worker_view owner.old.worker)) }
    ensures same { (worker_deque owner.new.worker ≡ worker_deque owner.old.worker) × (worker_flavor owner.new.worker ≡ worker_flavor owner.old.worker) }
    ensures refused { IfErr result (λ _. 16 ≤ length (worker_view owner.old.worker).put) }
{
    owner.worker.push_as::<Put>(task)
}

/// Takes a task that was put: the owner took no task more often than it was put. With `None` its
/// history is as it was. When `None` comes is told by no clause, since a handle does not know what the
/// others took. By the kit's statement of `pop_as` nothing lay in the deque at one moment of the call.
pub fn take_task<T: Drop>(owner: &mut Owner<T>) -> Option<T>
    ensures taken { MatchOption result (worker_view owner.new.worker ≡ worker_view owner.old.worker)
        (λ task. (worker_view owner.new.worker ≡ history (worker_view owner.old.worker).owns (worker_view owner.old.worker).put ((worker_view owner.old.worker).taken ++ task ∷ [])) × TookOfPut (worker_view owner.new.worker)) }
    ensures same { (worker_deque owner.new.worker ≡ worker_deque owner.old.worker) × (worker_flavor owner.new.worker ≡ worker_flavor owner.old.worker) }
{
    owner.worker.pop_as::<Took>()
}

/// A visit to a deque, which has put and taken nothing yet.
pub fn visit<T: Drop>(thief: &Thief<T>) -> Visit<T>
    ensures history { view result ≡ history false [] [] }
    ensures of { IsPassOf (stealer_deque thief.now) result }
{
    thief.pass()
}

/// Takes a task out of another worker's deque. With `Empty` and `Retry` the visit's history is as it
/// was. When these come is told by no clause, nor that a task which comes was put, since a visit does
/// not know what the owner put and the others took. By the kit's statement of `steal_as` at most one
/// task lay there at one moment of the call, or, with `Retry` alone, a task left since the visit last
/// looked.
pub fn steal_task<T: Drop>(thief: &Thief<T>, visit: &mut Visit<T>) -> Steal<T>
    requires { IsPassOf (stealer_deque thief.now) visit.old }
    ensures taken { MatchSteal result (view visit.new ≡ view visit.old) (view visit.new ≡ view visit.old)
        (λ task. view visit.new ≡ history (view visit.old).owns (view visit.old).put ((view visit.old).taken ++ task ∷ [])) }
    ensures of { IsPassOf (stealer_deque thief.now) visit.new }
{
    thief.steal_as::<Stole>(visit)
}

/// The number of tasks that lie in the deque at one moment of the call, by the kit's statement of
/// `len_as`. The clause says that it is at most the number of those that were put and not taken by the
/// owner: how many of these the others took is not known to it.
pub fn waiting<T: Drop>(owner: &mut Owner<T>) -> usize
    ensures most { result + length (worker_view owner.old.worker).taken ≤ length (worker_view owner.old.worker).put }
    ensures same { (worker_view owner.new.worker ≡ worker_view owner.old.worker) × (worker_deque owner.new.worker ≡ worker_deque owner.old.worker) }
{
    owner.worker.len_as::<Looked>()
}

#[cfg(test)]
mod tests {
    use super::*;
    use std::test::Fail;

    #[test]
    fn what_was_put_is_taken_or_stolen(rt: HostRuntime) -> Result<(), Fail> {
        let mut owner = empty(rt.alloc())?;
        let thief = thief_of(&owner)?;
        for task in [3u32, 1, 4] {
            assert_eq!(rt; put_task(&mut owner, task), Ok(()));
        }
        assert_eq!(rt; waiting(&mut owner), 3);
        let mut visit = visit(&thief);
        assert_eq!(rt; steal_task(&thief, &mut visit).success(), Some(3));
        assert_eq!(rt; take_task(&mut owner), Some(4));
        assert_eq!(rt; take_task(&mut owner), Some(1));
        assert_eq!(rt; take_task(&mut owner), None);
        assert_eq!(rt; waiting(&mut owner), 0);
        Ok(())
    }
}
