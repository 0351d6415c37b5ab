//! Steps executed one after another.

ghost use Rattle.std.specs.Prelude.{◌≡◌, ◌<◌, ◌≤◌, ◌∷◌, [], All, IfOk, IfErr, length};
ghost use Rattle.pddl_happenings.specs.Accepted.{after, after_all, cost_of_all};
ghost use Rattle.pddl_happenings.specs.Happenings.{singles};
ghost use Rattle.pddl_happenings.specs.Serialisations.{RunsSerially, FailsAt};

use pddl_judge::{Course, apply_alone};
use pddl_state::AtomStore;
use std::alloc::{AllocError, Allocator};

/// Executes steps one after another, up to the first whose precondition is false; answers what they cost, or its place.
pub(crate) fn run_serially<A: Allocator, S: AtomStore<A>, P: Course<A, S>>(
    course: &P,
    order: &[u32],
    store: &mut S,
    state: &mut S::Set,
) -> Result<Result<u128, usize>, AllocError>
    requires steps { All (λ k. k < P.count_of course.now) order.now }
    requires few { length order.now ≤ 1000000 }
    requires own { S.owns store.old state.old }
    ensures own { IfOk result (λ r. IfOk r (λ cost. S.owns store.new state.new)) }
    ensures runs { IfOk result (λ r. IfOk r (λ cost. RunsSerially (P.steps_of course.now) (S.content store.old state.old) order.now)) }
    ensures end { IfOk result (λ r. IfOk r (λ cost. S.content store.new state.new ≡ after_all (P.steps_of course.now) (S.content store.old state.old) (singles order.now))) }
    ensures cost { IfOk result (λ r. IfOk r (λ cost. cost ≡ cost_of_all (P.steps_of course.now) (S.content store.old state.old) (singles order.now))) }
    ensures fails { IfOk result (λ r. IfErr r (λ place. FailsAt (P.steps_of course.now) (S.content store.old state.old) order.now place)) }
{
    let mut cost = 0;
    for (i, step) in order.iter().enumerate() {
        let ready = course.holds(*step, store, state)?;
        if !ready {
            return Ok(Err(i));
        }
        cost += course.cost(*step, store, state)?;
        apply_alone(course, *step, store, state)?;
    }
    Ok(Ok(cost))
}
