//! One happening: its preconditions, its costs, its clashes, and the state after it.

ghost use Rattle.std.specs.Prelude.{◌≡◌, ◌≤◌, ◌<◌, ◌*◌, ⊤, ◌∷◌, [], All, IfErr, IfOk, MatchOption, length, not, ◌&&◌, ◌||◌};
ghost use Rattle.pddl_state.specs.Atoms.{AtomValue};
ghost use Rattle.pddl_happenings.specs.Accepted.{after, cost_of, IsReady, IsFine};
ghost use Rattle.pddl_happenings.specs.Failures.{IsFirstUnready, IsFirstClash};
ghost use Rattle.pddl_judge.specs.Verdicts.{IsLeast};
ghost use Rattle.pddl_judge.specs.Stages.{Passes, FailsBy};

use crate::clash::{Clash, clash_in_row, first_row};
use crate::course::Course;
use crate::refusal::Refusal;
use crate::touch::nothing_touched;
use pddl_state::AtomStore;
use std::alloc::{AllocError, Allocator};

/// The first step of a happening whose precondition is false.
fn first_unready<A: Allocator, S: AtomStore<A>, P: Course<A, S>>(
    course: &P,
    group: &[u32],
    store: &S,
    state: &S::Set,
) -> Result<Option<u32>, AllocError>
    requires steps { All (λ k. k < P.count_of course.now) group.now }
    requires own { S.owns store.now state.now }
    ensures { IfOk result (λ found. MatchOption found (All (IsReady (P.steps_of course.now) (S.content store.now state.now)) group.now) (λ k. IsFirstUnready (P.steps_of course.now) (S.content store.now state.now) group.now k)) }
{
    for (i, step) in group.iter().enumerate() {
        let ready = course.holds(*step, store, state)?;
        if !ready {
            return Ok(Some(*step));
        }
    }
    Ok(None)
}

/// What the steps of a happening cost in a state.
fn group_cost<A: Allocator, S: AtomStore<A>, P: Course<A, S>>(
    course: &P,
    group: &[u32],
    store: &S,
    state: &S::Set,
) -> Result<u128, AllocError>
    requires steps { All (λ k. k < P.count_of course.now) group.now }
    requires own { S.owns store.now state.now }
    requires few { length group.now ≤ 1000000 }
    ensures value { IfOk result (λ c. c ≡ cost_of (P.steps_of course.now) (S.content store.now state.now) group.now) }
    ensures bound { IfOk result (λ c. c ≤ length group.now * 18446744073709551616000000) }
{
    let mut total = 0;
    for step in group {
        total += course.cost(*step, store, state)?;
    }
    Ok(total)
}

/// The state after what is added and deleted at once: first without all deletes, then with all adds.
fn apply<A: Allocator, S: AtomStore<A>>(
    store: &S,
    state: &mut S::Set,
    adds: &S::Set,
    dels: &S::Set,
) -> Result<(), AllocError>
    requires own { S.owns store.now state.old }
    requires adds_own { S.owns store.now adds.now }
    requires dels_own { S.owns store.now dels.now }
    ensures own { IfOk result (λ _. S.owns store.now state.new) }
    ensures content { IfOk result (λ _. (a : AtomValue) → S.content store.now state.new a ≡ ((S.content store.now state.old a && not (S.content store.now dels.now a)) || S.content store.now adds.now a)) }
{
    store.subtract(state, dels);
    store.unite(state, adds)
}

/// The state after a step alone: first without all that it deletes, then with all that it adds. A step does not interfere with
/// itself, so its reads are not made. Fails only for want of memory.
pub fn apply_alone<A: Allocator, S: AtomStore<A>, P: Course<A, S>>(
    course: &P,
    step: u32,
    store: &mut S,
    state: &mut S::Set,
) -> Result<(), AllocError>
    requires step { step < P.count_of course.now }
    requires own { S.owns store.old state.old }
    ensures own { IfOk result (λ _. S.owns store.new state.new) }
    ensures content { IfOk result (λ _. S.content store.new state.new ≡ after (P.steps_of course.now) (S.content store.old state.old) (step ∷ [])) }
{
    let (adds, dels) = course.fired(step, store, state)?;
    apply(store, state, &adds, &dels)
}

/// The first clash of a happening, or else the state after it.
fn apply_together<A: Allocator, S: AtomStore<A>, P: Course<A, S>>(
    course: &P,
    group: &[u32],
    store: &mut S,
    state: &mut S::Set,
) -> Result<Option<Clash<A>>, AllocError>
    requires steps { All (λ k. k < P.count_of course.now) group.now }
    requires own { S.owns store.old state.old }
    requires ready { All (IsReady (P.steps_of course.now) (S.content store.old state.old)) group.now }
    ensures own { IfOk result (λ found. MatchOption found (S.owns store.new state.new) (λ c. ⊤)) }
    ensures content { IfOk result (λ found. MatchOption found (S.content store.new state.new ≡ after (P.steps_of course.now) (S.content store.old state.old) group.now) (λ c. ⊤)) }
    ensures fine { IfOk result (λ found. MatchOption found (IsFine (P.steps_of course.now) (S.content store.old state.old) group.now) (λ c. IsFirstClash (P.steps_of course.now) (IsLeast c.atom) (S.content store.old state.old) group.now c.first c.second)) }
{
    let mut touched = nothing_touched(store);
    match first_row(course, group, store, state, &mut touched)? {
        Some(place) => clash_in_row(course, group, place, store, state),
        None => {
            apply(store, state, &touched.adds, &touched.dels)?;
            Ok(None)
        }
    }
}

/// Executes a happening of a number in a state, as far as it goes; answers what it costs, or why it fails.
pub(crate) fn pass<A: Allocator, S: AtomStore<A>, P: Course<A, S>>(
    course: &P,
    happening: usize,
    group: &[u32],
    store: &mut S,
    state: &mut S::Set,
) -> Result<Result<u128, Refusal<A>>, AllocError>
    requires steps { All (λ k. k < P.count_of course.now) group.now }
    requires few { length group.now ≤ 1000000 }
    requires own { S.owns store.old state.old }
    ensures own { IfOk result (λ r. IfOk r (λ cost. S.owns store.new state.new)) }
    ensures passes { IfOk result (λ r. IfOk r (λ cost. Passes (P.steps_of course.now) (S.content store.old state.old) group.now (S.content store.new state.new) cost)) }
    ensures bound { IfOk result (λ r. IfOk r (λ cost. cost ≤ length group.now * 18446744073709551616000000)) }
    ensures fails { IfOk result (λ r. IfErr r (FailsBy (P.steps_of course.now) (S.content store.old state.old) group.now happening)) }
{
    match first_unready(course, group, store, state)? {
        Some(step) => return Ok(Err(Refusal::Precondition { happening, step })),
        None => {}
    }
    let cost = group_cost(course, group, store, state)?;
    if group.len() == 1 {
        apply_alone(course, group[0], store, state)?;
        return Ok(Ok(cost));
    }
    match apply_together(course, group, store, state)? {
        Some(clash) => Ok(Err(Refusal::Interference {
            happening,
            first: clash.first,
            second: clash.second,
            atom: clash.atom,
        })),
        None => Ok(Ok(cost)),
    }
}
