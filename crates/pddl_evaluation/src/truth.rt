//! Truth of conditions.

ghost use Rattle.std.specs.Prelude.{◌≡◌, ◌∷◌, IfOk};
ghost use Rattle.std.specs.List.{list_any, list_all};
ghost use Rattle.pddl_compiled.specs.Views.{condition_view, conditions_view, frame_view};
ghost use Rattle.pddl_compiled.specs.CompiledMeaning.{is_true, are_true, is_some_true};

use crate::filled::has_filled;
use pddl_compiled::{Condition, Frame, object_in};
use pddl_state::{Atom, AtomStore};
use std::alloc::{AllocError, Allocator};

/// Whether a condition is true in a set of a store. The atom is for the atoms that are looked up.
#[cycle(holds)]
pub fn is_true<'f, A: Allocator, B: Allocator, S: AtomStore<B>>(
    condition: &'f Condition<A>,
    frame: &'f Frame<'f>,
    atom: &mut Atom<B>,
    store: &S,
    set: &S::Set,
) -> Result<bool, AllocError>
    requires { S.owns store.now set.now }
    ensures { IfOk result (λ yes. yes ≡ is_true (S.content store.now set.now) (condition_view condition.now) (frame_view frame.now)) }
{
    match condition {
        Condition::Known(answer) => Ok(*answer),
        Condition::Atom(predicate, places) => {
            has_filled(atom, *predicate, places, &*frame, store, set)
        }
        Condition::Equal(left, right) => {
            Ok(object_in(&*frame, *left) == object_in(&*frame, *right))
        }
        Condition::Not(inner) => Ok(!is_true(inner, &*frame, atom, store, set)?),
        Condition::And(parts) => are_true(parts, &*frame, atom, store, set),
        Condition::Or(parts) => is_some_true(parts, &*frame, atom, store, set),
        Condition::Imply(left, right) => {
            if is_true(left, &*frame, atom, store, set)? {
                is_true(right, &*frame, atom, store, set)
            } else {
                Ok(true)
            }
        }
        Condition::Exists(range, inner) => {
            is_true_of_some(range, inner, &*frame, atom, store, set)
        }
        Condition::Forall(range, inner) => is_true_of_all(range, inner, &*frame, atom, store, set),
    }
}

#[cycle(holds)]
fn are_true<'f, A: Allocator, B: Allocator, S: AtomStore<B>>(
    conditions: &'f [Condition<A>],
    frame: &'f Frame<'f>,
    atom: &mut Atom<B>,
    store: &S,
    set: &S::Set,
) -> Result<bool, AllocError>
    requires { S.owns store.now set.now }
    ensures { IfOk result (λ yes. yes ≡ are_true (S.content store.now set.now) (conditions_view conditions.now) (frame_view frame.now)) }
{
    for condition in conditions {
        if !is_true(condition, &*frame, atom, store, set)? {
            return Ok(false);
        }
    }
    Ok(true)
}

#[cycle(holds)]
fn is_some_true<'f, A: Allocator, B: Allocator, S: AtomStore<B>>(
    conditions: &'f [Condition<A>],
    frame: &'f Frame<'f>,
    atom: &mut Atom<B>,
    store: &S,
    set: &S::Set,
) -> Result<bool, AllocError>
    requires { S.owns store.now set.now }
    ensures { IfOk result (λ yes. yes ≡ is_some_true (S.content store.now set.now) (conditions_view conditions.now) (frame_view frame.now)) }
{
    for condition in conditions {
        if is_true(condition, &*frame, atom, store, set)? {
            return Ok(true);
        }
    }
    Ok(false)
}

/// Whether a condition is true of some object of a range.
#[cycle(holds)]
fn is_true_of_some<'f, A: Allocator, B: Allocator, S: AtomStore<B>>(
    range: &'f [usize],
    condition: &'f Condition<A>,
    frame: &'f Frame<'f>,
    atom: &mut Atom<B>,
    store: &S,
    set: &S::Set,
) -> Result<bool, AllocError>
    requires { S.owns store.now set.now }
    ensures { IfOk result (λ yes. yes ≡ list_any (λ o. is_true (S.content store.now set.now) (condition_view condition.now) (o ∷ frame_view frame.now)) range.now) }
{
    for object in range {
        let bound = Frame::Bound(*object, &*frame);
        if is_true(condition, &bound, atom, store, set)? {
            return Ok(true);
        }
    }
    Ok(false)
}

/// Whether it is true of each.
#[cycle(holds)]
fn is_true_of_all<'f, A: Allocator, B: Allocator, S: AtomStore<B>>(
    range: &'f [usize],
    condition: &'f Condition<A>,
    frame: &'f Frame<'f>,
    atom: &mut Atom<B>,
    store: &S,
    set: &S::Set,
) -> Result<bool, AllocError>
    requires { S.owns store.now set.now }
    ensures { IfOk result (λ yes. yes ≡ list_all (λ o. is_true (S.content store.now set.now) (condition_view condition.now) (o ∷ frame_view frame.now)) range.now) }
{
    for object in range {
        let bound = Frame::Bound(*object, &*frame);
        if !is_true(condition, &bound, atom, store, set)? {
            return Ok(false);
        }
    }
    Ok(true)
}
