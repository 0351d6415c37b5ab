//! What changes cost.

ghost use Rattle.std.specs.Prelude.{◌≡◌, ◌≤◌, ◌∷◌, IfOk, sum_by};
ghost use Rattle.pddl_compiled.specs.CompiledMeaning.{spent, spent_in};
ghost use Rattle.pddl_compiled.specs.Views.{change_view, changes_view, frame_view};
ghost use Rattle.pddl_evaluation.specs.Costs.{increases_of, increases_in, most_increases, IsWithin};

use crate::truth::is_true;
use pddl_compiled::{Change, Frame, fill};
use pddl_state::{Atom, AtomStore};
use std::alloc::{AllocError, Allocator};

/// The prices of functions of objects, by numbers.
pub trait Prices<B: Allocator> {
    ghost use Rattle.std.specs.Prelude.{ℕ};
    ghost use Rattle.pddl_state.specs.Atoms.{AtomValue};

    ghost price: { Self → AtomValue → ℕ };

    /// The price of a function of objects, 0 where it has none.
    fn price(&self, atom: &Atom<B>) -> u64
        ensures { result ≡ price self.now atom.now };
}

/// What a change costs in a state. The atom is for the functions and atoms that are looked up.
///
/// Fails where memory for their objects is refused.
#[cycle(costs)]
pub fn spent<'f, A: Allocator, B: Allocator, S: AtomStore<B>, P: Prices<B>>(
    change: &'f Change<A>,
    frame: &'f Frame<'f>,
    atom: &mut Atom<B>,
    prices: &P,
    store: &S,
    state: &S::Set,
) -> Result<u128, AllocError>
    requires own { S.owns store.now state.now }
    requires few { increases_of (change_view change.now) ≤ most_increases }
    ensures spent { IfOk result (λ n. n ≡ spent (P.price prices.now) (S.content store.now state.now) (change_view change.now) (frame_view frame.now)) }
    ensures within { IfOk result (λ n. IsWithin (increases_of (change_view change.now)) n) }
{
    match change {
        Change::And(parts) => spent_by_all(parts, &*frame, atom, prices, store, state),
        Change::Forall(range, inner) => {
            spent_by_each(range, inner, &*frame, atom, prices, store, state)
        }
        Change::When(condition, inner) => {
            if is_true(condition, &*frame, atom, store, state)? {
                spent(inner, &*frame, atom, prices, store, state)
            } else {
                Ok(0)
            }
        }
        Change::Add(_, _) => Ok(0),
        Change::Del(_, _) => Ok(0),
        Change::Increase(function, places) => {
            fill(atom, *function, places, &*frame)?;
            Ok(prices.price(atom) as u128)
        }
        Change::IncreaseBy(amount) => Ok(*amount as u128),
    }
}

/// What changes cost together.
#[cycle(costs)]
fn spent_by_all<'f, A: Allocator, B: Allocator, S: AtomStore<B>, P: Prices<B>>(
    changes: &'f [Change<A>],
    frame: &'f Frame<'f>,
    atom: &mut Atom<B>,
    prices: &P,
    store: &S,
    state: &S::Set,
) -> Result<u128, AllocError>
    requires own { S.owns store.now state.now }
    requires few { increases_in (changes_view changes.now) ≤ most_increases }
    ensures spent { IfOk result (λ n. n ≡ spent_in (P.price prices.now) (S.content store.now state.now) (changes_view changes.now) (frame_view frame.now)) }
    ensures within { IfOk result (λ n. IsWithin (increases_in (changes_view changes.now)) n) }
{
    let mut total = 0u128;
    for change in changes {
        total += spent(change, &*frame, atom, prices, store, state)?;
    }
    Ok(total)
}

/// What a change costs for each object of a range together.
#[cycle(costs)]
fn spent_by_each<'f, A: Allocator, B: Allocator, S: AtomStore<B>, P: Prices<B>>(
    range: &'f [usize],
    change: &'f Change<A>,
    frame: &'f Frame<'f>,
    atom: &mut Atom<B>,
    prices: &P,
    store: &S,
    state: &S::Set,
) -> Result<u128, AllocError>
    requires own { S.owns store.now state.now }
    requires few { sum_by (λ o. increases_of (change_view change.now)) range.now ≤ most_increases }
    ensures spent { IfOk result (λ n. n ≡ sum_by (λ o. spent (P.price prices.now) (S.content store.now state.now) (change_view change.now) (o ∷ frame_view frame.now)) range.now) }
    ensures within { IfOk result (λ n. IsWithin (sum_by (λ o. increases_of (change_view change.now)) range.now) n) }
{
    let mut total = 0u128;
    for object in range {
        let bound = Frame::Bound(*object, &*frame);
        total += spent(change, &bound, atom, prices, store, state)?;
    }
    Ok(total)
}
