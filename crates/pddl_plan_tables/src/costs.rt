//! Functions of objects without a cost among those of a change.

ghost use Rattle.std.specs.Prelude.{◌≡◌, IfOk};
ghost use Rattle.pddl_compiled.specs.Views.{frame_view, change_view, changes_view};
ghost use Rattle.pddl_tables.specs.Lookups.{price_in};
ghost use Rattle.pddl_plan_tables.specs.ChangeCosts.{is_unpriced, some_cost, some_cost_in};

use pddl_compiled::{Change, Frame, fill};
use pddl_state::Atom;
use pddl_tables::TaskPrices;
use std::alloc::{AllocError, Allocator};

/// Whether some function of objects that a change can add the cost of has none. The atom is for those that are looked up.
///
/// Fails where memory for the atom's arguments is refused.
#[cycle(costs)]
pub fn some_costless<'f, 'c, C: Allocator>(
    prices: &TaskPrices<'c, C>,
    change: &'f Change<&'c C>,
    frame: &'f Frame<'f>,
    call: &mut Atom<&'c C>,
) -> Result<bool, AllocError>
    ensures { IfOk result (λ yes. yes ≡ some_cost (change_view change.now) (is_unpriced (price_in prices.now)) (frame_view frame.now)) }
{
    match change {
        Change::And(parts) => some_costless_in(prices, parts, frame, call),
        Change::Forall(range, inner) => {
            for object in range {
                let bound = Frame::Bound(*object, &*frame);
                if some_costless(prices, inner, &bound, call)? {
                    return Ok(true);
                }
            }
            Ok(false)
        }
        Change::When(_, inner) => some_costless(prices, inner, frame, call),
        Change::Increase(function, places) => {
            fill(call, *function, places, &*frame)?;
            Ok(prices.cost_of(&*call).is_none())
        }
        Change::Add(_, _) | Change::Del(_, _) | Change::IncreaseBy(_) => Ok(false),
    }
}

/// Whether some function of objects that some of these changes can add the cost of has none.
///
/// Fails where memory for the atom's arguments is refused.
#[cycle(costs)]
fn some_costless_in<'f, 'c, C: Allocator>(
    prices: &TaskPrices<'c, C>,
    changes: &'f [Change<&'c C>],
    frame: &'f Frame<'f>,
    call: &mut Atom<&'c C>,
) -> Result<bool, AllocError>
    ensures { IfOk result (λ yes. yes ≡ some_cost_in (changes_view changes.now) (is_unpriced (price_in prices.now)) (frame_view frame.now)) }
{
    for change in changes {
        if some_costless(prices, change, &*frame, call)? {
            return Ok(true);
        }
    }
    Ok(false)
}
