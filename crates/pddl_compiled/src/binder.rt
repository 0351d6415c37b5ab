//! The variables of quantifiers.

ghost use Rattle.std.specs.Prelude.{◌≡◌, ◌<◌, map, length, reverse, IfOk, OnOk};
ghost use Rattle.pddl_formula.specs.TypedLists.{typed_view};
ghost use Rattle.pddl_compiled.specs.Binders.{only, unbound, IsRange, IsLast, IsBound};
ghost use Rattle.pddl_compiled.specs.Compiler.{binding, binder_of};
ghost use Rattle.pddl_compiled.specs.Scopes.{slot_view, range_items};

use crate::boxes::push_where;
use crate::lookups::Lookups;
use crate::scope::Slot;
use pddl_formula::TypedList;
use std::alloc::{AllocError, Allocator};

/// What the variables of a quantifier are.
#[derive(Drop)]
pub(crate) struct Binder<'f, 'b, B: Allocator> {
    /// The variables, the innermost first.
    pub slots: Vec<Slot<'f>, &'b B>,
    /// The objects of each variable with a place in the frame, the outermost first; behind them no objects, where it is closed.
    pub ranges: Vec<Vec<usize, &'b B>, &'b B>,
    /// Whether a variable ranges over no object.
    pub closed: bool,
}

/// The one object of a range, where it has one alone.
fn single_of(range: &[usize]) -> Option<usize>
    ensures { result ≡ only range.now }
{
    if range.len() == 1 {
        Some(range[0])
    } else {
        None
    }
}

/// The objects that fit the variable at a place, where `last` is the one that alone fits the variable before it, if one does: where both are of one group,
/// it is not looked for again.
///
/// Fails where memory for them is refused.
fn range_at<'b, A: Allocator, B: Allocator, L: Lookups<A, B>>(
    alloc: &'b B,
    lookups: &L,
    variables: &TypedList<A>,
    place: usize,
    last: Option<usize>,
) -> Result<Vec<usize, &'b B>, AllocError>
    requires in_range { place < length variables.now.items }
    requires last { IsLast (L.tables lookups.now).range (map typed_view variables.now.items) place last }
    ensures { IfOk result (λ range. IsRange (L.tables lookups.now).range (map typed_view variables.now.items) place range.items) }
{
    match last {
        Some(object) if variables.shares(place) => vec![in alloc; object; 1],
        _ => lookups.fitting(alloc, &variables.as_slice()[place].types),
    }
}

/// Adds what a variable is that ranges over some objects, of which `single` is the one, if there is one alone.
///
/// Fails where memory for it is refused.
fn add<'f, 'b, B: Allocator>(
    binder: &mut Binder<'f, 'b, B>,
    name: &'f [u8],
    single: Option<usize>,
    range: Vec<usize, &'b B>,
) -> Result<(), AllocError>
    requires { single ≡ only range.items }
    ensures { OnOk result (IsBound (map slot_view binder.old.slots.items) (map slot_view binder.new.slots.items) (map range_items binder.old.ranges.items) (map range_items binder.new.ranges.items)
        binder.new.closed (binding name.now range.entry.items unbound)) }
{
    binder.closed = range.len() == 0;
    push_where(&mut binder.ranges, single.is_none(), range)?;
    push_where(&mut binder.slots, !binder.closed, Slot { name, single })
}

/// Adds what variables are, up to one that ranges over no object.
///
/// Fails where memory for them is refused.
fn add_all<'f, 'b, A: Allocator, B: Allocator, L: Lookups<A, B>>(
    alloc: &'b B,
    lookups: &L,
    variables: &'f TypedList<A>,
    binder: &mut Binder<'f, 'b, B>,
) -> Result<(), AllocError>
    ensures { OnOk result (IsBound (map slot_view binder.old.slots.items) (map slot_view binder.new.slots.items) (map range_items binder.old.ranges.items) (map range_items binder.new.ranges.items)
        binder.new.closed (binder_of (L.tables lookups.now).range (map typed_view variables.now.items))) }
{
    binder.closed = false;
    let mut last = None;
    for place in 0..variables.len() {
        let range = range_at(alloc, lookups, variables, place, last)?;
        last = single_of(&range);
        let name = variables.as_slice()[place].name.as_bytes();
        add(binder, name, last, range)?;
        if binder.closed {
            return Ok(());
        }
    }
    Ok(())
}

/// What the variables of a quantifier are. Behind one that ranges over no object nothing is looked up.
///
/// Fails where memory for them is refused.
pub(crate) fn bind<'f, 'b, A: Allocator, B: Allocator, L: Lookups<A, B>>(
    alloc: &'b B,
    lookups: &L,
    variables: &'f TypedList<A>,
) -> Result<Binder<'f, 'b, B>, AllocError>
    ensures slots { IfOk result (λ b. map slot_view b.slots.items ≡ reverse (binder_of (L.tables lookups.now).range (map typed_view variables.now.items)).slots) }
    ensures ranges { IfOk result (λ b. map range_items b.ranges.items ≡ (binder_of (L.tables lookups.now).range (map typed_view variables.now.items)).ranges) }
    ensures closed { IfOk result (λ b. b.closed ≡ (binder_of (L.tables lookups.now).range (map typed_view variables.now.items)).closed) }
{
    let mut binder = Binder {
        slots: Vec::new(alloc),
        ranges: Vec::new(alloc),
        closed: false,
    };
    let made = add_all(alloc, lookups, variables, &mut binder);
    binder.slots.reverse();
    made.and(Ok(binder))
}
