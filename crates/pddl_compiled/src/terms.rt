//! Terms of atoms and of functions.

ghost use Rattle.std.specs.Prelude.{◌≡◌, map, IfOk};
ghost use Rattle.pddl_formula.specs.Terms.{term_view};
ghost use Rattle.pddl_compiled.specs.Compiler.{resolved, place_of, places_of, equal_of};
ghost use Rattle.pddl_compiled.specs.Views.{place_view, condition_view};
ghost use Rattle.pddl_compiled.specs.Scopes.{scope_view, resolved_view};

use crate::compiled::{Condition, Place};
use crate::lookups::Lookups;
use crate::scope::{Resolved, Scope, resolved_from};
use pddl_formula::Term;
use std::alloc::{AllocError, Allocator};

/// What a term is.
pub(crate) fn resolved<'s, A: Allocator>(
    scope: &'s Scope<'s>,
    term: &'s Term<A>,
) -> Result<Resolved<'s>, AllocError>
    ensures { IfOk result (λ r. resolved_view r ≡ resolved (scope_view scope.now) (term_view term.now)) }
{
    match term {
        Term::Name(object) => Ok(Resolved::Object(object.as_bytes())),
        Term::Variable(variable) => resolved_from(&*scope, 0, variable.as_bytes()),
    }
}

/// The place of what a term is.
pub(crate) fn place_of<'s, A: Allocator, B: Allocator, L: Lookups<A, B>>(
    lookups: &L,
    term: Resolved<'s>,
) -> Place
    ensures { place_view result ≡ place_of (L.tables lookups.now) (resolved_view term.entry) }
{
    match term {
        Resolved::Object(name) => Place::Fixed(lookups.object_number(name)),
        Resolved::Placed(place) => place,
    }
}

/// The places of terms.
///
/// Fails where memory for them is refused.
pub(crate) fn places_of<'s, 'b, A: Allocator, B: Allocator, L: Lookups<A, B>>(
    alloc: &'b B,
    lookups: &L,
    scope: &'s Scope<'s>,
    terms: &'s [Term<A>],
) -> Result<Vec<Place, &'b B>, AllocError>
    ensures { IfOk result (λ places. map place_view places.items ≡ places_of (L.tables lookups.now) (scope_view scope.now) (map term_view terms.now)) }
{
    let mut places = Vec::with_capacity(alloc, terms.len())?;
    for term in terms {
        places.push(place_of(lookups, resolved(&*scope, term)?))?;
    }
    Ok(places)
}

/// Whether two terms stand for one object.
///
/// Fails where a place has no number, which no memory holds.
pub(crate) fn equality<'s, 'b, A: Allocator, B: Allocator, L: Lookups<A, B>>(
    lookups: &L,
    scope: &'s Scope<'s>,
    first: &'s Term<A>,
    second: &'s Term<A>,
) -> Result<Condition<&'b B>, AllocError>
    ensures { IfOk result (λ c. condition_view c ≡ equal_of (L.tables lookups.now) (resolved (scope_view scope.now) (term_view first.now)) (resolved (scope_view scope.now) (term_view second.now))) }
{
    let first = resolved(&*scope, first)?;
    let second = resolved(&*scope, second)?;
    Ok(equal_of(lookups, first, second))
}

/// Whether what two terms are is one object; of two names that is known at once.
fn equal_of<'s, 'b, A: Allocator, B: Allocator, L: Lookups<A, B>>(
    lookups: &L,
    first: Resolved<'s>,
    second: Resolved<'s>,
) -> Condition<&'b B>
    ensures { condition_view result ≡ equal_of (L.tables lookups.now) (resolved_view first.entry) (resolved_view second.entry) }
{
    match first {
        Resolved::Object(a) => match second {
            Resolved::Object(b) => Condition::Known(a == b),
            Resolved::Placed(q) => Condition::Equal(Place::Fixed(lookups.object_number(a)), q),
        },
        Resolved::Placed(p) => Condition::Equal(p, place_of(lookups, second)),
    }
}
