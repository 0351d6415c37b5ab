//! The variables in scope where something is compiled.

ghost use Rattle.std.specs.Prelude.{◌≡◌, map, reverse, IfOk};
ghost use Rattle.pddl_formula.specs.TypedLists.{typed_view};
ghost use Rattle.pddl_compiled.specs.Compiler.{place_at, passed, resolved_from};
ghost use Rattle.pddl_compiled.specs.Views.{place_view};
ghost use Rattle.pddl_compiled.specs.Scopes.{slot_of, slot_view, scope_view, resolved_view};
ghost use Rattle.pddl_compiled.specs.Frames.{parameter_slot};

use crate::compiled::Place;
use pddl_formula::Typed;
use std::alloc::{AllocError, Allocator};

/// A variable in scope: with an object, where it ranges over that one alone, or with a place in the frame.
#[derive(Clone, Copy)]
pub struct Slot<'s> {
    pub name: &'s [u8],
    pub single: Option<usize>,
}

/// The variables in scope, a list for each quantifier, the innermost first.
#[derive(Drop)]
pub enum Scope<'s> {
    Empty,
    Inside(&'s [Slot<'s>], &'s Scope<'s>),
}

/// The parameters of an action, the last one first, each with a place in the frame.
///
/// Fails where memory for them is refused.
pub fn parameter_slots<'f, 'b, A: Allocator, B: Allocator>(
    alloc: &'b B,
    parameters: &'f [Typed<A>],
) -> Result<Vec<Slot<'f>, &'b B>, AllocError>
    ensures { IfOk result (λ slots. map slot_view slots.items ≡ reverse (map parameter_slot (map typed_view parameters.now))) }
{
    let mut slots = Vec::with_capacity(alloc, parameters.len())?;
    for parameter in parameters {
        let name = parameter.name.as_bytes();
        slots.push(Slot { name, single: None })?;
    }
    slots.reverse();
    Ok(slots)
}

/// What a term is: an object by its name, or a place.
#[derive(Clone, Copy)]
pub(crate) enum Resolved<'f> {
    Object(&'f [u8]),
    Placed(Place),
}

/// The place of a variable, behind so many places of the frame.
fn place_at(behind: usize, single: Option<usize>) -> Place
    ensures { place_view result ≡ place_at behind (slot_of single) }
{
    match single {
        Some(object) => Place::Fixed(object),
        None => Place::Held(behind),
    }
}

/// How many places of the frame are passed with it.
///
/// Fails where that has no number, which no memory holds.
fn passed_with(behind: usize, single: Option<usize>) -> Result<usize, AllocError>
    ensures { IfOk result (λ n. n ≡ passed behind (slot_of single)) }
{
    match single {
        Some(_) => Ok(behind),
        None => match behind.checked_add(1) {
            Some(more) => Ok(more),
            None => Err(AllocError),
        },
    }
}

/// What a variable is, behind so many places of the frame.
///
/// Fails where a place has no number, which no memory holds.
pub(crate) fn resolved_from<'s>(
    scope: &'s Scope<'s>,
    behind: usize,
    variable: &[u8],
) -> Result<Resolved<'s>, AllocError>
    ensures { IfOk result (λ r. resolved_view r ≡ resolved_from behind (scope_view scope.now) variable.now) }
{
    match scope {
        Scope::Empty => Ok(Resolved::Object(b"".as_slice())),
        Scope::Inside(slots, outer) => {
            let mut passed = behind;
            for slot in *slots {
                if variable == slot.name {
                    return Ok(Resolved::Placed(place_at(passed, slot.single)));
                }
                passed = passed_with(passed, slot.single)?;
            }
            resolved_from(outer, passed, variable)
        }
    }
}
