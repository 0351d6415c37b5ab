//! What a domain and a problem declare, by name, and the objects that fit a type: how many, and which.

ghost use Rattle.std.specs.Prelude.{◌≡◌, ◌++◌, [], ℕ, false, Some, None, List, map, slice_get, IfOk, OnOk, IsOk};
ghost use Rattle.std.specs.Option.{option_map_or};
ghost use Rattle.pddl_formula.specs.TypedLists.{TypedValue};
ghost use Rattle.pddl_domain.specs.Actions.{ActionValue, action_view};
ghost use Rattle.pddl_domain.specs.Domains.{DomainValue, domain_view};
ghost use Rattle.pddl_forest.specs.Spans.{AreApart};
ghost use Rattle.pddl_task.specs.Names.{Name};
ghost use Rattle.pddl_task.specs.Types.{pairs, fits};
ghost use Rattle.pddl_task.specs.Tasks.{places_from};
ghost use Rattle.pddl_faults.specs.Passes.{Passes};
ghost use Rattle.pddl_faults.specs.Found.{IsFound};
ghost use Rattle.pddl_types.specs.TypeSpans.{TypesValue, IsTold, AreNumbered, AreNumbered-prop};
ghost use Rattle.pddl_types.specs.Told.{AreTold, AreKept, unknown_among};
ghost use Rattle.pddl_types.specs.Known.{declared_typed, repeated_names, objects_in, count_in, parameters_among, IsNothing, AreParametersAt, AreKnown, AreAllKnown};

use crate::listed::Listed;
use crate::object_order::ObjectOrder;
use crate::signatures::{Signatures, put};
use crate::told::Told;
use crate::types::Types;
use indexmap::IndexMap;
use pddl_domain::{Action, Domain};
use pddl_faults::{LinkFault, lower};
use pddl_forest::Span;
use pddl_formula::TypeNames;
use std::alloc::{AllocError, Allocator};

/// What is answered of two parts: the first fault that ends a part, or the lower of those of names.
fn both<'m>(
    first: Result<Result<(), LinkFault<'m>>, LinkFault<'m>>,
    second: Result<Result<(), LinkFault<'m>>, LinkFault<'m>>,
) -> Result<Result<(), LinkFault<'m>>, LinkFault<'m>>
    ensures passes { (xs ys : List Name) → Passes 23 xs first.entry → Passes 23 ys second.entry → Passes 23 (xs ++ ys) result }
    ensures found { (xs ys : List (ℕ × Name)) → IfOk first.entry (IsFound xs) → IfOk second.entry (IsFound ys) → IfOk result (IsFound (xs ++ ys)) }
    ensures made { OnOk result (IsOk first.entry × IsOk second.entry) }
{
    match first {
        Ok(first) => match second {
            Ok(second) => Ok(lower(first, second)),
            Err(fault) => Err(fault),
        },
        Err(fault) => Err(fault),
    }
}

/// Adds the numbers at which the types of the parameters of each action are told, which are told where they were not.
///
/// # Errors
///
/// `LinkFault::UnknownType`; `Memory` where memory for them is refused.
pub fn tell_parameters<'m, 'a, A: Allocator, B: Allocator>(
    types: &Types<'m, 'a, A, B>,
    told: &mut Told<'m, 'a, A, B>,
    table: &mut Vec<Vec<usize, &'a B>, &'a B>,
    actions: &'m [Action<A>],
) -> Result<(), LinkFault<'m>>
    requires told { AreTold types.now told.old }
    requires none { table.old.items ≡ [] }
    ensures told { AreTold types.now told.new }
    ensures kept { AreKept told.old told.new }
    ensures passes { Passes 23 (unknown_among types.now.declared (parameters_among (map action_view actions.now))) result }
    ensures held { OnOk result (AreParametersAt told.new (map action_view actions.now) table.new.items) }
{
    for action in actions {
        let numbers = told.tell_all(types.allocator(), types, &action.parameters)?;
        table.push(numbers)?;
    }
    Ok(())
}

/// The types of a domain, the constants and objects that are listed so far, and the predicates and functions that are declared, by name; of each action, by its
/// number, the numbers at which the types of its parameters are told.
#[derive(Drop)]
pub struct Known<'m, 'a, A: Allocator, B: Allocator> {
    pub types: Types<'m, 'a, A, B>,
    pub listed: Listed<'m, 'a, A, B>,
    pub predicates: Signatures<'m, 'a, A, B>,
    pub functions: Signatures<'m, 'a, A, B>,
    pub actions: Vec<Vec<usize, &'a B>, &'a B>,
}

impl<'m, 'a, A: Allocator, B: Allocator> Known<'m, 'a, A, B> {
    /// Types, and nothing else.
    pub fn of(types: Types<'m, 'a, A, B>) -> Known<'m, 'a, A, B>
        ensures types { result.types ≡ types.entry }
        ensures nothing { IsNothing result }
    {
        let alloc = types.allocator();
        let hashed = types.hashed();
        Known {
            types,
            listed: Listed::new(alloc, hashed),
            predicates: IndexMap::with_hasher(alloc, hashed),
            functions: IndexMap::with_hasher(alloc, hashed),
            actions: Vec::new(alloc),
        }
    }

    /// Adds a domain's constants, predicates and functions to its types, where nothing else is known and no type is told. Answers the fault of one that stands
    /// twice.
    ///
    /// # Errors
    ///
    /// `LinkFault::UnknownType`; `Memory` where memory for them is refused.
    pub fn add_domain(
        &mut self,
        told: &mut Told<'m, 'a, A, B>,
        domain: &'m Domain<A>,
    ) -> Result<Result<(), LinkFault<'m>>, LinkFault<'m>>
        requires typed { self.old.types.declared ≡ (domain_view domain.now).types }
        requires nothing { IsNothing self.old }
        requires told { told.old ≡ [] }
        ensures passes { Passes 23 (unknown_among (domain_view domain.now).types (declared_typed (domain_view domain.now))) result }
        ensures found { IfOk result (IsFound (repeated_names (domain_view domain.now))) }
        ensures known { IfOk result (λ _. AreKnown (domain_view domain.now) (domain_view domain.now).constants self.new told.new) }
    {
        let constants = self.listed.add(&self.types, told, &domain.constants);
        let predicates = put(&self.types, told, &mut self.predicates, &domain.predicates);
        let functions = put(&self.types, told, &mut self.functions, &domain.functions);
        both(constants, both(predicates, functions))
    }
}

/// What a domain and a problem declare, by name, with the types that are told and the objects in the order of the numbers of their types, by which those that
/// fit a type are found.
#[derive(Drop)]
pub struct Tables<'m, 'a, A: Allocator, B: Allocator> {
    pub known: Known<'m, 'a, A, B>,
    pub told: Told<'m, 'a, A, B>,
    pub order: ObjectOrder<'a, B>,
    ghost numbered: { AreNumbered known.types (objects_in known) order.numbers.items } by { AreNumbered-prop known.types (objects_in known) order.numbers.items },
}

impl<'m, 'a, A: Allocator, B: Allocator> Tables<'m, 'a, A, B> {
    /// The tops of the type of a parameter of an action, both by their numbers.
    pub fn parameter_tops(&self, action: usize, parameter: usize) -> &[Span]
        ensures apart { (t : TypesValue) → AreTold t self.now.told → AreApart result.now }
        ensures told { (d : DomainValue) (objects : List TypedValue) (a : ActionValue) (x : TypedValue) → AreAllKnown d objects self.now.known self.now.told
            → slice_get d.actions action ≡ Some a → slice_get a.parameters parameter ≡ Some x → IsTold self.now.known.types x.of result.now }
    {
        match self.known.actions.get(action) {
            Some(numbers) => match numbers.get(parameter) {
                Some(number) => self.told.at(*number),
                None => &[],
            },
            None => &[],
        }
    }

    /// Whether the object of a number fits a type; past the last object there is none that does.
    pub fn fits<N: Allocator>(&self, object: usize, slot: &TypeNames<N>) -> bool
        ensures { result ≡ option_map_or (λ o. fits (pairs self.now.known.types.declared) o.of slot.now) (slice_get (objects_in self.now.known) object) false }
    {
        match self.order.number(object) {
            Some(number) => self.known.types.is_under_some(number, slot),
            None => false,
        }
    }

    /// How many objects fit a type, which are looked at one by one.
    fn count_each<N: Allocator>(&self, slot: &TypeNames<N>) -> usize
        ensures { result ≡ count_in self.now.known slot.now }
    {
        let mut count = 0;
        for number in 0..self.known.listed.objects.len() {
            if self.fits(number, slot) {
                count += 1;
            }
        }
        count
    }

    /// The numbers of the objects that fit a type, rising.
    ///
    /// Fails where memory for them is refused.
    pub fn objects<'b, C: Allocator, N: Allocator>(
        &self,
        alloc: &'b C,
        slot: &TypeNames<N>,
    ) -> Result<Vec<usize, &'b C>, AllocError>
        ensures { IfOk result (λ numbers. numbers.items ≡ places_from 0 (λ o. fits (pairs self.now.known.types.declared) o.of slot.now) (objects_in self.now.known)) }
    {
        let tops = self.known.types.tops(alloc, slot)?;
        self.order.objects_under(alloc, &tops)
    }

    /// How many objects fit a type. They are counted by the tops of the type, and one by one where memory for these is refused.
    pub(crate) fn fitting_count<N: Allocator>(&self, slot: &TypeNames<N>) -> usize
        ensures { result ≡ count_in self.now.known slot.now }
    {
        let alloc = *self.known.listed.objects.allocator();
        match self.known.types.tops(alloc, slot) {
            Ok(tops) => self.order.count(&tops),
            Err(_) => self.count_each(slot),
        }
    }
}
