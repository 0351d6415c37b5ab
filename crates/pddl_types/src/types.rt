//! The types of a domain with their parents, looked up by name.

ghost use Rattle.std.specs.Prelude.{◌≡◌, ◌<◌, ◌^◌, ◌-◌, ◌∷◌, List, [], ℕ, IsTrue, length, map, not, filter, Contains, IfOk, OnOk};
ghost use Rattle.std.specs.List.{list_any};
ghost use Rattle.pddl_domain.specs.Declarations.{type_view};
ghost use Rattle.pddl_task.specs.Names.{is_in, repeated, item_of};
ghost use Rattle.pddl_task.specs.Types.{types_of, pairs, is_under, is_subtype, fits};
ghost use Rattle.pddl_task.specs.Linked.{fault};
ghost use Rattle.pddl_forest.specs.Rounds.{HasRound, AreRounds};
ghost use Rattle.pddl_forest.specs.Spans.{AreApart, AreSpans, hold_all};
ghost use Rattle.pddl_faults.specs.Passes.{Passes, Verdict};
ghost use Rattle.pddl_types.specs.TypeTables.{parents_in, IsTableOf, IsTypeTable, cycle_in};
ghost use Rattle.pddl_types.specs.TypeSpans.{span_of, IsTold, DoTell, are_types};

use crate::entries::put_new;
use indexmap::IndexMap;
use pddl_domain::{DeclaredType, DeclaredTypes};
use pddl_faults::LinkFault;
use pddl_forest::{Span, forest_spans, hold_all, keep_tops};
use pddl_formula::TypeNames;
use pddl_hash::Hashed;
use std::alloc::{AllocError, Allocator};
use std::marker::Model;

/// Types by name, each with the place of its parent, counted from 1, once it is declared, and else with 0: it is `object`, or stands as a parent so far, under
/// `object`, which has the first place.
type Parents<'m, 'a, B> = IndexMap<&'m [u8], usize, Hashed, &'a B>;

/// Puts `object` and the declared types into an empty table, with their parents, which are looked up once for each group, and put there where they do not stand yet.
///
/// # Errors
///
/// `LinkFault::TypeTwice` of the first type that stands twice; `Memory` where memory for the table is refused.
fn put_types<'m, 'a, A: Allocator, B: Allocator>(
    parents: &mut Parents<'m, 'a, B>,
    declared: &'m DeclaredTypes<A>,
) -> Result<(), LinkFault<'m>>
    requires { parents.old.entries ≡ [] }
    ensures once { Passes 21 (repeated [] (map item_of (map type_view declared.now.items))) result }
    ensures table { OnOk result (IsTableOf (types_of (map type_view declared.now.items)) (map type_view declared.now.items) parents.new.entries) }
{
    parents.insert(b"object".as_slice(), 0)?;
    let mut over = 0;
    for number in 0..declared.len() {
        let declared_type = &declared[number];
        if !declared.shares(number) {
            over = put_new(parents, declared_type.parent.as_bytes(), Ok(0))?;
        }
        let name = declared_type.name.as_bytes();
        if parents.insert(name, over + 1)?.unwrap_or(0) != 0 {
            return Err(LinkFault::TypeTwice(name));
        }
    }
    Ok(())
}

/// The places of the parents, in the table's order.
///
/// Fails where memory for them is refused.
fn parent_places<'m, 'a, B: Allocator>(
    alloc: &'a B,
    table: &Parents<'m, 'a, B>,
) -> Result<Vec<usize, &'a B>, AllocError>
    ensures { IfOk result (λ places. places.items ≡ parents_in table.now.entries) }
{
    table
        .values()
        .map(|over| over.saturating_sub(1))
        .collect(alloc)
}

/// The first declared type that is above itself: through whose place a way goes round from parent to parent, where one goes round.
fn first_cycle<'m, 'a, A: Allocator, B: Allocator>(
    table: &Parents<'m, 'a, B>,
    numbers: &[usize],
    declared: &'m [DeclaredType<A>],
) -> &'m [u8]
    requires table { IsTypeTable (map type_view declared.now) table.now.entries }
    requires numbers { AreRounds (parents_in table.now.entries) numbers.now }
    requires round { HasRound (parents_in table.now.entries) }
    ensures { Contains (cycle_in (map type_view declared.now)) result.now }
{
    for declared_type in declared {
        let name = declared_type.name.as_bytes();
        let Some(place) = table.get_index_of(name) else {
            unreachable!()
        };
        if numbers[place] != 0 {
            return name;
        }
    }
    unreachable!()
}

/// The spans of the types that are declared, which are put into an empty table, or the lowest fault of these.
///
/// # Errors
///
/// `LinkFault::TypeTwice`, `LinkFault::TypeCycle`; `Memory` where memory for table and spans is refused.
fn spans_of<'m, 'a, A: Allocator, B: Allocator>(
    alloc: &'a B,
    table: &mut Parents<'m, 'a, B>,
    declared: &'m DeclaredTypes<A>,
) -> Result<Vec<Span, &'a B>, LinkFault<'m>>
    requires { table.old.entries ≡ [] }
    ensures table { IfOk result (λ spans. IsTypeTable (map type_view declared.now.items) table.new.entries × AreSpans (parents_in table.new.entries) spans.items × (length spans.items < 2 ^ 32)) }
    ensures verdict { Verdict (fault 21 (repeated [] (map item_of (map type_view declared.now.items))) ∷ fault 22 (cycle_in (map type_view declared.now.items)) ∷ []) result }
{
    put_types(table, declared)?;
    let parents = parent_places(alloc, table)?;
    match forest_spans(alloc, &parents)? {
        Ok(spans) => Ok(spans),
        Err(numbers) => Err(LinkFault::TypeCycle(first_cycle(table, &numbers, declared))),
    }
}

/// The types of a domain without a cycle, `object` first, each with the place of its parent in the table and the span of its numbers: what is under a type
/// has its own number within that, so a test for a subtype is two comparisons.
///
/// Contracts see the declared types, and the names of all types with their spans.
#[derive(Drop)]
pub struct Types<'m, 'a, A: Allocator, B: Allocator> {
    declared: &'m [DeclaredType<A>],
    parents: Parents<'m, 'a, B>,
    spans: Vec<Span, &'a B>,
}

impl<'m, 'a, A: Allocator, B: Allocator> Model for Types<'m, 'a, A, B> {
    ghost use Rattle.std.specs.Prelude.{◌<◌, ◌^◌, map, length};
    ghost use Rattle.pddl_domain.specs.Declarations.{type_view};
    ghost use Rattle.pddl_forest.specs.Spans.{AreSpans};
    ghost use Rattle.pddl_types.specs.TypeTables.{IsTypeTable, names_in, parents_in};
    ghost use Rattle.pddl_types.specs.TypeSpans.{TypesValue};

    ghost Value = { TypesValue };

    ghost view = { λ t. record { declared = map type_view t.declared.now; names = names_in t.parents.entries; spans = t.spans.items } };

    ghost invariant = { λ t. IsTypeTable (map type_view t.declared.now) t.parents.entries × AreSpans (parents_in t.parents.entries) t.spans.items × (length t.spans.items < 2 ^ 32) };
}

impl<'m, 'a, A: Allocator, B: Allocator> Types<'m, 'a, A, B> {
    /// The types that are declared, or a fault where one stands twice or is above itself: the first in their order that does. Tables of what files say of them
    /// hash so.
    ///
    /// # Errors
    ///
    /// `LinkFault::TypeTwice`, and where none does `LinkFault::TypeCycle`; `Memory` where memory for the table is refused.
    pub fn of(
        alloc: &'a B,
        hashed: Hashed,
        declared: &'m DeclaredTypes<A>,
    ) -> Result<Types<'m, 'a, A, B>, LinkFault<'m>>
        ensures types { IfOk result (λ types. types.declared ≡ map type_view declared.now.items) }
        ensures verdict { Verdict (fault 21 (repeated [] (map item_of (map type_view declared.now.items))) ∷ fault 22 (cycle_in (map type_view declared.now.items)) ∷ []) result }
    {
        let mut parents = IndexMap::with_hasher(alloc, hashed);
        match spans_of(alloc, &mut parents, declared) {
            Ok(spans) => Ok(Types {
                declared: declared.as_slice(),
                parents,
                spans,
            }),
            Err(fault) => Err(fault),
        }
    }

    /// How tables of what the files say hash.
    pub fn hashed(&self) -> Hashed {
        *self.parents.hasher()
    }

    /// Where tables of what the files say are held.
    pub fn allocator(&self) -> &'a B {
        *self.parents.allocator()
    }

    /// Whether a name is a type: `object`, a declared type, or one that stands as a parent.
    pub fn contains(&self, name: &[u8]) -> bool
        ensures { result ≡ is_in (types_of self.now.declared) name.now }
    {
        self.parents.contains_key(name)
    }

    /// The span of a type, or one behind those of all types where the name is none.
    fn span(&self, name: &[u8]) -> Span
        ensures { result ≡ span_of self.now name.now }
    {
        match self.parents.get_index_of(name) {
            Some(place) => self.spans[place],
            None => {
                let past = self.spans.len() as u32;
                Span {
                    first: past,
                    last: past,
                }
            }
        }
    }

    /// Whether a type is a subtype of another, or that type itself; no name that is no type is either.
    pub fn is_a(&self, sub: &[u8], over: &[u8]) -> bool
        ensures { result ≡ is_subtype self.now.declared sub.now over.now }
    {
        let _ = &self.spans;
        self.contains(sub) && self.span(over).holds(self.span(sub).first)
    }

    /// Tops tell of two types whether one fits the other.
    pub(crate) fn tops_decide(&self)
        ensures { (types slot : List (List ℕ)) (told tops : List Span) → IsTold self.now types told → IsTold self.now slot tops → IsTrue (are_types self.now.declared types)
            → hold_all tops told ≡ fits (pairs self.now.declared) types slot }
    {
        let _ = &self.spans;
    }

    /// Whether a type of this number is under some primitive of a slot's type with these tops.
    pub fn is_under_tops(&self, number: u32, tops: &[Span]) -> bool
        requires { AreApart tops.now }
        ensures { (slot : List (List ℕ)) (n : List ℕ) → IsTold self.now slot tops.now → number ≡ (span_of self.now n).first
            → IsTrue (is_in (types_of self.now.declared) n) → result ≡ list_any (is_under (pairs self.now.declared) n) slot }
    {
        let _ = &self.spans;
        let only = Span {
            first: number,
            last: number,
        };
        hold_all(tops, &[only])
    }

    /// The same, where each primitive is looked up.
    pub fn is_under_some<S: Allocator>(&self, number: u32, slot: &TypeNames<S>) -> bool
        ensures { (n : List ℕ) → number ≡ (span_of self.now n).first → IsTrue (is_in (types_of self.now.declared) n) → result ≡ list_any (is_under (pairs self.now.declared) n) slot.now }
    {
        let _ = &self.spans;
        slot.as_slice()
            .iter()
            .any(|primitive| self.span(primitive.as_bytes()).holds(number))
    }

    /// The tops of a type's primitives: their spans but for those that begin within another, in the order of their numbers. Tops tell what is under some
    /// primitive.
    ///
    /// Fails where memory for them is refused.
    pub fn tops<'c, N: Allocator, C: Allocator>(
        &self,
        alloc: &'c C,
        types: &TypeNames<N>,
    ) -> Result<Vec<Span, &'c C>, AllocError>
        ensures told { IfOk result (λ tops. IsTold self.now types.now tops.items) }
        ensures tell { OnOk result (DoTell self.now) }
    {
        let _ = &self.spans;
        let primitives = types.as_slice();
        let mut tops = Vec::with_capacity(alloc, primitives.len())?;
        for primitive in primitives {
            tops.push(self.span(primitive.as_bytes()))?;
        }
        keep_tops(&mut tops);
        Ok(tops)
    }

    /// The primitives of a type are types.
    ///
    /// # Errors
    ///
    /// `LinkFault::UnknownType` of the first that is none.
    pub fn known<'d, T: Allocator>(&self, types: &'d TypeNames<T>) -> Result<(), LinkFault<'d>>
        ensures { Passes 23 (filter (λ t. not (is_in (types_of self.now.declared) t)) types.now) result }
    {
        let primitives = types.as_slice();
        for primitive in primitives {
            let name = primitive.as_bytes();
            if !self.contains(name) {
                return Err(LinkFault::UnknownType(name));
            }
        }
        Ok(())
    }
}
