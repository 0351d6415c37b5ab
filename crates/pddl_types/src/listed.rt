//! Objects by name, each with its type.

ghost use Rattle.std.specs.Prelude.{◌≡◌, ◌++◌, [], List, map, find, length, IfOk, All};
ghost use Rattle.std.specs.HashMap.{values};
ghost use Rattle.pddl_formula.specs.TypedLists.{TypedValue, typed_view};
ghost use Rattle.pddl_task.specs.Names.{is_named};
ghost use Rattle.pddl_faults.specs.Passes.{Passes};
ghost use Rattle.pddl_faults.specs.Found.{IsFound, numbered};
ghost use Rattle.pddl_types.specs.KnownNames.{object_in};
ghost use Rattle.pddl_types.specs.Told.{ToldValue, first_at, AreAt, AreDistinct, AreTold, AreKept, unknown_among};
ghost use Rattle.pddl_types.specs.Objects.{IsAtOf, IsObjectAt, AreSeen, off_types};

use crate::entries::put_new;
use crate::object_order::ObjectOrder;
use crate::told::Told;
use crate::types::Types;
use indexmap::IndexMap;
use pddl_faults::{LinkFault, once};
use pddl_formula::{Typed, TypedList};
use pddl_hash::Hashed;
use pddl_token::LentName;
use std::alloc::{AllocError, Allocator};

/// Constants and then objects by name, in the order in which they are listed, each at its first place, with the number at which its type is told.
#[derive(Drop)]
pub struct Listed<'m, 'a, A: Allocator, B: Allocator> {
    pub objects: IndexMap<LentName<'m>, (&'m Typed<A>, usize), Hashed, &'a B>,
}

impl<'m, 'a, A: Allocator, B: Allocator> Listed<'m, 'a, A, B> {
    /// No objects.
    pub fn new(alloc: &'a B, hashed: Hashed) -> Listed<'m, 'a, A, B>
        ensures { (told : ToldValue) → AreSeen told [] result }
    {
        Listed {
            objects: IndexMap::with_hasher(alloc, hashed),
        }
    }

    /// Adds constants or objects whose types are told at these numbers. Answers the fault of a name that is listed with two types.
    ///
    /// # Errors
    ///
    /// `LinkFault::Memory` where memory for the objects is refused.
    fn put_all(
        &mut self,
        objects: &'m TypedList<A>,
        numbers: &[usize],
    ) -> Result<Result<(), LinkFault<'m>>, LinkFault<'m>>
        requires { length numbers.now ≡ length objects.now.items }
        ensures memory { Passes 23 [] result }
        ensures seen { (told : ToldValue) (seen : List TypedValue) → AreDistinct told → AreAt told (map typed_view objects.now.items) numbers.now → AreSeen told seen self.old
            → IfOk result (λ found. IsFound (numbered 24 (off_types seen (map typed_view objects.now.items))) found × AreSeen told (seen ++ map typed_view objects.now.items) self.new) }
    {
        self.objects.reserve(objects.len())?;
        let mut found = Ok(());
        for place in 0..objects.len() {
            let object = &objects[place];
            let number = numbers[place];
            let first = put_new(&mut self.objects, object.name.lent(), Ok((object, number)))?;
            let is_right = match self.objects.get_index(first) {
                Some((_, first)) => first.1 == number,
                None => false,
            };
            found = found.and(once(is_right, object.name.as_bytes()));
        }
        Ok(found)
    }

    /// Adds constants or objects, and tells their types. Answers the fault of a name that is listed with two types.
    ///
    /// # Errors
    ///
    /// `LinkFault::UnknownType`; `Memory` where memory for the objects is refused.
    pub fn add(
        &mut self,
        types: &Types<'m, 'a, A, B>,
        told: &mut Told<'m, 'a, A, B>,
        objects: &'m TypedList<A>,
    ) -> Result<Result<(), LinkFault<'m>>, LinkFault<'m>>
        requires { AreTold types.now told.old }
        ensures told { AreTold types.now told.new }
        ensures kept { AreKept told.old told.new }
        ensures passes { Passes 23 (unknown_among types.now.declared (map typed_view objects.now.items)) result }
        ensures seen { (seen : List TypedValue) → AreSeen told.old seen self.old
            → IfOk result (λ found. IsFound (numbered 24 (off_types seen (map typed_view objects.now.items))) found × AreSeen told.new (seen ++ map typed_view objects.now.items) self.new) }
    {
        match told.tell_all(*self.objects.allocator(), types, objects) {
            Ok(numbers) => self.put_all(objects, &numbers),
            Err(fault) => Err(fault),
        }
    }

    /// The number at which the type of the object of this name is told.
    pub fn type_of(&self, name: &[u8]) -> Option<usize>
        ensures { (told : ToldValue) → All (IsObjectAt told) self.now.objects.entries → IsAtOf told (find (is_named name.now) (map object_in self.now.objects.entries)) result }
    {
        match self.objects.get(&LentName::of(name)) {
            Some((_, number)) => Some(*number),
            None => None,
        }
    }

    /// The order of the objects by the first numbers of their types' tops.
    ///
    /// Fails where memory for it is refused.
    pub fn order(&self, told: &Told<'m, 'a, A, B>) -> Result<ObjectOrder<'a, B>, AllocError>
        ensures { IfOk result (λ order. order.numbers.items ≡ map (λ v. first_at told.now v.1) (values self.now.objects)) }
    {
        let mut numbers = Vec::with_capacity(*self.objects.allocator(), self.objects.len())?;
        for (_, number) in self.objects.values() {
            numbers.push(told.first_at(*number))?;
        }
        ObjectOrder::of(numbers)
    }
}
