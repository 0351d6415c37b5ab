//! Typed lists.

ghost use Rattle.std.specs.Prelude.{◌≡◌, ◌<◌, ◌-◌, true, [], ◌++◌, map, length, vec_len, OnOk, OnErr};
ghost use Rattle.pddl_formula.specs.TypedLists.{typed_view, of_type};
ghost use Rattle.pddl_formula.specs.Groups.{HaveOneType, IsGrown};

use crate::groups::Groups;
use crate::type_names::{TypeNames, Typed};
use pddl_token::Name;
use std::alloc::{AllocError, Allocator};
use std::marker::Model;
use std::ops::DerefSlice;

/// The items of a typed list, each with its type.
///
/// Items of one group follow each other and have one type, so that what has to be known of it is found once for the group and not for each item:
/// [`TypedList::shares`] says which items have the type of the one before. Contracts see the list of the items.
#[derive(Drop)]
pub struct TypedList<A: Allocator> {
    items: Vec<Typed<A>, A>,
    groups: Groups<A>,
}

impl<A: Allocator> Model for TypedList<A> {
    ghost use Rattle.std.specs.Prelude.{Vec, map};
    ghost use Rattle.pddl_formula.specs.declared.type_names.Typed.{Typed};
    ghost use Rattle.pddl_formula.specs.TypedLists.{typed_view};
    ghost use Rattle.pddl_formula.specs.Groups.{AreGrouped};

    ghost Value = { Vec (Typed A) A };

    ghost view = { λ t. t.items };

    ghost invariant = { λ t. AreGrouped (map typed_view t.items.items) t.groups };
}

/// Adds names of one type; some of them may be there where memory is refused.
fn add_names<A: Allocator>(
    items: &mut Vec<Typed<A>, A>,
    names: Vec<Name<A>, A>,
    types: &TypeNames<A>,
) -> Result<(), AllocError>
    ensures added { OnOk result (map typed_view items.new.items ≡ map typed_view items.old.items ++ of_type names.items types.now) }
    ensures grown { IsGrown (map typed_view items.old.items) (map typed_view items.new.items) }
{
    for name in names {
        let types = types.share()?;
        items.push(Typed { name, types })?;
    }
    Ok(())
}

impl<'a, B: Allocator> TypedList<&'a B> {
    /// No items.
    pub fn new(alloc: &'a B) -> TypedList<&'a B>
        ensures { result.items ≡ [] }
    {
        TypedList {
            items: Vec::new(alloc),
            groups: Groups::new(alloc),
        }
    }
}

impl<A: Allocator> TypedList<A> {
    /// Adds the names of a group, which share their type.
    ///
    /// Fails where memory for them is refused; some of them may be there then.
    pub fn add(&mut self, names: Vec<Name<A>, A>, types: &TypeNames<A>) -> Result<(), AllocError>
        ensures { OnOk result (map typed_view self.new.items ≡ map typed_view self.old.items ++ of_type names.items types.now) }
    {
        let first = self.items.len();
        add_names(&mut self.items, names, types)?;
        self.groups.add(first, self.items.len())
    }

    /// Puts the items of another list behind those of this one, as groups of their own.
    ///
    /// Fails where memory for them is refused; the list is then as it was.
    pub fn append(&mut self, other: TypedList<A>) -> Result<(), AllocError>
        ensures ok { OnOk result (self.new.items ≡ self.old.items ++ other.items) }
        ensures kept { OnErr result (self.new.items ≡ self.old.items) }
    {
        let TypedList { mut items, groups } = other;
        let count = self.items.len();
        self.groups.append(count, groups)?;
        let appended = self.items.append(&mut items);
        if appended.is_err() {
            self.groups.truncate(count);
        }
        appended
    }

    /// How many items there are.
    pub fn len(&self) -> usize
        ensures { result ≡ length self.now.items }
    {
        self.items.len()
    }

    /// The items.
    pub fn as_slice(&self) -> &[Typed<A>]
        ensures value { result.now ≡ self.now.items }
        ensures len { length result.now ≡ vec_len self.now }
    {
        &self.items
    }

    /// Whether the item at a place has, as one of its group, the type of the item before it.
    pub fn shares(&self, place: usize) -> bool
        ensures later { result ≡ true → 0 < place }
        ensures same { result ≡ true → HaveOneType (map typed_view self.now.items) (place - 1) place }
    {
        self.groups.shares(place)
    }
}

impl<A: Allocator> DerefSlice for TypedList<A> {
    type Elem = Typed<A>;

    ghost deref_gives = { λ list items. (items ≡ list.items) × (length items ≡ vec_len list) };

    fn deref(&self) -> &[Typed<A>]
        ensures value { result.now ≡ self.now.items }
        ensures len { length result.now ≡ vec_len self.now }
    {
        &self.items
    }
}
