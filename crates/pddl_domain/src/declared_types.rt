//! Declared types.

ghost use Rattle.std.specs.Prelude.{◌≡◌, ◌<◌, ◌-◌, true, [], ◌++◌, map, length, vec_len, OnOk, OnErr};
ghost use Rattle.pddl_formula.specs.TypedLists.{of_type};
ghost use Rattle.pddl_formula.specs.Groups.{HaveOneType, IsGrown};
ghost use Rattle.pddl_domain.specs.Declarations.{type_view};

use pddl_formula::{Groups, TypeName};
use std::alloc::{AllocError, Allocator};
use std::marker::Model;
use std::ops::DerefSlice;
use std::rc::Rc;

/// A declared type and its parent, which the types of a group share.
#[derive(Drop)]
pub struct DeclaredType<A: Allocator> {
    pub name: TypeName<A>,
    pub parent: Rc<TypeName<A>, A>,
}

/// Declared types, each with its parent.
///
/// Types of one group follow each other and have one parent, so that its place is found once for the group and not for each type:
/// [`DeclaredTypes::shares`] says which types have the parent of the one before. Contracts see the list of the types.
#[derive(Drop)]
pub struct DeclaredTypes<A: Allocator> {
    types: Vec<DeclaredType<A>, A>,
    groups: Groups<A>,
}

impl<A: Allocator> Model for DeclaredTypes<A> {
    ghost use Rattle.std.specs.Prelude.{Vec, map};
    ghost use Rattle.pddl_domain.specs.declared.declared_types.DeclaredType.{DeclaredType};
    ghost use Rattle.pddl_formula.specs.Groups.{AreGrouped};
    ghost use Rattle.pddl_domain.specs.Declarations.{type_view};

    ghost Value = { Vec (DeclaredType A) A };

    ghost view = { λ t. t.types };

    ghost invariant = { λ t. AreGrouped (map type_view t.types.items) t.groups };
}

/// Adds types below one parent; some of them may be there where memory is refused.
fn add_below<A: Allocator>(
    types: &mut Vec<DeclaredType<A>, A>,
    names: Vec<TypeName<A>, A>,
    parent: &Rc<TypeName<A>, A>,
) -> Result<(), AllocError>
    ensures added { OnOk result (map type_view types.new.items ≡ map type_view types.old.items ++ of_type names.items parent.now.value) }
    ensures grown { IsGrown (map type_view types.old.items) (map type_view types.new.items) }
{
    for name in names {
        let parent = parent.clone()?;
        types.push(DeclaredType { name, parent })?;
    }
    Ok(())
}

impl<'a, B: Allocator> DeclaredTypes<&'a B> {
    /// No types.
    pub fn new(alloc: &'a B) -> DeclaredTypes<&'a B>
        ensures { result.items ≡ [] }
    {
        DeclaredTypes {
            types: Vec::new(alloc),
            groups: Groups::new(alloc),
        }
    }
}

impl<A: Allocator> DeclaredTypes<A> {
    /// Adds the types of a group, which share their parent.
    ///
    /// Fails where memory for them is refused, or the parent is shared as often as can be counted; some of them may be there then.
    pub fn add(
        &mut self,
        names: Vec<TypeName<A>, A>,
        parent: &Rc<TypeName<A>, A>,
    ) -> Result<(), AllocError>
        ensures { OnOk result (map type_view self.new.items ≡ map type_view self.old.items ++ of_type names.items parent.now.value) }
    {
        let first = self.types.len();
        add_below(&mut self.types, names, parent)?;
        self.groups.add(first, self.types.len())
    }

    /// Puts other types behind these, as groups of their own.
    ///
    /// Fails where memory for them is refused; these are then as they were.
    pub fn append(&mut self, other: DeclaredTypes<A>) -> Result<(), AllocError>
        ensures ok { OnOk result (self.new.items ≡ self.old.items ++ other.items) }
        ensures kept { OnErr result (self.new.items ≡ self.old.items) }
    {
        let DeclaredTypes { mut types, groups } = other;
        let count = self.types.len();
        self.groups.append(count, groups)?;
        let appended = self.types.append(&mut types);
        if appended.is_err() {
            self.groups.truncate(count);
        }
        appended
    }

    /// How many types there are.
    pub fn len(&self) -> usize
        ensures { result ≡ length self.now.items }
    {
        self.types.len()
    }

    /// The types.
    pub fn as_slice(&self) -> &[DeclaredType<A>]
        ensures value { result.now ≡ self.now.items }
        ensures len { length result.now ≡ vec_len self.now }
    {
        &self.types
    }

    /// Whether the type at a place has, as one of its group, the parent of the type before it.
    pub fn shares(&self, place: usize) -> bool
        ensures later { result ≡ true → 0 < place }
        ensures same { result ≡ true → HaveOneType (map type_view self.now.items) (place - 1) place }
    {
        self.groups.shares(place)
    }
}

impl<A: Allocator> DerefSlice for DeclaredTypes<A> {
    type Elem = DeclaredType<A>;

    ghost deref_gives = { λ list types. (types ≡ list.items) × (length types ≡ vec_len list) };

    fn deref(&self) -> &[DeclaredType<A>]
        ensures value { result.now ≡ self.now.items }
        ensures len { length result.now ≡ vec_len self.now }
    {
        &self.types
    }
}
