//! Types, and items of typed lists.

ghost use Rattle.std.proofs.Common.{ap};
ghost use Rattle.std.specs.Prelude.{◌≡◌, IfOk, IsTrue, bytes_eq};
ghost use Rattle.std.specs.Cmp.{partial_equiv_from_equiv};
ghost use Rattle.std.specs.Cmp.Lexicographic.{pointwise, bytes_decides, pointwise_decides, lists_equiv, nat_list_eq_equiv};
ghost use Rattle.std.specs.Hash as fed;
ghost use Rattle.std.specs.List.{list_all};
ghost use Rattle.pddl_token.specs.Names.{fed_name};
ghost use Rattle.pddl_formula.specs.Reserved.{is_type_name, type_name_of, is_type, type_of};

use pddl_token::Name;
use std::alloc::{AllocError, Allocator};
use std::hash::{Hash, Hasher};
use std::marker::Model;
use std::rc::Rc;

/// A primitive type: a name other than `either`.
///
/// Contracts see it as its bytes.
#[derive(Drop)]
pub struct TypeName<A: Allocator> {
    name: Name<A>,
}

impl<A: Allocator> Model for TypeName<A> {
    ghost use Rattle.std.specs.Prelude.{List, ℕ, IsTrue};
    ghost use Rattle.pddl_formula.specs.Reserved.{is_type_name};

    ghost Value = { List ℕ };

    ghost view = { λ t. t.name };

    ghost invariant = { λ t. IsTrue (is_type_name t.name) };
}

impl<A: Allocator> TypeName<A> {
    /// The primitive type of this name, or `None` for `either` (that it names no type is own).
    pub fn new(name: Name<A>) -> Option<TypeName<A>>
        ensures { result ≡ type_name_of name }
    {
        if name.as_bytes() == b"either".as_slice() {
            None
        } else {
            Some(TypeName { name })
        }
    }

    /// The type's bytes, in lower case.
    pub fn as_bytes(&self) -> &[u8]
        ensures value { result.now ≡ self.now }
        ensures type_name { IsTrue (is_type_name self.now) }
    {
        self.name.as_bytes()
    }

    /// The type's name.
    pub fn as_name(&self) -> &Name<A>
        ensures value { result.now ≡ self.now }
        ensures type_name { IsTrue (is_type_name self.now) }
    {
        &self.name
    }
}

impl<A: Allocator> PartialEq for TypeName<A> {
    ghost eq = { bytes_eq };

    ghost laws = { partial_equiv_from_equiv nat_list_eq_equiv };

    fn eq(&self, other: &TypeName<A>) -> bool {
        self.as_bytes() == other.as_bytes()
    }
}

impl<A: Allocator> Eq for TypeName<A> {
    ghost laws = { nat_list_eq_equiv };
}

impl<A: Allocator> Hash for TypeName<A> {
    ghost hash_input = { fed_name };

    ghost respects_eq = { λ t u same. ap fed_name ((bytes_decides t u).0 same) };

    fn hash<H: Hasher>(&self, state: &mut H) {
        state.write(self.as_bytes());
    }
}

/// A type: its primitive types, of which there is at least one, in the order in which they are written.
///
/// The names of a group of a typed list share it, so that a list takes memory for its text and not for each name's type. Contracts see it as
/// the list of their bytes.
#[derive(Drop)]
pub struct TypeNames<A: Allocator> {
    names: Rc<Vec<TypeName<A>, A>, A>,
}

impl<A: Allocator> Model for TypeNames<A> {
    ghost use Rattle.std.specs.Prelude.{List, ℕ, IsTrue};
    ghost use Rattle.pddl_formula.specs.Reserved.{is_type};

    ghost Value = { List (List ℕ) };

    ghost view = { λ t. t.names.value.items };

    ghost invariant = { λ t. IsTrue (is_type t.names.value.items) };
}

impl<A: Allocator> TypeNames<A> {
    /// The type of these primitive types, or `None` where there are none.
    ///
    /// Fails where memory for it is refused.
    pub fn new(alloc: A, names: Vec<TypeName<A>, A>) -> Result<Option<TypeNames<A>>, AllocError>
        ensures { IfOk result (λ found. found ≡ type_of names.items) }
    {
        know_type_names(&names);
        if names.len() == 0 {
            Ok(None)
        } else {
            let names = Rc::new(alloc, names)?;
            Ok(Some(TypeNames { names }))
        }
    }

    /// The same type, in the same memory.
    ///
    /// Fails where it is shared as often as can be counted.
    pub fn share(&self) -> Result<TypeNames<A>, AllocError>
        ensures { IfOk result (λ shared. shared ≡ self.now) }
    {
        let names = self.names.clone()?;
        Ok(TypeNames { names })
    }

    /// The primitive types, in the order in which they are written.
    pub fn as_slice(&self) -> &[TypeName<A>]
        ensures value { result.now ≡ self.now }
        ensures types { IsTrue (is_type self.now) }
    {
        &self.names
    }
}

/// Types are equal where they have the same primitive types in the same order.
impl<A: Allocator> PartialEq for TypeNames<A> {
    ghost eq = { pointwise bytes_eq };

    ghost laws = { partial_equiv_from_equiv (lists_equiv nat_list_eq_equiv) };

    fn eq(&self, other: &TypeNames<A>) -> bool {
        self.as_slice() == other.as_slice()
    }
}

impl<A: Allocator> Eq for TypeNames<A> {
    ghost laws = { lists_equiv nat_list_eq_equiv };
}

impl<A: Allocator> Hash for TypeNames<A> {
    ghost hash_input = { fed.slice fed_name };

    ghost respects_eq = { λ t u same. ap (fed.slice fed_name) ((pointwise_decides bytes_decides t u).0 same) };

    fn hash<H: Hasher>(&self, state: &mut H) {
        self.as_slice().hash(state);
    }
}

/// Looks at each type, which says that it is one; a proof learns it here, and the call does nothing else.
fn know_type_names<A: Allocator>(names: &[TypeName<A>])
    ensures { IsTrue (list_all is_type_name names.now) }
{
    for name in names {
        let _bytes = name.as_bytes();
    }
}

/// A name and its type: an object, a constant or a variable (without `?`) of a typed list.
#[derive(Drop)]
pub struct Typed<A: Allocator> {
    pub name: Name<A>,
    pub types: TypeNames<A>,
}
