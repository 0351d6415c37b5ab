//! Predicates and functions, what declares them, and tables of them by name, with the types of their parameters.

ghost use Rattle.std.specs.Prelude.{◌≡◌, [], map, IfOk, flat_map};
ghost use Rattle.pddl_formula.specs.TypedLists.{typed_view};
ghost use Rattle.pddl_domain.specs.Declarations.{Signature, predicate_view, function_view};
ghost use Rattle.pddl_task.specs.Names.{repeated, item_of};
ghost use Rattle.pddl_task.specs.Settings.{symbol_of, parameters_of};
ghost use Rattle.pddl_faults.specs.Passes.{Passes};
ghost use Rattle.pddl_faults.specs.Found.{IsFound, numbered};
ghost use Rattle.pddl_types.specs.Told.{AreTold, AreKept, unknown_among};
ghost use Rattle.pddl_types.specs.Signatures.{HaveFirst};

use crate::entries::put_new;
use crate::told::Told;
use crate::types::Types;
use indexmap::IndexMap;
use pddl_domain::{DeclaredFunction, DeclaredPredicate};
use pddl_faults::{LinkFault, once};
use pddl_formula::{Typed, TypedList};
use pddl_hash::Hashed;
use std::alloc::Allocator;

/// What declares a name with parameters: a predicate or a function.
pub trait Declares<A: Allocator> {
    ghost use Rattle.std.specs.Prelude.{◌≡◌};
    ghost use Rattle.pddl_formula.specs.TypedLists.{typed_view};
    ghost use Rattle.pddl_domain.specs.Declarations.{Signature, predicate_view, function_view};

    ghost signature: { Self → Signature };

    /// The name's bytes, in lower case.
    fn name(&self) -> &[u8]
        ensures { result.now ≡ (signature self.now).name };

    /// Its parameters, in the order in which they are declared.
    fn parameters(&self) -> &TypedList<A>
        ensures { map typed_view result.now.items ≡ (signature self.now).parameters };
}

impl<A: Allocator> Declares<A> for DeclaredPredicate<A> {
    ghost signature = { predicate_view };

    fn name(&self) -> &[u8] {
        self.predicate.as_bytes()
    }

    fn parameters(&self) -> &TypedList<A> {
        &self.parameters
    }
}

impl<A: Allocator> Declares<A> for DeclaredFunction<A> {
    ghost signature = { λ f. item_of (function_view f) };

    fn name(&self) -> &[u8] {
        self.name.as_bytes()
    }

    fn parameters(&self) -> &TypedList<A> {
        &self.parameters
    }
}

/// The parameters of what is declared, and the numbers at which their types are told.
#[derive(Drop)]
pub struct Slots<'m, 'a, A: Allocator, B: Allocator> {
    pub parameters: &'m [Typed<A>],
    pub numbers: Vec<usize, &'a B>,
}

/// Predicates or functions by name, in the order in which they are declared; of several of one name the first.
pub type Signatures<'m, 'a, A, B> = IndexMap<&'m [u8], Slots<'m, 'a, A, B>, Hashed, &'a B>;

/// Puts what is declared into an empty table, and tells the types of parameters. Answers the fault of a name that stands twice.
///
/// # Errors
///
/// `LinkFault::UnknownType`; `Memory` where memory for the table is refused.
pub(crate) fn put<'m, 'a, A: Allocator, B: Allocator, D: Declares<A>>(
    types: &Types<'m, 'a, A, B>,
    told: &mut Told<'m, 'a, A, B>,
    table: &mut Signatures<'m, 'a, A, B>,
    declared: &'m Vec<D, A>,
) -> Result<Result<(), LinkFault<'m>>, LinkFault<'m>>
    requires told { AreTold types.now told.old }
    requires empty { table.old.entries ≡ [] }
    ensures told { AreTold types.now told.new }
    ensures kept { AreKept told.old told.new }
    ensures passes { Passes 23 (unknown_among types.now.declared (flat_map parameters_of (map D.signature declared.now.items))) result }
    ensures found { IfOk result (IsFound (numbered 24 (repeated [] (map symbol_of (map D.signature declared.now.items))))) }
    ensures held { IfOk result (λ _. HaveFirst told.new table.new.entries (map D.signature declared.now.items)) }
{
    let mut found = Ok(());
    for each in declared {
        let name = each.name();
        let count = table.len();
        let list = each.parameters();
        let parameters = list.as_slice();
        let numbers = told.tell_all(*table.allocator(), types, list)?;
        let slots = Slots {
            parameters,
            numbers,
        };
        let place = put_new(table, name, Ok(slots))?;
        found = found.and(once(place == count, name));
    }
    Ok(found)
}
