//! What formulas and effects are compiled by.

ghost use Rattle.std.specs.Prelude.{◌≡◌, IfOk};
ghost use Rattle.pddl_task.specs.Names.{number_in};

use pddl_formula::TypeNames;
use std::alloc::{AllocError, Allocator};

/// The numbers of names, and of the objects that fit types.
///
/// `A` is the allocator of what is compiled, and `B` the one that is compiled into.
pub trait Lookups<A: Allocator, B: Allocator> {
    ghost use Rattle.pddl_compiled.specs.Tables.{Tables};

    ghost tables: { Self → Tables };

    /// The number of a predicate.
    fn predicate_number(&self, name: &[u8]) -> usize
        ensures { result ≡ number_in (tables self.now).predicates name.now };

    /// The number of a function.
    fn function_number(&self, name: &[u8]) -> usize
        ensures { result ≡ number_in (tables self.now).functions name.now };

    /// The number of an object.
    fn object_number(&self, name: &[u8]) -> usize
        ensures { result ≡ number_in (tables self.now).objects name.now };

    /// The numbers of the objects that fit a type.
    ///
    /// Fails where memory for them is refused.
    fn fitting<'b>(
        &self,
        alloc: &'b B,
        types: &TypeNames<A>,
    ) -> Result<Vec<usize, &'b B>, AllocError>
        ensures { IfOk result (λ numbers. numbers.items ≡ (tables self.now).range types.now) };
}
