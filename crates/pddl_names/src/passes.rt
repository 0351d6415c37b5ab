//! Passes over declarations, each of which looks for one fault of a domain or a problem.

ghost use Rattle.std.specs.Prelude.{◌≡◌, map};
ghost use Rattle.pddl_formula.specs.TypedLists.{typed_view};
ghost use Rattle.pddl_domain.specs.Declarations.{number};
ghost use Rattle.pddl_domain.specs.Domains.{domain_view};
ghost use Rattle.pddl_problem.specs.Inits.{metric_view};
ghost use Rattle.pddl_problem.specs.Problems.{problem_view};
ghost use Rattle.pddl_task.specs.Names.{same_names};
ghost use Rattle.pddl_task.specs.Places.{is_taken};
ghost use Rattle.pddl_task.specs.Faults.{domain_names, object_types, object_fluents};
ghost use Rattle.pddl_faults.specs.Passes.{Passes};

use pddl_domain::Domain;
use pddl_faults::LinkFault;
use pddl_formula::{TypeNames, Typed};
use pddl_problem::{Direction, Metric, Problem};
use std::alloc::Allocator;

/// The problem is of the domain.
pub fn domain_name<'d, A: Allocator, B: Allocator>(
    domain: &Domain<A>,
    problem: &'d Problem<B>,
) -> Result<(), LinkFault<'d>>
    ensures { Passes 20 (domain_names (domain_view domain.now) (problem_view problem.now)) result }
{
    if problem.domain.as_bytes() == domain.name.as_bytes() {
        Ok(())
    } else {
        Err(LinkFault::DomainName(problem.domain.as_bytes()))
    }
}

/// The type of each constant or object has one primitive.
pub(crate) fn object_types<'d, A: Allocator>(objects: &'d [Typed<A>]) -> Result<(), LinkFault<'d>>
    ensures { Passes 25 (object_types (map typed_view objects.now)) result }
{
    for object in objects {
        if object.types.as_slice().len() > 1 {
            return Err(LinkFault::ObjectTypes(object.name.as_bytes()));
        }
    }
    Ok(())
}

/// Whether a result's type is `number`.
fn is_number<A: Allocator>(types: &TypeNames<A>) -> bool
    ensures { result ≡ same_names types.now number }
{
    match types.as_slice() {
        [name] => name.as_bytes() == b"number".as_slice(),
        _ => false,
    }
}

/// Each declared function gives a number.
pub(crate) fn object_fluents<'d, A: Allocator>(domain: &'d Domain<A>) -> Result<(), LinkFault<'d>>
    ensures { Passes 32 (object_fluents (domain_view domain.now)) result }
{
    for function in &domain.functions {
        if !is_number(&function.result) {
            return Err(LinkFault::ObjectFluent(function.name.as_bytes()));
        }
    }
    Ok(())
}

/// Whether a metric is `minimize` of `total-cost` without arguments.
pub(crate) fn is_taken<A: Allocator>(metric: &Metric<A>) -> bool
    ensures { result ≡ is_taken (metric_view metric.now) }
{
    matches!(metric.direction, Direction::Minimize)
        && metric.function.function.as_bytes() == b"total-cost".as_slice()
        && metric.function.objects.len() == 0
}
