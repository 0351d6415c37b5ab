//! Links a domain with a problem, or looks at a domain alone.

ghost use Rattle.std.specs.Prelude.{◌≡◌, ◌++◌, [], Ok, Err, map, drop, IfOk, IfErr, OnOk};
ghost use Rattle.pddl_domain.specs.Domains.{domain_view};
ghost use Rattle.pddl_problem.specs.Problems.{problem_view};
ghost use Rattle.pddl_task.specs.Linked.{fault_in, domain_faults, faults, rules};
ghost use Rattle.pddl_faults.specs.Passes.{Verdict};
ghost use Rattle.pddl_types.specs.TypeSpans.{AreNumbered};
ghost use Rattle.pddl_types.specs.Known.{objects_in, IsNothing, AreAllKnown};
ghost use Rattle.pddl_names.specs.FaultParts.{problem_in, part_rules};
ghost use Rattle.pddl_linked_task.specs.TaskTables.{HaveAll};
ghost use Rattle.pddl_linked_task.specs.LinkedTasks.{files};

use pddl_domain::Domain;
use pddl_faults::LinkFault;
use pddl_hash::Hashed;
use pddl_linked_task::Task;
use pddl_names::{domain_name, look_at_files, look_at_goal};
use pddl_problem::Problem;
use pddl_types::{Known, ObjectOrder, Tables, Told, Types, tell_parameters};
use std::alloc::Allocator;

/// The order of the types of objects, where no fault from 23 to 33 stands. Nothing is known before but the types of the domain, and none is told.
fn order_behind_types<'m, 'a, A: Allocator, B: Allocator>(
    known: &mut Known<'m, 'a, A, B>,
    told: &mut Told<'m, 'a, A, B>,
    domain: &'m Domain<A>,
    problem: Option<&'m Problem<A>>,
) -> Result<ObjectOrder<'a, B>, LinkFault<'m>>
    requires typed { known.old.types.declared ≡ (domain_view domain.now).types }
    requires nothing { IsNothing known.old }
    requires told { told.old ≡ [] }
    ensures known { OnOk result (AreAllKnown (domain_view domain.now) ((domain_view domain.now).constants ++ (problem_in problem.entry).objects) known.new told.new) }
    ensures numbered { IfOk result (λ order. AreNumbered known.new.types (objects_in known.new) order.numbers.items) }
    ensures verdict { Verdict (map (fault_in (domain_view domain.now) (problem_in problem.entry)) part_rules) result }
{
    look_at_files(known, told, domain, problem)?;
    tell_parameters(&known.types, told, &mut known.actions, &domain.actions)?;
    Ok(known.listed.order(&*told)?)
}

/// A value with what was made beside it; where that was not made, the value is let go. It is of any type, since a check does much for letting go a value of
/// which all is known.
fn beside<V: Drop, T: Drop, E: Drop>(value: V, made: Result<T, E>) -> Result<(V, T), E>
    ensures made { IfOk result (λ both. (both.0 ≡ value) × (made ≡ Ok both.1)) }
    ensures failed { IfErr result (λ fault. made ≡ Err fault) }
{
    Ok((value, made?))
}

/// What a domain and a problem, or a domain alone, declare, where no fault from 21 on stands.
fn link_files<'m, 'a, A: Allocator, B: Allocator>(
    alloc: &'a B,
    domain: &'m Domain<A>,
    problem: Option<&'m Problem<A>>,
    hashed: Hashed,
) -> Result<Tables<'m, 'a, A, B>, LinkFault<'m>>
    ensures known { IfOk result (HaveAll (domain_view domain.now) (problem_in problem.entry)) }
    ensures verdict { Verdict (map (fault_in (domain_view domain.now) (problem_in problem.entry)) (drop 1 rules)) result }
{
    let types = Types::of(alloc, hashed, &domain.types)?;
    let mut known = Known::of(types);
    let mut told = Told::new(&known.types);
    let order = order_behind_types(&mut known, &mut told, domain, problem);
    let (known, order) = beside(known, order)?;
    let tables = Tables { known, told, order };
    let goal = look_at_goal(&tables, domain, problem);
    goal.and(Ok(tables))
}

/// Checks a domain: the faults 21 to 32 that it shows by itself.
///
/// Of the faults that stand, the one with the lowest number is answered, with the word of a place where it stands.
///
/// # Errors
///
/// A `LinkFault`; `Memory` where a growth was refused.
pub fn check_domain<'d, 'a, A: Allocator, B: Allocator>(
    alloc: &'a B,
    domain: &'d Domain<A>,
) -> Result<(), LinkFault<'d>>
    ensures { Verdict (domain_faults (domain_view domain.now)) result }
{
    link_files(alloc, domain, None, domain.hashed).and(Ok(()))
}

/// Links a domain and a problem: the task that they make.
///
/// Of the faults 20 to 35 that stand, the one with the lowest number is answered, with the word of a place where it stands.
///
/// # Errors
///
/// A `LinkFault`; `Memory` where a growth was refused.
pub fn link<'m, 'a, A: Allocator, B: Allocator>(
    alloc: &'a B,
    domain: &'m Domain<A>,
    problem: &'m Problem<A>,
) -> Result<Task<'m, 'a, A, B>, LinkFault<'m>>
    ensures task { IfOk result (λ task. task ≡ files (domain_view domain.now) (problem_view problem.now)) }
    ensures verdict { Verdict (faults (domain_view domain.now) (problem_view problem.now)) result }
{
    domain_name(domain, problem)?;
    let hashed = domain.hashed.with(problem.hashed);
    let both = link_files(alloc, domain, Some(problem), hashed)?;
    Ok(Task::of(domain, problem, both))
}
