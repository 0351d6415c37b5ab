//! The files that are looked at, in the order of the canonical text: what they declare, and what they use.

ghost use Rattle.std.specs.Prelude.{◌≡◌, ◌++◌, [], map, OnOk};
ghost use Rattle.pddl_domain.specs.Domains.{domain_view};
ghost use Rattle.pddl_task.specs.Faults.{large_goals};
ghost use Rattle.pddl_task.specs.Linked.{fault_in};
ghost use Rattle.pddl_faults.specs.Passes.{Passes, Verdict};
ghost use Rattle.pddl_faults.specs.Found.{IsFound};
ghost use Rattle.pddl_types.specs.Known.{IsNothing, AreKnown, AreAllKnown};
ghost use Rattle.pddl_names.specs.FaultParts.{problem_in, joined, problem_parts, part_rules};

use crate::init::claims;
use crate::passes::{object_fluents, object_types};
use crate::walk::{search_actions, search_problem};
use pddl_domain::Domain;
use pddl_faults::{LinkFault, lower};
use pddl_problem::Problem;
use pddl_types::{Known, Tables, Told};
use std::alloc::Allocator;

/// The lowest fault of a problem from 23 on but for the size of its goal, behind those of its domain. Its objects are added behind the domain's constants.
fn look_at_problem<'m, 'a, A: Allocator, B: Allocator>(
    known: &mut Known<'m, 'a, A, B>,
    told: &mut Told<'m, 'a, A, B>,
    domain: &Domain<A>,
    problem: Option<&'m Problem<A>>,
) -> Result<(), LinkFault<'m>>
    requires { AreKnown (domain_view domain.now) (domain_view domain.now).constants known.old told.old }
    ensures found { IsFound (joined (problem_parts (domain_view domain.now) (problem_in problem.entry))) result }
    ensures known { OnOk result (AreKnown (domain_view domain.now) ((domain_view domain.now).constants ++ (problem_in problem.entry).objects) known.new told.new) }
{
    match problem {
        Some(problem) => {
            let alloc = known.types.allocator();
            let hashed = known.types.hashed();
            let init = claims(alloc, hashed, &problem.init);
            let alone = lower(init, object_types(&problem.objects));
            match known.listed.add(&known.types, told, &problem.objects) {
                Ok(objects) => {
                    let places = search_problem(&*known, told, problem);
                    lower(objects, lower(places, alone))
                }
                Err(fault) => Err(fault),
            }
        }
        None => Ok(()),
    }
}

/// The lowest fault of a domain and a problem, or of a domain alone, from 23 on but for the size of the goal. Nothing is known before but the types of the domain,
/// and none is told. Where there is no such fault, predicates, functions and objects are known, and their types are told.
///
/// # Errors
///
/// That fault; `Memory` where memory is refused. A type that is not known where something has it that is declared ends the search, since no fault is lower.
pub fn look_at_files<'m, 'a, A: Allocator, B: Allocator>(
    known: &mut Known<'m, 'a, A, B>,
    told: &mut Told<'m, 'a, A, B>,
    domain: &'m Domain<A>,
    problem: Option<&'m Problem<A>>,
) -> Result<(), LinkFault<'m>>
    requires typed { known.old.types.declared ≡ (domain_view domain.now).types }
    requires nothing { IsNothing known.old }
    requires told { told.old ≡ [] }
    ensures verdict { Verdict (map (fault_in (domain_view domain.now) (problem_in problem.entry)) part_rules) result }
    ensures known { OnOk result (AreKnown (domain_view domain.now) ((domain_view domain.now).constants ++ (problem_in problem.entry).objects) known.new told.new) }
{
    let names = known.add_domain(told, domain)?;
    let actions = search_actions(&*known, told, &domain.actions);
    let others = lower(object_types(&domain.constants), object_fluents(domain));
    let found = lower(names, lower(actions, others));
    lower(found, look_at_problem(known, told, domain, problem))
}

/// The goal of a problem is not too large.
pub fn look_at_goal<'m, 'a, A: Allocator, B: Allocator>(
    tables: &Tables<'m, 'a, A, B>,
    domain: &Domain<A>,
    problem: Option<&'m Problem<A>>,
) -> Result<(), LinkFault<'m>>
    requires { AreAllKnown (domain_view domain.now) ((domain_view domain.now).constants ++ (problem_in problem).objects) tables.now.known tables.now.told }
    ensures { Passes 35 (large_goals (domain_view domain.now) (problem_in problem.entry)) result }
{
    match problem {
        Some(problem) => if tables.ground_size(&problem.goal) > 1_000_000 {
            Err(LinkFault::GoalTooLarge)
        } else {
            Ok(())
        },
        None => Ok(()),
    }
}
