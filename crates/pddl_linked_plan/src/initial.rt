//! The atoms that hold at first.

ghost use Rattle.std.specs.Prelude.{◌≡◌, true, map, IfOk};
ghost use Rattle.pddl_domain.specs.Domains.{DomainValue};
ghost use Rattle.pddl_problem.specs.Inits.{GroundValue, fact_view};
ghost use Rattle.pddl_problem.specs.Problems.{ProblemValue};
ghost use Rattle.pddl_state.specs.Atoms.{AtomValue};
ghost use Rattle.pddl_task.specs.Names.{is_in, number_in};
ghost use Rattle.pddl_task.specs.Linked.{IsLinked};
ghost use Rattle.pddl_task.specs.Tasks.{TaskValue, task_of, predicate_names, object_names};
ghost use Rattle.pddl_task.specs.Known.{is_known};
ghost use Rattle.pddl_linked_task.specs.LinkedTasks.{task_of_files};
ghost use Rattle.pddl_linked_plan.specs.NumberedAtoms.{numbered, initial_atoms, named_atom, NamesAtom, IsInRange};

use pddl_linked_task::Task;
use pddl_problem::{Fact, InitItem};
use pddl_state::Atom;
use pddl_token::Name;
use std::alloc::{AllocError, Allocator};

/// The number of an object of the task.
fn object_number<'m, 'a, A: Allocator, B: Allocator>(
    task: &Task<'m, 'a, A, B>,
    object: &[u8],
) -> usize
    requires { is_in (object_names (task_of_files task.now)) object.now ≡ true }
    ensures { result ≡ number_in (object_names (task_of_files task.now)) object.now }
{
    task.object_number(object).unwrap()
}

/// The number of a predicate of the task.
fn predicate_number<'m, 'a, A: Allocator, B: Allocator>(
    task: &Task<'m, 'a, A, B>,
    name: &[u8],
) -> usize
    requires { is_in (predicate_names (task_of_files task.now)) name.now ≡ true }
    ensures { result ≡ number_in (predicate_names (task_of_files task.now)) name.now }
{
    task.predicate_number(name).unwrap()
}

/// A fact of which the task has all names, by numbers.
///
/// Fails where memory for its arguments is refused.
fn numbered<'m, 'a, 'b, A: Allocator, B: Allocator, C: Allocator>(
    alloc: &'b C,
    task: &Task<'m, 'a, A, B>,
    fact: &Fact<A>,
) -> Result<Atom<&'b C>, AllocError>
    requires { is_known (task_of_files task.now) (fact_view fact.now) ≡ true }
    ensures { IfOk result (λ atom. atom ≡ numbered (task_of_files task.now) (fact_view fact.now)) }
{
    let predicate = predicate_number(task, fact.predicate.as_bytes());
    let mut args = Vec::new(alloc);
    for i in 0..fact.objects.len() {
        args.push(object_number(task, fact.objects.at(i)))?;
    }
    Ok(Atom { predicate, args })
}

/// The atoms that hold at first, by numbers, in the order of `:init`.
///
/// An atom that stands twice there is listed twice. Fails where memory for the list is refused.
pub fn initial_atoms<'m, 'a, 'b, A: Allocator, B: Allocator, C: Allocator>(
    alloc: &'b C,
    task: &Task<'m, 'a, A, B>,
) -> Result<Vec<Atom<&'b C>, &'b C>, AllocError>
    ensures { IfOk result (λ atoms. atoms.items ≡ initial_atoms (task_of_files task.now)) }
{
    let problem = task.problem();
    let init = problem.init.as_slice();
    let mut atoms = Vec::new(alloc);
    for item in init {
        match item {
            InitItem::Holds(fact) => atoms.push(numbered(alloc, task, fact)?)?,
            InitItem::Fails(_) => {}
            InitItem::Value(_, _) => {}
        }
    }
    Ok(atoms)
}

/// The numbers of an atom of which the task has all names name that atom, so no other such atom has them.
pub fn numbers_name_atoms()
    ensures { (task : TaskValue) (g : GroundValue) → is_known task g ≡ true → NamesAtom task g (numbered task g) }
{}

/// A known atom's numbers are in range, and their names are its own.
pub fn known_atoms_have_numbers()
    ensures { (task : TaskValue) (g : GroundValue) → is_known task g ≡ true → IsInRange task (numbered task g) × (named_atom task (numbered task g) ≡ g) }
{}

/// In linked files an atom by numbers in range names one known atom, whose numbers they are: by the law before it no other.
pub fn atoms_in_range_name_one()
    ensures { (d : DomainValue) (p : ProblemValue) → IsLinked d p → (atom : AtomValue) → IsInRange (task_of d p) atom
        → (is_known (task_of d p) (named_atom (task_of d p) atom) ≡ true) × (numbered (task_of d p) (named_atom (task_of d p) atom) ≡ atom) }
{}
