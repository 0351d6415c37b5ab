//! The state that plans start in.

ghost use Rattle.std.specs.Prelude.{◌≡◌, ◌||◌, IfOk, OnOk};
ghost use Rattle.pddl_state.specs.Atoms.{AtomValue};
ghost use Rattle.pddl_state.specs.AtomSets.{is_listed};
ghost use Rattle.pddl_linked_task.specs.LinkedTasks.{task_of_files};
ghost use Rattle.pddl_plan_steps.specs.PlanSteps.{numbered_start};

use pddl_linked_plan::initial_atoms;
use pddl_linked_task::Task;
use pddl_state::{Atom, AtomStore};
use std::alloc::{AllocError, Allocator};

/// Puts atoms into a set.
fn add_atoms<A: Allocator, S: AtomStore<A>>(
    store: &mut S,
    set: &mut S::Set,
    atoms: &[Atom<A>],
) -> Result<(), AllocError>
    requires { S.owns store.old set.old }
    ensures own { S.owns store.new set.new }
    ensures content { OnOk result ((x : AtomValue) → S.content store.new set.new x ≡ (is_listed atoms.now x || S.content store.old set.old x)) }
{
    for atom in atoms {
        store.insert(set, atom)?;
    }
    Ok(())
}

/// A set of the atoms that hold at first, by numbers.
///
/// Fails only where memory for them is refused.
pub fn initial_state<'m, 'a, 'c, A: Allocator, B: Allocator, D: Allocator, S: AtomStore<&'c D>>(
    alloc: &'c D,
    task: &Task<'m, 'a, A, B>,
    store: &mut S,
) -> Result<S::Set, AllocError>
    ensures own { IfOk result (λ set. S.owns store.new set) }
    ensures content { IfOk result (λ set. S.content store.new set ≡ numbered_start (task_of_files task.now)) }
{
    let atoms = initial_atoms(alloc, task)?;
    let mut set = store.empty();
    let added = add_atoms(store, &mut set, &atoms);
    drop(atoms);
    added?;
    Ok(set)
}
