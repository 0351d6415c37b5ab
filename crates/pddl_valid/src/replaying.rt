//! Runs of a plan's steps, one after another.

ghost use Rattle.std.specs.Prelude.{◌≡◌, Err, MatchResult};
ghost use Rattle.pddl_linked_task.specs.LinkedTasks.{task_of_files};
ghost use Rattle.pddl_linked_plan.specs.LinkedSteps.{AreLinkedSteps};
ghost use Rattle.pddl_valid.specs.SerialEnds.{IsReplayed, end_of};
ghost use Rattle.pddl_valid.specs.declared.fault.ReplayFault.TheVariants.{Memory};

use crate::fault::ReplayFault;
use crate::moments::happenings;
use pddl_linked_plan::Steps;
use pddl_linked_task::Task;
use pddl_serial::{End, Replayed};
use pddl_state::AtomStore;
use pddl_step::{compile_plan, initial_state, let_go_compiled_plan};
use std::alloc::{AllocError, Allocator};

/// The end of a list that was executed, or why there is none.
fn end_of<A: Allocator>(run: Result<Replayed<A>, AllocError>) -> Result<End<A>, ReplayFault>
    ensures { MatchResult run (λ replayed. result ≡ end_of replayed) (λ _. result ≡ Err Memory) }
{
    match run? {
        Replayed::NotASerialisation => Err(ReplayFault::NotASerialisation),
        Replayed::StepFails(place) => Err(ReplayFault::StepFails { place }),
        Replayed::Ended(end) => Ok(end),
    }
}

/// Executes the steps of a linked plan one after another, each alone, in the order of a list of their numbers, from the atoms that
/// hold at first. The plan need not be accepted; the store is given up.
///
/// # Errors
///
/// - `NotASerialisation` exactly where the list has not each step once, or one of a later happening before one of an earlier.
/// - Else `StepFails` with the first place of the list, from 0, whose step's precondition is false in the state that the steps before
///   it give.
/// - `Memory` where a growth was refused.
///
/// Own; what a step does is that of Fox and Long, PDDL2.1, JAIR 20, 2003.
pub fn replay<'m, 'a, 'b, 'c, A, B, C, D, S>(
    alloc: &'c D,
    task: &Task<'m, 'a, A, B>,
    steps: &Steps<'b, C>,
    order: &[u32],
    mut store: S,
) -> Result<End<&'c D>, ReplayFault>
where
    A: Allocator,
    B: Allocator,
    C: Allocator,
    D: Allocator,
    S: AtomStore<&'c D>,
    requires { AreLinkedSteps (task_of_files task.now) steps.now }
    ensures { IsReplayed (task_of_files task.now) steps.now order.now result }
{
    task.files_are_linked();
    let start = initial_state(alloc, task, &mut store)?;
    let groups = happenings(alloc, steps)?;
    let plan = compile_plan(alloc, task, steps)?;
    let run = pddl_serial::replay(alloc, &plan, &groups, order, store, start);
    let_go_compiled_plan(plan);
    drop(groups);
    end_of(run)
}
