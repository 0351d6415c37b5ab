//! The actions of a task by name.

ghost use Rattle.std.specs.Prelude.{◌≡◌, [], map, IfOk};
ghost use Rattle.pddl_domain.specs.Actions.{action_view};
ghost use Rattle.pddl_task.specs.Names.{repeated};
ghost use Rattle.pddl_task.specs.GroundSize.{capped, action_size};
ghost use Rattle.pddl_task.specs.Tasks.{task_count};
ghost use Rattle.pddl_linked_task.specs.LinkedTasks.{task_of_files};
ghost use Rattle.pddl_linked_plan.specs.StepFaults.{action_name};
ghost use Rattle.pddl_plan_tables.specs.StepTables.{named_action, named_in};

use indexmap::IndexMap;
use pddl_domain::Action;
use pddl_hash::Hashed;
use pddl_linked_task::Task;
use std::alloc::{AllocError, Allocator};

/// An action with the ground size of its steps.
#[derive(Drop)]
pub struct SizedAction<'m, A: Allocator> {
    pub action: &'m Action<A>,
    pub size: u32,
}

/// Actions by name, in the domain's order.
pub type Actions<'m, 'c, A, C> = IndexMap<&'m [u8], SizedAction<'m, A>, Hashed, &'c C>;

/// An action with the ground size of its steps.
fn sized_action<'m, 'a, A: Allocator, B: Allocator>(
    task: &Task<'m, 'a, A, B>,
    action: &'m Action<A>,
) -> SizedAction<'m, A>
    ensures action { result.action.now ≡ action.now }
    ensures size { result.size ≡ capped (action_size (task_count (task_of_files task.now)) (action_view action.now)) }
{
    SizedAction {
        action,
        size: task.action_ground_size(action),
    }
}

/// Actions by their names, each declared once.
///
/// Fails where memory for the table is refused.
pub fn actions_by_name<'m, 'a, 'c, A: Allocator, B: Allocator, C: Allocator>(
    alloc: &'c C,
    task: &Task<'m, 'a, A, B>,
    actions: &'m [Action<A>],
) -> Result<Actions<'m, 'c, A, C>, AllocError>
    requires { repeated [] (map action_name (map action_view actions.now)) ≡ [] }
    ensures { IfOk result (λ table. map named_in table.entries ≡ map (named_action (task_count (task_of_files task.now))) (map action_view actions.now)) }
{
    let mut table = IndexMap::with_capacity_and_hasher(alloc, actions.len(), task.hashed())?;
    for action in actions {
        table.insert(action.name.as_bytes(), sized_action(task, action))?;
    }
    Ok(table)
}
