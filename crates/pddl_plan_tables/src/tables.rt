//! What a plan's steps are looked up in.

ghost use Rattle.std.specs.Prelude.{◌≡◌, IfOk};
ghost use Rattle.pddl_plan_tables.specs.PlanTables.{ArePlanTables};

use crate::action_table::{Actions, actions_by_name};
use pddl_build::both_made;
use pddl_linked_task::Task;
use pddl_tables::{TaskPrices, task_prices};
use std::alloc::{AllocError, Allocator};

/// A task with its actions by name, and its costs by numbers.
#[derive(Drop)]
pub struct PlanTables<'t, 'm, 'a, 'c, A: Allocator, B: Allocator, C: Allocator> {
    pub alloc: &'c C,
    pub task: &'t Task<'m, 'a, A, B>,
    pub actions: Actions<'m, 'c, A, C>,
    pub prices: TaskPrices<'c, C>,
}

/// A task with its tables.
///
/// Fails where memory for one of them is refused.
pub fn plan_tables<'t, 'm, 'a, 'c, A: Allocator, B: Allocator, C: Allocator>(
    alloc: &'c C,
    task: &'t Task<'m, 'a, A, B>,
) -> Result<PlanTables<'t, 'm, 'a, 'c, A, B, C>, AllocError>
    ensures task { IfOk result (λ tables. tables.task.now ≡ task.now) }
    ensures tables { IfOk result (λ tables. ArePlanTables tables) }
{
    let domain = task.domain();
    let actions = actions_by_name(alloc, task, &domain.actions);
    let prices = task_prices(alloc, task);
    let (actions, prices) = both_made(actions, prices)?;
    Ok(PlanTables {
        alloc,
        task,
        actions,
        prices,
    })
}
