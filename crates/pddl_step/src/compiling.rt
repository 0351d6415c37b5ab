//! Compiles linked plans.

ghost use Rattle.std.specs.Prelude.{◌≡◌, [], Ok, IfOk};
ghost use Rattle.pddl_formula.specs.Formulas.{formula_view};
ghost use Rattle.pddl_task.specs.Linked.{IsLinked};
ghost use Rattle.pddl_linked_task.specs.LinkedTasks.{task_of_files};
ghost use Rattle.pddl_compiled.specs.Compiler.{condition_of};
ghost use Rattle.pddl_compiled.specs.TaskTables.{tables_of};
ghost use Rattle.pddl_compiled.specs.Views.{condition_view};
ghost use Rattle.pddl_linked_plan.specs.LinkedSteps.{AreLinkedSteps};
ghost use Rattle.pddl_plan_steps.specs.PlanSteps.{numbered_steps, numbered_goal};
ghost use Rattle.pddl_compiled_plan.specs.CompiledSteps.{AreForms, AreHeld};
ghost use Rattle.pddl_compiled_plan.specs.HeldPlans.{plan_steps, plan_course, plan_goal};

use crate::actions::used_actions;
use pddl_build::all_made;
use pddl_compiled::{Condition, Lookups, Scope, compile_condition};
use pddl_compiled_plan::{CompiledPlan, UsedActions};
use pddl_formula::Formula;
use pddl_linked_plan::Steps;
use pddl_linked_task::Task;
use pddl_tables::{TaskLookups, task_prices};
use std::alloc::{AllocError, Allocator};

/// A formula without variables in scope, by numbers.
///
/// Fails where memory for it is refused.
fn compile_closed<'c, A: Allocator, D: Allocator, L: Lookups<A, D>>(
    alloc: &'c D,
    lookups: &L,
    formula: &Formula<A>,
) -> Result<Condition<&'c D>, AllocError>
    ensures { IfOk result (λ c. condition_view c ≡ condition_of (L.tables lookups.now) (formula_view formula.now) []) }
{
    compile_condition(alloc, lookups, formula, &Scope::Empty)
}

/// The actions that steps use, and the goal, by numbers, with the prices that were made.
///
/// Fails as the prices failed, and where memory for the others is refused.
fn compile_parts<'m, 'a, 'b, 'c, A, B, C, D, L, P>(
    alloc: &'c D,
    lookups: &L,
    task: &Task<'m, 'a, A, B>,
    steps: &Steps<'b, C>,
    prices: Result<P, AllocError>,
) -> Result<(UsedActions<'c, D>, Condition<&'c D>, P), AllocError>
where
    A: Allocator,
    B: Allocator,
    C: Allocator,
    D: Allocator,
    L: Lookups<A, D>,
    P: Drop,
    requires tables { L.tables lookups.now ≡ tables_of (task_of_files task.now) }
    requires files { IsLinked task.now.domain task.now.problem }
    requires linked { AreLinkedSteps (task_of_files task.now) steps.now }
    ensures forms { IfOk result (λ made. AreForms (task_of_files task.now) made.0.items) }
    ensures used { IfOk result (λ made. AreHeld steps.now made.0.items) }
    ensures goal { IfOk result (λ made. condition_view made.1 ≡ condition_of (tables_of (task_of_files task.now)) (task_of_files task.now).goal []) }
    ensures prices { IfOk result (λ made. prices ≡ Ok made.2) }
{
    let actions = used_actions(alloc, lookups, task, steps);
    let goal = compile_closed(alloc, lookups, task.goal());
    all_made(actions, goal, prices)
}

/// The plan of steps that are linked to a task, ready to be executed. It keeps nothing of the task.
///
/// An action is compiled once, however many steps use it, and one that no step uses is left out. Fails only where memory for the
/// compiled actions, the goal or the costs is refused. What the steps mean is that of Fox and Long, PDDL2.1, JAIR 20, 2003, and of this
/// project for quantifiers, `when` and costs; that they are compiled is own.
pub fn compile_plan<'m, 'a, 's, 'b, 'c, A, B, C, D>(
    alloc: &'c D,
    task: &Task<'m, 'a, A, B>,
    steps: &'s Steps<'b, C>,
) -> Result<CompiledPlan<'s, 'b, 'c, C, D>, AllocError>
where
    A: Allocator,
    B: Allocator,
    C: Allocator,
    D: Allocator,
    requires { AreLinkedSteps (task_of_files task.now) steps.now }
    ensures steps { IfOk result (λ plan. plan_steps plan ≡ steps.now) }
    ensures course { IfOk result (λ plan. plan_course plan ≡ numbered_steps (task_of_files task.now) steps.now) }
    ensures goal { IfOk result (λ plan. plan_goal plan ≡ numbered_goal (task_of_files task.now)) }
{
    task.files_are_linked();
    let lookups = TaskLookups::of(task);
    let prices = task_prices(alloc, task);
    let (actions, goal, prices) = compile_parts(alloc, &lookups, task, steps, prices)?;
    Ok(CompiledPlan::of(alloc, steps, actions, goal, prices))
}

/// Lets a plan go. A crate in which one ends proves how it is taken apart, with each type in it; crates that call this do not.
pub fn let_go_compiled_plan<'s, 'b, 'c, C: Allocator, D: Allocator>(
    plan: CompiledPlan<'s, 'b, 'c, C, D>,
) {
    drop(plan);
}
