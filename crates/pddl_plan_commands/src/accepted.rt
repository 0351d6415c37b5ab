//! What is printed of an accepted plan.

ghost use Rattle.std.specs.Prelude.{◌≡◌, IfOk, IsOkAnd};
ghost use Rattle.pddl_happenings.specs.NamedSteps.{by_name};
ghost use Rattle.pddl_judge.specs.HappeningValues.{groups_of, moments_of};
ghost use Rattle.pddl_layout.specs.PlanLayout.{plan_text};
ghost use Rattle.pddl_linked_task.specs.LinkedTasks.{task_of_files};
ghost use Rattle.pddl_plan_steps.specs.NumberedSteps.{number_of};
ghost use Rattle.pddl_serial_plans.specs.NewPlans.{IsAcceptedOf};
ghost use Rattle.pddl_plan.specs.Plans.{plan_view};
ghost use Rattle.pddl_plan_commands.specs.Inner.WantedPrintings.{printing_of};

use crate::wanted::Wanted;
use pddl_file_lines::let_go_plan;
use pddl_layout::plan_text;
use pddl_linked_plan::Steps;
use pddl_linked_task::Task;
use pddl_plan::Plan;
use pddl_plan_lines::valid_line;
use pddl_serial_plans::{serialise, split_in_groups};
use pddl_state::AtomStore;
use pddl_valid::Accepted;
use std::alloc::{AllocError, Allocator};

/// The canonical text of a plan that was made of an accepted one.
///
/// Fails as the plan failed, and where memory for the text is refused.
fn text_of<'a, B: Allocator>(
    alloc: &'a B,
    made: Result<Plan<&'a B>, AllocError>,
) -> Result<Vec<u8, &'a B>, AllocError>
    ensures { IfOk result (λ text. IsOkAnd made.entry (λ plan. text.items ≡ plan_text (plan_view plan))) }
{
    let plan = made?;
    let text = plan_text(alloc, &plan);
    let_go_plan(plan);
    text
}

/// What is printed of an accepted plan.
///
/// Fails where memory for it is refused.
pub(crate) fn accepted_text<'m, 'a, 'b, 'c, A, B, C, D, E, F, S>(
    alloc: &'c D,
    task: &Task<'m, 'a, A, B>,
    steps: &Steps<'b, C>,
    accepted: &Accepted<E, F, S>,
    wanted: Wanted,
) -> Result<Vec<u8, &'c D>, AllocError>
where
    A: Allocator,
    B: Allocator,
    C: Allocator,
    D: Allocator,
    E: Allocator,
    F: Allocator,
    S: AtomStore<E>,
    requires { IsAcceptedOf (task_of_files task.now) steps.now (moments_of accepted.now.happenings.items) (groups_of accepted.now.happenings.items)
        (by_name (number_of (task_of_files task.now)) (S.content accepted.now.store accepted.now.end)) accepted.now.cost }
    ensures { IfOk result (λ text. printing_of wanted (task_of_files task.now) steps.now (groups_of accepted.now.happenings.items)
        (by_name (number_of (task_of_files task.now)) (S.content accepted.now.store accepted.now.end)) accepted.now.cost text.items) }
{
    match wanted {
        Wanted::Verdict => {
            let happenings = accepted.happenings.len();
            valid_line(alloc, steps.len(), happenings, accepted.cost)
        }
        Wanted::Serial(order) => text_of(alloc, serialise(alloc, task, steps, accepted, order)),
        Wanted::Groups(order, size) => {
            let size = size.get() as usize;
            text_of(
                alloc,
                split_in_groups(alloc, task, steps, accepted, size, order),
            )
        }
    }
}
