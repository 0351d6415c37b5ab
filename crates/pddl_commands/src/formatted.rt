//! What `format` prints.

ghost use Rattle.std.specs.Prelude.{◌≡◌, IfOk};
ghost use Rattle.pddl_layout.specs.PlanLayout.{plan_text};
ghost use Rattle.pddl_plan.specs.Plans.{plan_view};
ghost use Rattle.pddl_kind.specs.declared.Kind.{Kind};
ghost use Rattle.pddl_commands.specs.Formats.{IsFormatted};

use pddl_domain::let_go_domain;
use pddl_domain_reader::read_domain;
use pddl_file_layout::{domain_text, problem_text};
use pddl_file_lines::{Formatted, Outcome, let_go_text, refused_domain, refused_problem};
use pddl_layout::plan_text;
use pddl_plan::Plan;
use pddl_problem::let_go_problem;
use pddl_problem_reader::read_problem;
use std::alloc::{AllocError, Allocator};

/// A text that is printed for a good file, and the outcome.
fn good<'a, B: Allocator>(
    printed: Result<Vec<u8, &'a B>, AllocError>,
) -> Result<Formatted<'a, B>, AllocError>
    ensures { IfOk result (λ answer. (answer.1 ≡ Outcome.Good) × (printed.entry ≡ Ok answer.0)) }
{
    Ok((printed?, Outcome::Good))
}

/// What is printed for a domain's text, and the outcome. The text is let go once it is read.
pub(crate) fn formatted_domain<'a, B: Allocator>(
    alloc: &'a B,
    text: Vec<u8, &'a B>,
) -> Result<Formatted<'a, B>, AllocError>
    ensures { IfOk result (λ answer. IsFormatted Kind.Domain text.entry.items answer.0.items answer.1) }
{
    match read_domain(alloc, &text) {
        Ok(domain) => {
            let_go_text(text);
            let printed = domain_text(alloc, &domain);
            let_go_domain(domain);
            good(printed)
        }
        Err(fault) => refused_domain(alloc, &text, &fault),
    }
}

/// What is printed for a problem's text, and the outcome. The text is let go once it is read.
pub(crate) fn formatted_problem<'a, B: Allocator>(
    alloc: &'a B,
    text: Vec<u8, &'a B>,
) -> Result<Formatted<'a, B>, AllocError>
    ensures { IfOk result (λ answer. IsFormatted Kind.Problem text.entry.items answer.0.items answer.1) }
{
    match read_problem(alloc, &text) {
        Ok(problem) => {
            let_go_text(text);
            let printed = problem_text(alloc, &problem);
            let_go_problem(problem);
            good(printed)
        }
        Err(fault) => refused_problem(alloc, &text, &fault),
    }
}

/// What is printed for a plan, and the outcome.
pub(crate) fn formatted_plan<'a, B: Allocator>(
    alloc: &'a B,
    plan: &Plan<&'a B>,
) -> Result<Formatted<'a, B>, AllocError>
    ensures { IfOk result (λ answer. (answer.1 ≡ Outcome.Good) × (answer.0.items ≡ plan_text (plan_view plan.now))) }
{
    good(plan_text(alloc, plan))
}
