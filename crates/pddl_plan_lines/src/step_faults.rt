//! The lines of plans that do not link.

ghost use Rattle.std.specs.Prelude.{◌≡◌, ◌≢◌, ◌+◌, ◌++◌, [], None, codes, IfOk};
ghost use Rattle.std.specs.Fmt.{decimal};
ghost use Rattle.pddl_file_lines.specs.Lines.{IsFaultLine};
ghost use Rattle.pddl_plan_link.specs.declared.fault.StepFault.TheVariants as link;
ghost use Rattle.pddl_plan_lines.specs.PlanLines.{step_fault_name};

use itoa::Buffer;
use pddl_file_lines::{FaultName, Formatted, Outcome, fault_line};
use pddl_plan_link::StepFault;
use std::alloc::{AllocError, Allocator};

/// The line of a fault of a step, which is numbered from 0: what stands before the step's number, and that.
fn line_at_step<A: Allocator>(
    alloc: A,
    words: &'static str,
    step: usize,
) -> Result<Vec<u8, A>, AllocError>
    ensures { IfOk result (λ line. IsFaultLine (codes "plan") [] (words.now ++ decimal (step + 1)) None line.items) }
{
    let mut buffer = Buffer::new();
    let shown = buffer.format(step as u128 + 1);
    fault_line(alloc, b"plan", FaultName::of(words, shown.as_bytes()))
}

/// The line of a plan that does not link for a fault.
///
/// Fails where memory is refused, and so for want of memory in linking.
fn step_fault_line<A: Allocator>(alloc: A, fault: StepFault) -> Result<Vec<u8, A>, AllocError>
    ensures no_memory { IfOk result (λ _. fault ≢ link.Memory) }
    ensures line { IfOk result (λ line. IsFaultLine (codes "plan") [] (step_fault_name fault) None line.items) }
{
    match fault {
        StepFault::Memory => Err(AllocError),
        StepFault::UnknownAction { step } => line_at_step(alloc, "40 UnknownAction at step ", step),
        StepFault::StepArity { step } => line_at_step(alloc, "41 StepArity at step ", step),
        StepFault::UnknownObject { step } => line_at_step(alloc, "42 UnknownObject at step ", step),
        StepFault::StepType { step } => line_at_step(alloc, "43 StepType at step ", step),
        StepFault::CostUndefined { step } => line_at_step(alloc, "44 CostUndefined at step ", step),
        StepFault::PlanTooLong => fault_line(alloc, b"plan", FaultName::plain("45 PlanTooLong")),
        StepFault::StepTooLarge { step } => line_at_step(alloc, "46 StepTooLarge at step ", step),
    }
}

/// What is printed for a plan that does not link, and the outcome.
///
/// Fails where memory is refused, and so for want of memory in linking.
pub fn refused_steps<'a, B: Allocator>(
    alloc: &'a B,
    fault: StepFault,
) -> Result<Formatted<'a, B>, AllocError>
    ensures refused { IfOk result (λ answer. answer.1 ≡ Outcome.Refused) }
    ensures no_memory { IfOk result (λ _. fault ≢ link.Memory) }
    ensures line { IfOk result (λ answer. IsFaultLine (codes "plan") [] (step_fault_name fault) None answer.0.items) }
{
    Ok((step_fault_line(alloc, fault)?, Outcome::Refused))
}
