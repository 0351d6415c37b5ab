//! The command that validates a plan with its domain and its problem.

ghost use Rattle.std.specs.Prelude.{ℕ};
ghost use Rattle.pddl_serial.specs.declared.turns.Order.{Order};
ghost use Rattle.pddl_plan_commands.specs.PlanChecks.{EndsInOneWay};
ghost use Rattle.pddl_plan_commands.specs.Printings.{IsVerdictLine, IsSerialText, IsSplitText};
ghost use Rattle.pddl_plan_commands.specs.Runs.{IsRun, reader, writer};

use crate::running::run;
use crate::wanted::Wanted;
use pddl_device::{Sink, Source};
use pddl_file_lines::{Outcome, RunFault};
use std::alloc::Allocator;

/// Validates a plan with its domain and its problem, and writes the verdict, or the fault of a file.
///
/// The domain is read whole and parsed, then the problem, then the plan; a file behind one whose text is refused is not read. Then the domain and
/// the problem are linked, and the plan with them. A plan that is valid gives `valid: S steps in H happenings, total-cost C` and `Good`, and every
/// serialisation of it runs, to the same end and at that cost. One that is not gives the line of its first failure, which begins `invalid: `, and
/// `Invalid`. Other files give one line and `Refused`: the fault of the first text that has one, or the lowest fault of the domain and the problem,
/// or that of the plan's first faulty step.
///
/// # Errors
///
/// - `Memory`: a growth was refused. Nothing was written.
/// - `ReadFailed`: a read failed in this call. Nothing was written.
/// - `WriteFailed`: a write failed in this call. A beginning of the line was written.
pub fn check<'a, B: Allocator, S: Source, T: Source, U: Source, W: Sink>(
    alloc: &'a B,
    domain: &mut S,
    problem: &mut T,
    plan: &mut U,
    out: &mut W,
) -> Result<Outcome, RunFault>
    ensures { IsRun IsVerdictLine (record {
      domain = reader S.remaining S.failures S.at_end domain.old domain.new;
      problem = reader T.remaining T.failures T.at_end problem.old problem.new;
      plan = reader U.remaining U.failures U.at_end plan.old plan.new;
    }) (writer W.contents W.failures out.old out.new) result }
{
    run(alloc, domain, problem, plan, Wanted::Verdict, out)
}

/// For the texts of a domain, a problem and a plan each command on plans ends in one way, and prints one text but for the word of a fault of linking.
///
/// `verdict` says so of [`check`], `serial` of [`serial`](crate::serial), and `groups` of [`serial_groups`](crate::serial_groups).
pub fn one_plan_outcome()
    ensures verdict { EndsInOneWay IsVerdictLine }
    ensures serial { (order : Order) → EndsInOneWay (IsSerialText order) }
    ensures groups { (order : Order) (size : ℕ) → EndsInOneWay (IsSplitText order size) }
{}
