//! One course for all commands: the files are read, their text is made, and then it is written.

ghost use Rattle.pddl_plan_commands.specs.Runs.{IsRun, reader, writer};
ghost use Rattle.pddl_plan_commands.specs.Inner.WantedPrintings.{printing_of};

use crate::reading::read_each;
use crate::wanted::Wanted;
use pddl_device::{Sink, Source, write_text};
use pddl_file_lines::{Outcome, RunFault};
use std::alloc::Allocator;

/// Reads a domain, a problem and a plan, and writes what is printed for them.
pub(crate) fn run<'a, B: Allocator, S: Source, T: Source, U: Source, W: Sink>(
    alloc: &'a B,
    domain: &mut S,
    problem: &mut T,
    plan: &mut U,
    wanted: Wanted,
    out: &mut W,
) -> Result<Outcome, RunFault>
    ensures { IsRun (printing_of wanted) (record {
      domain = reader S.remaining S.failures S.at_end domain.old domain.new;
      problem = reader T.remaining T.failures T.at_end problem.old problem.new;
      plan = reader U.remaining U.failures U.at_end plan.old plan.new;
    }) (writer W.contents W.failures out.old out.new) result }
{
    let (printed, outcome) = read_each(alloc, domain, problem, plan, wanted)?;
    match write_text(out, &printed) {
        Ok(()) => Ok(outcome),
        Err(_) => Err(RunFault::WriteFailed),
    }
}
