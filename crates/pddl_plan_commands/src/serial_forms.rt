//! The commands that print serial forms of a plan.

ghost use Rattle.std.specs.Prelude.{◌<◌};
ghost use Rattle.pddl_plan_commands.specs.Printings.{IsSerialText, IsSplitText};
ghost use Rattle.pddl_plan_commands.specs.Runs.{IsRun, reader, writer};

use crate::running::run;
use crate::wanted::Wanted;
use pddl_device::{Sink, Source};
use pddl_file_lines::{Outcome, RunFault};
use pddl_serial_plans::Order;
use std::alloc::Allocator;
use std::num::NonZeroU32;

/// Writes the serial plan of a valid plan, or the line that `check` writes for any other, or for files that are refused.
///
/// The files are read, linked and judged as by [`check`](crate::check). A valid plan gives the canonical text of the plain plan of its happenings in turn, the
/// steps of each in the order of the file or reversed, and `Good`. That plan is linked, and accepted with the same end and cost, and so does every
/// serialisation of the plan run, to that end and at that cost. An invalid plan gives the line of its first failure and `Invalid`, other files one line and `Refused`.
///
/// # Errors
///
/// - `Memory`: a growth was refused. Nothing was written.
/// - `ReadFailed`: a read failed in this call. Nothing was written.
/// - `WriteFailed`: a write failed in this call. A beginning of the text was written.
pub fn serial<'a, B: Allocator, S: Source, T: Source, U: Source, W: Sink>(
    alloc: &'a B,
    domain: &mut S,
    problem: &mut T,
    plan: &mut U,
    order: Order,
    out: &mut W,
) -> Result<Outcome, RunFault>
    ensures { IsRun (IsSerialText order) (record {
      domain = reader S.remaining S.failures S.at_end domain.old domain.new;
      problem = reader T.remaining T.failures T.at_end problem.old problem.new;
      plan = reader U.remaining U.failures U.at_end plan.old plan.new;
    }) (writer W.contents W.failures out.old out.new) result }
{
    run(alloc, domain, problem, plan, Wanted::Serial(order), out)
}

/// Writes the split of a valid plan into groups, or the line that `check` writes for any other, or for files that are refused.
///
/// The files are read, linked and judged as by [`check`](crate::check). Each happening of a valid plan, its steps in the order of the file or reversed, is cut into
/// groups of `size` steps, at least 1, the last perhaps smaller. What is written is the canonical text of the timed plan of these groups in turn, the
/// k-th at moment k, from 1, or the empty text where there is no step; the answer is `Good`. That plan is linked, its happenings are the groups, and it is
/// accepted with the same end and cost. An invalid plan gives the line of its first failure and `Invalid`, other files one line and `Refused`.
///
/// # Errors
///
/// - `Memory`: a growth was refused. Nothing was written.
/// - `ReadFailed`: a read failed in this call. Nothing was written.
/// - `WriteFailed`: a write failed in this call. A beginning of the text was written.
pub fn serial_groups<'a, B: Allocator, S: Source, T: Source, U: Source, W: Sink>(
    alloc: &'a B,
    domain: &mut S,
    problem: &mut T,
    plan: &mut U,
    order: Order,
    size: u32,
    out: &mut W,
) -> Result<Outcome, RunFault>
    requires { 0 < size }
    ensures { IsRun (IsSplitText order size) (record {
      domain = reader S.remaining S.failures S.at_end domain.old domain.new;
      problem = reader T.remaining T.failures T.at_end problem.old problem.new;
      plan = reader U.remaining U.failures U.at_end plan.old plan.new;
    }) (writer W.contents W.failures out.old out.new) result }
{
    let size = NonZeroU32::new(size).unwrap();
    run(
        alloc,
        domain,
        problem,
        plan,
        Wanted::Groups(order, size),
        out,
    )
}
