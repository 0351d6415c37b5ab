//! The canonical text of plans.

ghost use Rattle.std.specs.Prelude.{◌≡◌, ◌<◌, ◌≤◌, ◌↔◌, ℕ, List, IsTrue, IfOk, OnOk, OnErr, length, vec_len};
ghost use Rattle.pddl_plan.specs.Plans.{PlanValue, plan_view, steps_of, is_plan};
ghost use Rattle.pddl_step_reader.specs.PlanTexts.{SpellsPlan};
ghost use Rattle.std.specs.Io.KnownBytes.{Appends};
ghost use Rattle.pddl_device.specs.Device.{AppendsBeginning, HasFailed};
ghost use Rattle.pddl_layout.specs.Printing.{Prints};
ghost use Rattle.pddl_layout.specs.PlanLayout.{spaced, plain_line, plan_text};
ghost use Rattle.pddl_layout.specs.Inner.PlanLines.{moment_text, line_at};

use crate::number::put_number;
use crate::printing::put;
use pddl_device::{Sink, ToWrite, WriteFault};
use pddl_plan::{Plan, Step};
use pddl_scan::LONGEST;
use pddl_token::Fixed;
use std::alloc::{AllocError, Allocator};

/// Writes the names of a step's objects, each behind a space.
fn put_objects<A: Allocator, W: Sink>(out: &mut W, step: &Step<'_, A>) -> Result<(), WriteFault>
    ensures { Prints (W.contents out.old) (W.contents out.new) (W.failures out.old) (W.failures out.new) (spaced step.now.objects) result }
{
    for number in 0..step.arity() {
        put(out, b" ")?;
        put(out, step.object(number))?;
    }
    Ok(())
}

/// Writes a step on a line.
fn put_plain<A: Allocator, W: Sink>(out: &mut W, step: &Step<'_, A>) -> Result<(), WriteFault>
    ensures { Prints (W.contents out.old) (W.contents out.new) (W.failures out.old) (W.failures out.new) (plain_line step.now) result }
{
    put(out, b"(")?;
    put(out, step.action())?;
    put_objects(out, step)?;
    put(out, b")\n")?;
    Ok(())
}

/// Writes a moment, a colon and a space, where there is a moment.
fn put_moment<W: Sink>(out: &mut W, moment: Option<Fixed>) -> Result<(), WriteFault>
    ensures { Prints (W.contents out.old) (W.contents out.new) (W.failures out.old) (W.failures out.new) (moment_text moment) result }
{
    let Some(moment) = moment else {
        return Ok(());
    };
    put_number(out, moment)?;
    put(out, b": ")
}

/// Writes the step of a number on a line.
fn put_step<A: Allocator, W: Sink>(
    out: &mut W,
    plan: &Plan<A>,
    number: usize,
) -> Result<(), WriteFault>
    requires { number < length (steps_of (plan_view plan.now)) }
    ensures { Prints (W.contents out.old) (W.contents out.new) (W.failures out.old) (W.failures out.new) (line_at (plan_view plan.now) number) result }
{
    put_moment(out, plan.moment(number))?;
    put_plain(out, &plan.step(number))
}

/// Writes the canonical text of a plan. Each plan of the program is one of the values that texts spell.
fn put_plan<A: Allocator, W: Sink>(out: &mut W, plan: &Plan<A>) -> Result<(), WriteFault>
    ensures printed { Prints (W.contents out.old) (W.contents out.new) (W.failures out.old) (W.failures out.new) (plan_text (plan_view plan.now)) result }
    ensures good { IsTrue (is_plan (plan_view plan.now)) }
{
    for number in 0..plan.len() {
        put_step(out, plan, number)?;
    }
    Ok(())
}

/// Writes the canonical text of a plan: one step a line in file order, a timed one behind its number, a colon and a space.
///
/// It takes no memory. It writes in pieces of a few bytes, so a writer that is slow for each write wants a buffer round it.
///
/// # Errors
///
/// [`WriteFault::WriteFailed`] where a write failed in this call; a beginning of the text was then written.
pub fn write_plan<A: Allocator, W: Sink>(plan: &Plan<A>, out: &mut W) -> Result<(), WriteFault>
    // The canonical text was written, and no write failed.
    ensures written { OnOk result (Appends (W.contents out.old) (W.contents out.new) (plan_text (plan_view plan.now))) }
    ensures none_failed { OnOk result (W.failures out.new ≡ W.failures out.old) }

    // A beginning of it was written, and a write of this call failed.
    ensures beginning { OnErr result (AppendsBeginning (W.contents out.old) (W.contents out.new) (plan_text (plan_view plan.now))) }
    ensures write_failed { OnErr result (HasFailed (W.failures out.old) (W.failures out.new)) }
{
    put_plan(out, plan)
}

/// The canonical text of a plan. Within the limit of length it reads back as the plan.
///
/// Fails where memory for the text is refused.
pub fn plan_text<A: Allocator, B: Allocator>(
    alloc: B,
    plan: &Plan<A>,
) -> Result<Vec<u8, B>, AllocError>
    ensures text { IfOk result (λ text. text.items ≡ plan_text (plan_view plan.now)) }
    ensures reads_back { IfOk result (λ text. vec_len text ≤ LONGEST → SpellsPlan (plan_view plan.now) text.items) }
{
    let mut out = ToWrite::new(Vec::new(alloc));
    match put_plan(&mut out, plan) {
        Ok(()) => Ok(out.into_inner()),
        Err(_) => Err(AllocError),
    }
}

/// The canonical text of a plan, where it keeps the limit of length, spells the plan. The plan is any of the values that
/// the program can hold.
pub fn plan_reads_back()
    ensures { (plan : PlanValue) → IsTrue (is_plan plan) → length (plan_text plan) ≤ LONGEST → SpellsPlan plan (plan_text plan) }
{}

/// Two texts that spell plans whose canonical texts keep the limit of length spell one plan exactly if these are one text.
pub fn one_canonical_plan()
    ensures { (plan other : PlanValue) (text more : List ℕ) → SpellsPlan plan text → SpellsPlan other more
        → length (plan_text plan) ≤ LONGEST → length (plan_text other) ≤ LONGEST
        → (plan_text plan ≡ plan_text other) ↔ (plan ≡ other) }
{}
