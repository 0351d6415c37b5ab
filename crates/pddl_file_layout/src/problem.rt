//! The canonical text of problems.

ghost use Rattle.std.specs.Prelude.{◌≡◌, ◌≤◌, IsTrue, IfOk, OnOk, OnErr, map, vec_len, option_map};
ghost use Rattle.std.specs.List.{list_all};
ghost use Rattle.std.specs.Io.KnownBytes.{Appends};
ghost use Rattle.pddl_device.specs.Device.{AppendsBeginning, HasFailed};
ghost use Rattle.pddl_token.specs.Names.{is_name};
ghost use Rattle.pddl_text.specs.Lists.{deepest};
ghost use Rattle.pddl_text.specs.Pieces.{IsWithin};
ghost use Rattle.pddl_problem.specs.Inits.{fact_view, function_view, init_view, direction_word, metric_view};
ghost use Rattle.pddl_problem.specs.Problems.{problem_view};
ghost use Rattle.pddl_problem_reader.specs.ProblemTexts.{SpellsProblem};
ghost use Rattle.pddl_file_layout.specs.ProblemLayout.{is_fact, is_ground_function, is_init, is_metric, is_problem, problem_tree, problem_text};
ghost use Rattle.pddl_file_layout.specs.Inner.Printing.{Puts};
ghost use Rattle.pddl_file_layout.specs.Inner.Texts.{spaced_by, word_text, ground_text, init_text, metric_text};

use crate::formula::put_formula;
use crate::printing::{put, put_both, put_number};
use crate::section::{put_objects, put_requirements};
use pddl_device::{Sink, ToWrite, WriteFault};
use pddl_problem::{Direction, Fact, GroundFunction, InitItem, Metric, ObjectNames, Problem};
use pddl_scan::LONGEST;
use std::alloc::{AllocError, Allocator};

/// Writes names of objects, a blank before each.
fn put_object_names<A: Allocator, W: Sink>(out: &mut W, failed: &mut bool, names: &ObjectNames<A>)
    ensures printed { Puts (W.contents out.old) (W.contents out.new) (W.failures out.old) (W.failures out.new) failed.old failed.new (spaced_by word_text names.now) }
    ensures good { IsTrue (list_all is_name names.now) }
{
    for i in 0..names.len() {
        put_both(out, failed, b" ", names.at(i));
    }
}

/// Writes a predicate and its objects.
fn put_fact<A: Allocator, W: Sink>(out: &mut W, failed: &mut bool, fact: &Fact<A>)
    ensures printed { Puts (W.contents out.old) (W.contents out.new) (W.failures out.old) (W.failures out.new) failed.old failed.new (ground_text (fact_view fact.now)) }
    ensures good { IsTrue (is_fact (fact_view fact.now)) }
{
    put_both(out, failed, b"(", fact.predicate.as_bytes());
    put_object_names(out, failed, &fact.objects);
    put(out, failed, b")");
}

/// Writes a function and its objects, in parentheses also where it has none.
fn put_ground_function<A: Allocator, W: Sink>(
    out: &mut W,
    failed: &mut bool,
    function: &GroundFunction<A>,
)
    ensures printed { Puts (W.contents out.old) (W.contents out.new) (W.failures out.old) (W.failures out.new) failed.old failed.new (ground_text (function_view function.now)) }
    ensures good { IsTrue (is_ground_function (function_view function.now)) }
{
    put_both(out, failed, b"(", function.function.as_bytes());
    put_object_names(out, failed, &function.objects);
    put(out, failed, b")");
}

/// Writes an item of `:init`.
fn put_init_item<A: Allocator, W: Sink>(out: &mut W, failed: &mut bool, item: &InitItem<A>)
    ensures printed { Puts (W.contents out.old) (W.contents out.new) (W.failures out.old) (W.failures out.new) failed.old failed.new (init_text (init_view item.now)) }
    ensures good { IsTrue (is_init (init_view item.now)) }
{
    match item {
        InitItem::Holds(fact) => put_fact(out, failed, fact),
        InitItem::Fails(fact) => {
            put(out, failed, b"(not ");
            put_fact(out, failed, fact);
            put(out, failed, b")");
        }
        InitItem::Value(function, number) => {
            put(out, failed, b"(= ");
            put_ground_function(out, failed, function);
            put(out, failed, b" ");
            put_number(out, failed, *number);
            put(out, failed, b")");
        }
    }
}

/// Writes items of `:init`, each behind a space.
fn put_init<A: Allocator, W: Sink>(out: &mut W, failed: &mut bool, items: &[InitItem<A>])
    ensures printed { Puts (W.contents out.old) (W.contents out.new) (W.failures out.old) (W.failures out.new) failed.old failed.new (spaced_by init_text (map init_view items.now)) }
    ensures good { IsTrue (list_all is_init (map init_view items.now)) }
{
    for item in items {
        put(out, failed, b" ");
        put_init_item(out, failed, item);
    }
}

/// Writes what a metric wants.
fn put_direction<W: Sink>(out: &mut W, failed: &mut bool, direction: Direction)
    ensures { Puts (W.contents out.old) (W.contents out.new) (W.failures out.old) (W.failures out.new) failed.old failed.new (direction_word direction) }
{
    match direction {
        Direction::Minimize => put(out, failed, b"minimize"),
        Direction::Maximize => put(out, failed, b"maximize"),
    }
}

/// Writes the section of a metric, where there is one.
fn put_metric<A: Allocator, W: Sink>(out: &mut W, failed: &mut bool, metric: &Option<Metric<A>>)
    ensures printed { Puts (W.contents out.old) (W.contents out.new) (W.failures out.old) (W.failures out.new) failed.old failed.new (metric_text (option_map metric_view metric.now)) }
    ensures good { IsTrue (is_metric (option_map metric_view metric.now)) }
{
    match metric {
        None => {}
        Some(metric) => {
            put(out, failed, b"  (:metric ");
            put_direction(out, failed, metric.direction);
            put(out, failed, b" ");
            put_ground_function(out, failed, &metric.function);
            put(out, failed, b")\n");
        }
    }
}

/// Writes the canonical text of a problem. Each problem of the program is one of the values that texts spell.
fn put_problem<A: Allocator, W: Sink>(out: &mut W, failed: &mut bool, problem: &Problem<A>)
    ensures printed { Puts (W.contents out.old) (W.contents out.new) (W.failures out.old) (W.failures out.new) failed.old failed.new (problem_text (problem_view problem.now)) }
    ensures good { IsTrue (is_problem (problem_view problem.now)) }
{
    put_both(out, failed, b"(define (problem ", problem.name.as_bytes());
    put_both(out, failed, b")\n  (:domain ", problem.domain.as_bytes());
    put(out, failed, b")\n");
    put_requirements(out, failed, &problem.requirements);
    put_objects(out, failed, b"  (:objects", &problem.objects);
    put(out, failed, b"  (:init");
    put_init(out, failed, &problem.init);
    put(out, failed, b")\n  (:goal ");
    put_formula(out, failed, &problem.goal);
    put(out, failed, b")\n");
    put_metric(out, failed, &problem.metric);
    put(out, failed, b")\n");
}

/// Writes the canonical text of a problem: in lower case, one space between two words or lists, a line for each section
/// (the layout is own).
///
/// It takes no memory. It writes in pieces of a few bytes, so a writer that is slow for each write wants a buffer round it.
///
/// # Errors
///
/// [`WriteFault::WriteFailed`] where a write failed in this call; a beginning of the text was then written.
pub fn write_problem<A: Allocator, W: Sink>(
    problem: &Problem<A>,
    out: &mut W,
) -> Result<(), WriteFault>
    // The canonical text was written, and no write failed.
    ensures written { OnOk result (Appends (W.contents out.old) (W.contents out.new) (problem_text (problem_view problem.now))) }
    ensures none_failed { OnOk result (W.failures out.new ≡ W.failures out.old) }

    // A beginning of it was written, and a write of this call failed.
    ensures beginning { OnErr result (AppendsBeginning (W.contents out.old) (W.contents out.new) (problem_text (problem_view problem.now))) }
    ensures write_failed { OnErr result (HasFailed (W.failures out.old) (W.failures out.new)) }
{
    let mut failed = false;
    put_problem(out, &mut failed, problem);
    if failed {
        Err(WriteFault::WriteFailed)
    } else {
        Ok(())
    }
}

/// The canonical text of a problem. Within the limits of length and levels it reads back as the problem.
///
/// Fails where memory for the text is refused.
pub fn problem_text<A: Allocator, B: Allocator>(
    alloc: B,
    problem: &Problem<A>,
) -> Result<Vec<u8, B>, AllocError>
    ensures text { IfOk result (λ text. text.items ≡ problem_text (problem_view problem.now)) }
    ensures reads_back { IfOk result (λ text. IsWithin deepest (problem_tree (problem_view problem.now)) → vec_len text ≤ LONGEST
        → SpellsProblem (problem_view problem.now) text.items) }
{
    let mut out = ToWrite::new(Vec::new(alloc));
    let mut failed = false;
    put_problem(&mut out, &mut failed, problem);
    if failed {
        Err(AllocError)
    } else {
        Ok(out.into_inner())
    }
}
