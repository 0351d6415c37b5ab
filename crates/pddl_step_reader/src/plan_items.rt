//! Steps read from items, behind the steps that a plan has.

ghost use Rattle.std.specs.Prelude.{◌≡◌, ◌<◌, ◌+◌, [], length, IfOk, OnOk, IfErr, Ok, option_map};
ghost use Rattle.pddl_items.specs.Items.{item_view, items_view, span_of};
ghost use Rattle.pddl_plan.specs.Building.{nothing_built, AddsWord, AddsNames};
ghost use Rattle.pddl_plan.specs.Plans.{built_plan, steps_built, timed_built};
ghost use Rattle.pddl_step_reader.specs.Inner.StepNames.{names_of_step, AddsTimed};
ghost use Rattle.pddl_step_reader.specs.Inner.PlanReading.{name_at, names_at, step_of, step_at, moment_at, is_colon, is_bracket, timed_at, no_step, timed_span, plain_fault, timed_fault, plain_from, timed_from, plan_at, plan_from, Refuses};

use crate::fault::ReadFault;
use pddl_items::Item;
use pddl_plan::PlanBuilder;
use pddl_scan::TextFault;
use pddl_token::{Fixed, Span, TokenKind, value_of};
use std::alloc::{AllocError, Allocator};

/// Adds the name that an item is, and answers whether it is one.
fn add_name<'a, B: Allocator>(
    plan: &mut PlanBuilder<&'a B>,
    item: &Item<'_, &'a B>,
) -> Result<bool, AllocError>
    ensures { IfOk result (λ is. AddsWord is (name_at (item_view item.now)) plan.old plan.new) }
{
    match item {
        Item::Word(token) => match token.kind {
            TokenKind::Name => plan.push_word(token.text),
            _ => Ok(false),
        },
        Item::List(_, _) => Ok(false),
    }
}

/// Adds the names that some items are, and answers whether each of them is one.
fn add_names<'a, B: Allocator>(
    plan: &mut PlanBuilder<&'a B>,
    items: &[Item<'_, &'a B>],
) -> Result<bool, AllocError>
    ensures { IfOk result (λ is. AddsNames is (names_at (items_view items.now)) plan.old plan.new) }
{
    for item in items {
        if !add_name(plan, item)? {
            return Ok(false);
        }
    }
    Ok(true)
}

/// Adds the names of the step that some items are, and answers whether they are one.
fn add_step_of<'a, B: Allocator>(
    plan: &mut PlanBuilder<&'a B>,
    items: &[Item<'_, &'a B>],
) -> Result<bool, AllocError>
    ensures { IfOk result (λ is. AddsNames is (option_map names_of_step (step_of (names_at (items_view items.now)))) plan.old plan.new) }
{
    let [_action, ..] = items else {
        return Ok(false);
    };
    add_names(plan, items)
}

/// Adds the names of the step that an item is, and answers whether it is one.
fn add_step<'a, B: Allocator>(
    plan: &mut PlanBuilder<&'a B>,
    item: &Item<'_, &'a B>,
) -> Result<bool, AllocError>
    ensures { IfOk result (λ is. AddsNames is (option_map names_of_step (step_at (item_view item.now))) plan.old plan.new) }
{
    match item {
        Item::List(items, _) => add_step_of(plan, items),
        Item::Word(_) => Ok(false),
    }
}

/// The moment that an item is.
fn moment_at<A: Allocator>(item: &Item<'_, A>) -> Option<Fixed>
    ensures { result ≡ moment_at (item_view item.now) }
{
    match item {
        Item::Word(token) => match token.kind {
            TokenKind::Number => value_of(token.text),
            _ => None,
        },
        Item::List(_, _) => None,
    }
}

fn is_colon<A: Allocator>(item: &Item<'_, A>) -> bool
    ensures { result ≡ is_colon (item_view item.now) }
{
    match item {
        Item::Word(token) => matches!(token.kind, TokenKind::Colon),
        Item::List(_, _) => false,
    }
}

fn is_bracket<A: Allocator>(item: &Item<'_, A>) -> bool
    ensures { result ≡ is_bracket (item_view item.now) }
{
    match item {
        Item::Word(token) => matches!(token.kind, TokenKind::Bracket),
        Item::List(_, _) => false,
    }
}

fn span_of<A: Allocator>(item: &Item<'_, A>) -> Span
    ensures { result ≡ span_of (item_view item.now) }
{
    match item {
        Item::Word(token) => token.span,
        Item::List(_, span) => *span,
    }
}

/// Adds the names of the timed step that stands first among some items, and answers its moment.
#[tactic(auto, using(crate::proofs::PlanSteps::none_timed))]
fn add_timed<'a, B: Allocator>(
    plan: &mut PlanBuilder<&'a B>,
    items: &[Item<'_, &'a B>],
) -> Result<Option<Fixed>, AllocError>
    ensures { IfOk result (λ moment. AddsTimed moment (timed_at (items_view items.now)) plan.old plan.new) }
{
    let [number, colon, item, ..] = items else {
        return Ok(None);
    };
    let Some(moment) = moment_at(number) else {
        return Ok(None);
    };
    if !is_colon(colon) {
        return Ok(None);
    }
    if !add_step(plan, item)? {
        return Ok(None);
    }
    Ok(Some(moment))
}

/// What is wrong where no step stands first: whether steps stand before, and the item.
fn no_step<A: Allocator>(behind: bool, item: &Item<'_, A>) -> ReadFault
    ensures { result ≡ no_step behind (item_view item.now) }
{
    let span = span_of(item);
    if behind && is_bracket(item) {
        ReadFault::Duration { span }
    } else {
        ReadFault::Step {
            span,
            near: span.start,
        }
    }
}

fn timed_span<A: Allocator>(items: &[Item<'_, A>]) -> Span
    ensures { result ≡ timed_span (items_view items.now) }
{
    match items {
        [number, _, item, ..] => Span {
            start: span_of(number).start,
            end: span_of(item).end,
        },
        _ => Span { start: 0, end: 0 },
    }
}

/// What is wrong at some items where no plain step stands first. The plan is given up.
#[tactic(auto, using(crate::proofs::PlanSteps::timed_test))]
fn plain_fault<'a, B: Allocator>(
    plan: &mut PlanBuilder<&'a B>,
    behind: bool,
    items: &[Item<'_, &'a B>],
) -> Result<ReadFault, AllocError>
    ensures { IfOk result (λ fault. fault ≡ plain_fault behind (items_view items.now)) }
{
    let [item, ..] = items else {
        return Ok(ReadFault::Text(TextFault::Memory));
    };
    if add_timed(plan, items)?.is_some() {
        let span = timed_span(items);
        return Ok(ReadFault::Mixed { span });
    }
    Ok(no_step(behind, item))
}

/// What is wrong at some items where no timed step stands first. The plan is given up.
#[tactic(auto, using(crate::proofs::PlanSteps::step_test))]
fn timed_fault<'a, B: Allocator>(
    plan: &mut PlanBuilder<&'a B>,
    behind: bool,
    items: &[Item<'_, &'a B>],
) -> Result<ReadFault, AllocError>
    ensures { IfOk result (λ fault. fault ≡ timed_fault behind (items_view items.now)) }
{
    let [item, ..] = items else {
        return Ok(ReadFault::Text(TextFault::Memory));
    };
    if add_step(plan, item)? {
        let span = span_of(item);
        return Ok(ReadFault::Mixed { span });
    }
    Ok(no_step(behind, item))
}

/// Adds the plain steps that some items are.
fn add_plain_steps<'a, B: Allocator>(
    plan: &mut PlanBuilder<&'a B>,
    items: &[Item<'_, &'a B>],
) -> Result<(), ReadFault>
    requires none { plan.old.names ≡ [] }
    requires plain { plan.old.moments ≡ [] }
    ensures steps { OnOk result (plain_from (steps_built plan.old) (items_view items.now) ≡ Ok (built_plan plan.new)) }
    ensures refused { IfErr result (λ fault. Refuses fault (plain_from (steps_built plan.old) (items_view items.now))) }
{
    for (index, item) in items.iter().enumerate() {
        if !add_step(plan, item)? {
            let behind = plan.len() > 0;
            return Err(plain_fault(plan, behind, items.split_at(index).1)?);
        }
        plan.end_step()?;
    }
    Ok(())
}

/// Adds the timed steps that some items are.
fn add_timed_steps<'a, B: Allocator>(
    plan: &mut PlanBuilder<&'a B>,
    items: &[Item<'_, &'a B>],
) -> Result<(), ReadFault>
    requires none { plan.old.names ≡ [] }
    requires timed { length plan.old.moments ≡ length plan.old.steps }
    requires some { 0 < length plan.old.steps + length items.now }
    ensures steps { OnOk result (timed_from (timed_built plan.old) (items_view items.now) ≡ Ok (built_plan plan.new)) }
    ensures refused { IfErr result (λ fault. Refuses fault (timed_from (timed_built plan.old) (items_view items.now))) }
{
    let mut at = 0;
    while at < items.len() {
        let rest = items.split_at(at).1;
        let Some(moment) = add_timed(plan, rest)? else {
            let behind = plan.len() > 0;
            return Err(timed_fault(plan, behind, rest)?);
        };
        plan.end_step_at(moment)?;
        at += 3;
    }
    Ok(())
}

/// Adds the steps that some items are to a plan without steps.
fn add_first_steps<'a, B: Allocator>(
    plan: &mut PlanBuilder<&'a B>,
    items: &[Item<'_, &'a B>],
) -> Result<(), ReadFault>
    requires { plan.old ≡ nothing_built }
    ensures steps { OnOk result (plan_at (items_view items.now) ≡ Ok (built_plan plan.new)) }
    ensures refused { IfErr result (λ fault. Refuses fault (plan_at (items_view items.now))) }
{
    let [first, ..] = items else {
        return Ok(());
    };
    match first {
        Item::List(_, _) => add_plain_steps(plan, items),
        Item::Word(_) => add_timed_steps(plan, items),
    }
}

/// Adds the steps that some items are behind those that the plan has.
pub fn add_steps<'a, B: Allocator>(
    plan: &mut PlanBuilder<&'a B>,
    items: &[Item<'_, &'a B>],
) -> Result<(), ReadFault>
    requires { plan.old.names ≡ [] }
    ensures steps { OnOk result (plan_from plan.old (items_view items.now) ≡ Ok (built_plan plan.new)) }
    ensures refused { IfErr result (λ fault. Refuses fault (plan_from plan.old (items_view items.now))) }
{
    if plan.len() == 0 {
        add_first_steps(plan, items)
    } else if plan.is_timed() {
        add_timed_steps(plan, items)
    } else {
        add_plain_steps(plan, items)
    }
}
