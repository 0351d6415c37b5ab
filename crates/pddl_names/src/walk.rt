//! One walk over formulas, effects, actions, initial states, goals and metrics, for the faults that are looked for at places.
//!
//! Each function answers the lowest of the faults that stand in its part, and leaves what is in scope as it was.

ghost use Rattle.std.specs.Prelude.{◌≡◌, ◌++◌, [], map, option_map, flat_map};
ghost use Rattle.pddl_formula.specs.Formulas.{formula_view};
ghost use Rattle.pddl_effect.specs.Effects.{effect_view};
ghost use Rattle.pddl_domain.specs.Actions.{action_view};
ghost use Rattle.pddl_problem.specs.Inits.{init_view, metric_view};
ghost use Rattle.pddl_problem.specs.Problems.{problem_view};
ghost use Rattle.pddl_task.specs.Places.{places_in, effect_places, action_places, init_places, metric_places, problem_places};
ghost use Rattle.pddl_task.specs.Faults.{other_metrics};
ghost use Rattle.pddl_faults.specs.Found.{IsFound, numbered};
ghost use Rattle.pddl_names.specs.Scopes.{bound_in};
ghost use Rattle.pddl_names.specs.Uses.{faults_by, AreAllTold};
ghost use Rattle.pddl_names.specs.FaultParts.{action_faults};

use crate::part::{Part, Terms};
use crate::passes::is_taken;
use crate::scope::Scope;
use crate::uses::{enter, look, look_at_use};
use indexmap::IndexSet;
use pddl_domain::Action;
use pddl_effect::Effect;
use pddl_faults::{LinkFault, lower, once};
use pddl_formula::Formula;
use pddl_hash::Hashed;
use pddl_problem::{InitItem, Metric, Problem};
use pddl_types::{Known, Told};
use std::alloc::Allocator;

/// Searches a formula.
fn search_formula<'m, 'a, A: Allocator, B: Allocator>(
    known: &Known<'m, 'a, A, B>,
    told: &mut Told<'m, 'a, A, B>,
    scope: &mut Scope<'m, 'a, A, B>,
    formula: &'m Formula<A>,
) -> Result<(), LinkFault<'m>>
    requires { AreAllTold known.now told.old scope.old }
    ensures told { AreAllTold known.now told.new scope.new }
    ensures kept { scope.new ≡ scope.old }
    ensures found { IsFound (flat_map (faults_by known.now) (places_in (formula_view formula.now) (bound_in scope.old))) result }
{
    match formula {
        Formula::Atom(atom) => look(known, told, &*scope, &Part::of_atom(atom)),
        Formula::Equal(first, second) => look(known, told, &*scope, &Part::Equates(first, second)),
        Formula::Not(inner) => search_formula(known, told, scope, inner),
        Formula::Imply(first, second) => {
            let first = search_formula(known, told, scope, first);
            lower(first, search_formula(known, told, scope, second))
        }
        Formula::And(parts) | Formula::Or(parts) => {
            let mut found = Ok(());
            for part in parts {
                found = lower(found, search_formula(known, told, scope, part));
            }
            found
        }
        Formula::Exists(variables, inner) | Formula::Forall(variables, inner) => {
            match enter(known, told, scope, variables) {
                Ok(repeated) => {
                    let found = search_formula(known, told, scope, inner);
                    scope.leave(variables.len());
                    lower(repeated, found)
                }
                Err(fault) => Err(fault),
            }
        }
    }
}

/// Searches an effect.
fn search_effect<'m, 'a, A: Allocator, B: Allocator>(
    known: &Known<'m, 'a, A, B>,
    told: &mut Told<'m, 'a, A, B>,
    scope: &mut Scope<'m, 'a, A, B>,
    effect: &'m Effect<A>,
) -> Result<(), LinkFault<'m>>
    requires { AreAllTold known.now told.old scope.old }
    ensures told { AreAllTold known.now told.new scope.new }
    ensures kept { scope.new ≡ scope.old }
    ensures found { IsFound (flat_map (faults_by known.now) (effect_places (effect_view effect.now) (bound_in scope.old))) result }
{
    match effect {
        Effect::And(parts) => {
            let mut found = Ok(());
            for part in parts {
                found = lower(found, search_effect(known, told, scope, part));
            }
            found
        }
        Effect::Forall(variables, inner) => {
            match enter(known, told, scope, variables) {
                Ok(repeated) => {
                    let found = search_effect(known, told, scope, inner);
                    scope.leave(variables.len());
                    lower(repeated, found)
                }
                Err(fault) => Err(fault),
            }
        }
        Effect::When(condition, inner) => {
            let condition = search_formula(known, told, scope, condition);
            lower(condition, search_effect(known, told, scope, inner))
        }
        Effect::Add(atom) | Effect::Del(atom) => look(known, told, &*scope, &Part::of_atom(atom)),
        Effect::Increase(amount) => {
            let cost = look(known, told, &*scope, &Part::total_cost());
            lower(cost, look(known, told, &*scope, &Part::of_amount(amount)))
        }
    }
}

/// Searches an action: its parameters, its precondition and its effect.
#[tactic(auto, using(crate::proofs::ToldUses::told_outside))]
fn search_action<'m, 'a, A: Allocator, B: Allocator>(
    known: &Known<'m, 'a, A, B>,
    told: &mut Told<'m, 'a, A, B>,
    scope: &mut Scope<'m, 'a, A, B>,
    action: &'m Action<A>,
) -> Result<(), LinkFault<'m>>
    requires told { AreAllTold known.now told.old scope.old }
    requires empty { scope.old ≡ [] }
    ensures told { AreAllTold known.now told.new scope.new }
    ensures kept { scope.new ≡ scope.old }
    ensures found { IsFound (flat_map (faults_by known.now) (action_places (action_view action.now))) result }
{
    match enter(known, told, scope, &action.parameters) {
        Ok(repeated) => {
            let precondition = search_formula(known, told, scope, &action.precondition);
            let effect = search_effect(known, told, scope, &action.effect);
            scope.leave(action.parameters.len());
            lower(repeated, lower(precondition, effect))
        }
        Err(fault) => Err(fault),
    }
}

/// Searches actions in turn, and looks for names that stand twice, for which they are put into an empty set.
#[tactic(auto, using(std::proofs::lemmas::Result::err_from_is_err_and))]
fn search_in_turn<'m, 'a, A: Allocator, B: Allocator>(
    known: &Known<'m, 'a, A, B>,
    told: &mut Told<'m, 'a, A, B>,
    scope: &mut Scope<'m, 'a, A, B>,
    seen: &mut IndexSet<&'m [u8], Hashed, &'a B>,
    actions: &'m [Action<A>],
) -> Result<(), LinkFault<'m>>
    requires told { AreAllTold known.now told.old scope.old }
    requires empty { scope.old ≡ [] }
    requires seen { seen.old.keys ≡ [] }
    ensures told { AreAllTold known.now told.new scope.new }
    ensures found { IsFound (action_faults (faults_by known.now) [] (map action_view actions.now)) result }
{
    let mut found = Ok(());
    for action in actions {
        let name = action.name.as_bytes();
        let (_, is_new) = seen.insert_full(name)?;
        let own = search_action(known, told, scope, action);
        found = lower(found, lower(once(is_new, name), own));
    }
    found
}

/// Searches actions, where nothing is in scope, and looks for names that stand twice.
pub(crate) fn search_actions<'m, 'a, A: Allocator, B: Allocator>(
    known: &Known<'m, 'a, A, B>,
    told: &mut Told<'m, 'a, A, B>,
    actions: &'m [Action<A>],
) -> Result<(), LinkFault<'m>>
    requires { AreAllTold known.now told.old [] }
    ensures told { (scope : _) × AreAllTold known.now told.new scope }
    ensures found { IsFound (action_faults (faults_by known.now) [] (map action_view actions.now)) result }
{
    let mut scope = Scope::new(known.types.allocator(), known.types.hashed());
    let mut seen = IndexSet::with_hasher(known.types.allocator(), known.types.hashed());
    search_in_turn(known, told, &mut scope, &mut seen, actions)
}

/// Searches an item of `:init`; a literal that fails is looked at like one that holds.
fn search_item<'m, 'a, 'd, A: Allocator, B: Allocator>(
    known: &Known<'m, 'a, A, B>,
    told: &mut Told<'m, 'a, A, B>,
    scope: &Scope<'m, 'a, A, B>,
    item: &'d InitItem<A>,
) -> Result<(), LinkFault<'d>>
    requires told { AreAllTold known.now told.old scope.now }
    requires empty { scope.now ≡ [] }
    ensures kept { told.new ≡ told.old }
    ensures found { IsFound (flat_map (faults_by known.now) (init_places (init_view item.now))) result }
{
    match item {
        InitItem::Holds(fact) | InitItem::Fails(fact) => {
            let predicate = fact.predicate.as_bytes();
            let terms = Terms::Objects(&fact.objects);
            look_at_use(known, told, scope, &known.predicates, predicate, &terms)
        }
        InitItem::Value(call, amount) => {
            let function = call.function.as_bytes();
            let terms = Terms::Objects(&call.objects);
            let value = look_at_use(known, told, scope, &known.functions, function, &terms);
            let whole = look(known, told, scope, &Part::Counts(function, *amount));
            lower(value, whole)
        }
    }
}

/// Searches a metric; one that is not taken is a fault, and nothing else is looked for in it.
fn search_metric<'m, 'a, 'd, A: Allocator, B: Allocator>(
    known: &Known<'m, 'a, A, B>,
    told: &mut Told<'m, 'a, A, B>,
    scope: &Scope<'m, 'a, A, B>,
    metric: &'d Option<Metric<A>>,
) -> Result<(), LinkFault<'d>>
    requires told { AreAllTold known.now told.old scope.now }
    requires empty { scope.now ≡ [] }
    ensures kept { told.new ≡ told.old }
    ensures found { IsFound (flat_map (faults_by known.now) (metric_places (option_map metric_view metric.now)) ++ numbered 33 (other_metrics (option_map metric_view metric.now))) result }
{
    match metric {
        Some(metric) if is_taken(metric) => look(known, told, scope, &Part::total_cost()),
        Some(_) => Err(LinkFault::Metric),
        None => Ok(()),
    }
}

/// Searches a problem: its initial state, its goal and its metric.
#[tactic(auto, using(pddl_faults::proofs::FoundFaults::up_to_none))]
pub(crate) fn search_problem<'m, 'a, A: Allocator, B: Allocator>(
    known: &Known<'m, 'a, A, B>,
    told: &mut Told<'m, 'a, A, B>,
    problem: &'m Problem<A>,
) -> Result<(), LinkFault<'m>>
    requires { AreAllTold known.now told.old [] }
    ensures told { AreAllTold known.now told.new [] }
    ensures found { IsFound (flat_map (faults_by known.now) (problem_places (problem_view problem.now)) ++ numbered 33 (other_metrics (problem_view problem.now).metric)) result }
{
    let mut scope = Scope::new(known.types.allocator(), known.types.hashed());
    let mut init = Ok(());
    for item in &problem.init {
        init = lower(init, search_item(known, told, &scope, item));
    }
    let goal = search_formula(known, told, &mut scope, &problem.goal);
    let metric = search_metric(known, told, &scope, &problem.metric);
    lower(init, lower(goal, metric))
}
