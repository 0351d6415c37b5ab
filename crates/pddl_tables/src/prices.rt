//! The costs of functions of objects by numbers.

ghost use Rattle.std.specs.Prelude.{◌≡◌, [], map, IfOk, OnOk};
ghost use Rattle.std.specs.List.{filter_map};
ghost use Rattle.std.specs.Map.{lookup};
ghost use Rattle.pddl_problem.specs.Inits.{function_view, init_view};
ghost use Rattle.pddl_task.specs.Names.{number_in};
ghost use Rattle.pddl_task.specs.Tasks.{cost_in};
ghost use Rattle.pddl_state.specs.Atoms.{AtomValue, atom_eq};
ghost use Rattle.pddl_compiled.specs.Tables.{number_atom};
ghost use Rattle.pddl_linked_task.specs.LinkedTasks.{task_of_files};
ghost use Rattle.pddl_tables.specs.Lookups.{price_in};
ghost use Rattle.pddl_tables.specs.Prices.{numbered_cost, price_at, price_before};

use crate::lookups::TaskLookups;
use indexmap::IndexMap;
use pddl_compiled::Lookups;
use pddl_evaluation::Prices;
use pddl_hash::Hashed;
use pddl_linked_task::Task;
use pddl_problem::{GroundFunction, InitItem, ObjectNames};
use pddl_state::Atom;
use std::alloc::{AllocError, Allocator};
use std::marker::Model;

/// Functions of objects by numbers, each with its cost.
type Costs<'c, C> = IndexMap<Atom<&'c C>, u64, Hashed, &'c C>;

/// The costs that `:init` gives functions of objects, by numbers.
#[derive(Drop)]
pub struct TaskPrices<'c, C: Allocator> {
    prices: Costs<'c, C>,
}

impl<'c, C: Allocator> Model for TaskPrices<'c, C> {
    ghost use Rattle.std.specs.Prelude.{List, ℕ};
    ghost use Rattle.pddl_state.specs.Atoms.{AtomValue};

    ghost Value = { List (AtomValue × ℕ) };

    ghost view = { λ p. p.prices.entries };
}

impl<'c, C: Allocator> TaskPrices<'c, C> {
    /// The cost of a function of objects, or `None` where it has none.
    pub fn cost_of(&self, call: &Atom<&'c C>) -> Option<u64>
        ensures { result ≡ price_in self.now call.now }
    {
        self.prices.get(call).copied()
    }
}

impl<'c, C: Allocator> Prices<&'c C> for TaskPrices<'c, C> {
    ghost use Rattle.std.specs.Option.{unwrap_or};
    ghost use Rattle.pddl_tables.specs.Lookups.{price_in};

    ghost price = { λ prices call. unwrap_or (price_in prices call) 0 };

    fn price(&self, call: &Atom<&'c C>) -> u64 {
        self.cost_of(call).unwrap_or(0)
    }
}

/// The numbers of objects.
///
/// Fails where memory for them is refused.
fn object_numbers<'c, A: Allocator, C: Allocator, L: Lookups<A, C>>(
    alloc: &'c C,
    lookups: &L,
    names: &ObjectNames<A>,
) -> Result<Vec<usize, &'c C>, AllocError>
    ensures { IfOk result (λ numbers. numbers.items ≡ map (number_in (L.tables lookups.now).objects) names.now) }
{
    let mut numbers = Vec::with_capacity(alloc, names.len())?;
    for i in 0..names.len() {
        numbers.push(lookups.object_number(names.at(i)))?;
    }
    Ok(numbers)
}

/// A function of objects by numbers.
///
/// Fails where memory for its arguments is refused.
fn numbered<'c, A: Allocator, C: Allocator, L: Lookups<A, C>>(
    alloc: &'c C,
    lookups: &L,
    call: &GroundFunction<A>,
) -> Result<Atom<&'c C>, AllocError>
    ensures { IfOk result (λ atom. atom ≡ number_atom (L.tables lookups.now).functions (L.tables lookups.now).objects (function_view call.now)) }
{
    let args = object_numbers(alloc, lookups, &call.objects)?;
    let predicate = lookups.function_number(call.function.as_bytes());
    Ok(Atom { predicate, args })
}

/// Puts the cost that an item of `:init` gives, if any, before those of a table.
///
/// Fails where memory for it is refused.
fn add_price<'t, 'm, 'a, 'c, A: Allocator, B: Allocator, C: Allocator>(
    alloc: &'c C,
    lookups: &TaskLookups<'t, 'm, 'a, A, B>,
    item: &InitItem<A>,
    prices: &mut Costs<'c, C>,
) -> Result<(), AllocError>
    ensures { OnOk result ((call : AtomValue) → lookup (atom_eq call) prices.new.entries
        ≡ price_before (task_of_files lookups.now) (init_view item.now) (λ c. lookup (atom_eq c) prices.old.entries) call) }
{
    match item {
        InitItem::Holds(_) | InitItem::Fails(_) => Ok(()),
        InitItem::Value(call, amount) => {
            let call = numbered(alloc, lookups, call)?;
            prices.insert(call, amount.billionths() / 1_000_000_000)?;
            Ok(())
        }
    }
}

/// Puts the costs that items of `:init` give into an empty table, from the last item to the first: what is said first stands.
///
/// Fails where memory for them is refused.
fn add_prices<'t, 'm, 'a, 'c, A: Allocator, B: Allocator, C: Allocator>(
    alloc: &'c C,
    lookups: &TaskLookups<'t, 'm, 'a, A, B>,
    init: &[InitItem<A>],
    prices: &mut Costs<'c, C>,
) -> Result<(), AllocError>
    requires { prices.old.entries ≡ [] }
    ensures { OnOk result ((call : AtomValue) → lookup (atom_eq call) prices.new.entries
        ≡ lookup (atom_eq call) (map (numbered_cost (task_of_files lookups.now)) (filter_map cost_in (map init_view init.now)))) }
{
    let mut left = init.len();
    while left > 0 {
        left -= 1;
        add_price(alloc, lookups, &init[left], prices)?;
    }
    Ok(())
}

/// The costs of functions of objects by numbers.
///
/// Fails where memory for the table is refused.
pub fn task_prices<'m, 'a, 'c, A: Allocator, B: Allocator, C: Allocator>(
    alloc: &'c C,
    task: &Task<'m, 'a, A, B>,
) -> Result<TaskPrices<'c, C>, AllocError>
    ensures { IfOk result (λ prices. (call : AtomValue) → price_in prices call ≡ price_at (task_of_files task.now) call) }
{
    let problem = task.problem();
    let mut prices = IndexMap::with_hasher(alloc, task.hashed());
    let made = add_prices(alloc, &TaskLookups::of(task), &problem.init, &mut prices);
    made.and(Ok(TaskPrices { prices }))
}
