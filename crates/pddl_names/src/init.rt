//! Atoms that hold and fail in `:init`, and functions of objects that have two values there.

ghost use Rattle.std.specs.Prelude.{◌≡◌, ◌++◌, [], cond, map, unwrap_or, IfOk};
ghost use Rattle.indexmap.specs.IndexMap.{get};
ghost use Rattle.pddl_problem.specs.Inits.{init_view};
ghost use Rattle.pddl_task.specs.Names.{wrong_words};
ghost use Rattle.pddl_task.specs.Faults.{contradicts, init_name, clashing, wrong_values};
ghost use Rattle.pddl_faults.specs.Passes.{Passes};
ghost use Rattle.pddl_faults.specs.Found.{IsFound, numbered};
ghost use Rattle.pddl_names.specs.Claims.{claim_of, claim_in, wrong_in, fault_number, is_failure};

use indexmap::IndexMap;
use pddl_faults::{LinkFault, lower};
use pddl_hash::Hashed;
use pddl_problem::{InitItem, ObjectNames};
use pddl_token::Name;
use std::alloc::{AllocError, Allocator};
use std::hash::Hash;

/// A ground atom, or a function of objects, lent: its name and its objects.
type Ground<'d, A> = (&'d Name<A>, &'d ObjectNames<A>);

/// Whether an item is of a function of objects, of what it claims a number, and the number: 1 of an atom that holds, 0 of one that fails, or the value of
/// a function of objects in billionths.
fn claim_of<'d, A: Allocator>(item: &'d InitItem<A>) -> (bool, Ground<'d, A>, u64)
    ensures { claim_in result ≡ claim_of (init_view item.now) }
{
    match item {
        InitItem::Holds(fact) => (false, (fact.predicate.as_name(), &fact.objects), 1),
        InitItem::Fails(fact) => (false, (fact.predicate.as_name(), &fact.objects), 0),
        InitItem::Value(call, amount) => {
            (true, (&call.function, &call.objects), amount.billionths())
        }
    }
}

/// The first number under a key, which is this one where the key is new.
///
/// Fails where memory for the key is refused.
fn first_number<K: Eq + Hash + Drop, B: Allocator>(
    table: &mut IndexMap<K, u64, Hashed, B>,
    key: K,
    number: u64,
) -> Result<u64, AllocError>
    ensures first { IfOk result (λ first. first ≡ unwrap_or (get K.eq table.old key) number) }
    ensures put { IfOk result (λ first. (other : K) → get K.eq table.new other ≡ cond (K.eq key other) (Some first) (get K.eq table.old other)) }
{
    Ok(*table.entry(key)?.or_insert(number))
}

/// Whether an item says of an atom that it fails.
fn is_failure<A: Allocator>(item: &InitItem<A>) -> bool
    ensures { result ≡ is_failure (init_view item.now) }
{
    matches!(item, InitItem::Fails(_))
}

/// Of functions of objects, or of atoms: no item claims another number than one before it, and none a total cost above 0. What is claimed is put into an empty
/// table.
fn agree_in<'d, 'a, A: Allocator, B: Allocator>(
    claims: &mut IndexMap<Ground<'d, A>, u64, Hashed, &'a B>,
    init: &'d [InitItem<A>],
    of_values: bool,
) -> Result<(), LinkFault<'d>>
    requires { claims.old.entries ≡ [] }
    ensures { Passes (fault_number of_values) (wrong_words (wrong_in of_values) init_name [] (map init_view init.now)) result }
{
    for item in init {
        let (is_value, ground, number) = claim_of(item);
        if is_value == of_values {
            let name = ground.0.as_bytes();
            let is_cost = name == b"total-cost".as_slice();
            let before = first_number(claims, ground, number)?;
            if (of_values & is_cost & (number != 0)) | (number != before) {
                return Err(if of_values {
                    LinkFault::CostValue(name)
                } else {
                    LinkFault::InitContradiction(name)
                });
            }
        }
    }
    Ok(())
}

/// Of functions of objects, or of atoms: what is claimed agrees.
fn claims_agree<'d, 'a, A: Allocator, B: Allocator>(
    alloc: &'a B,
    hashed: Hashed,
    init: &'d [InitItem<A>],
    of_values: bool,
) -> Result<(), LinkFault<'d>>
    ensures { Passes (fault_number of_values) (wrong_words (wrong_in of_values) init_name [] (map init_view init.now)) result }
{
    agree_in(&mut IndexMap::with_hasher(alloc, hashed), init, of_values)
}

/// No atom holds and fails, no function of objects has two values, and `total-cost` starts at none but 0. Where no atom fails, atoms are not looked up.
pub(crate) fn claims<'d, 'a, A: Allocator, B: Allocator>(
    alloc: &'a B,
    hashed: Hashed,
    init: &'d [InitItem<A>],
) -> Result<(), LinkFault<'d>>
    ensures { IsFound (numbered 29 (clashing contradicts [] (map init_view init.now)) ++ numbered 31 (wrong_values [] (map init_view init.now))) result }
{
    let values = claims_agree(alloc, hashed, init, true);
    if init.iter().any(is_failure) {
        lower(claims_agree(alloc, hashed, init, false), values)
    } else {
        values
    }
}
