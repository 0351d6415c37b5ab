//! The steps of happenings one after another.

ghost use Rattle.std.specs.Prelude.{◌≡◌, ◌++◌, ℕ, List, IfOk, eqb, reverse};
ghost use Rattle.std.specs.List.{IsDistinct, concat};
ghost use Rattle.pddl_happenings.specs.Serialisations.{IsSerialOrder};
ghost use Rattle.pddl_judge.specs.HappeningValues.{groups_of};
ghost use Rattle.pddl_serial.specs.Orders.{steps_in, in_order};
ghost use Rattle.pddl_serial.specs.declared.turns.Order.{Order};

use pddl_judge::Happening;
use std::alloc::{AllocError, Allocator};

/// The order in which the steps of a happening are listed.
#[derive(Clone, Copy, Debug, PartialEq, Eq)]
pub enum Order {
    /// As they stand in the plan's file.
    File,
    /// The last of the file first.
    Reverse,
}

/// Adds numbers at the end, the last of them first.
fn append_reversed<B: Allocator>(numbers: &mut Vec<u32, B>, more: &[u32]) -> Result<(), AllocError>
    ensures { IfOk result (λ _. numbers.new.items ≡ numbers.old.items ++ reverse more.now) }
{
    for number in more.iter().rev() {
        numbers.push(*number)?;
    }
    Ok(())
}

/// Adds the steps of a happening at the end.
pub(crate) fn append_in<B: Allocator>(
    numbers: &mut Vec<u32, B>,
    steps: &[u32],
    order: Order,
) -> Result<(), AllocError>
    ensures { IfOk result (λ _. numbers.new.items ≡ numbers.old.items ++ steps_in order steps.now) }
{
    match order {
        Order::File => numbers.extend_from_slice(steps),
        Order::Reverse => append_reversed(numbers, steps),
    }
}

/// The steps of happenings in turn, those of each happening in the order that is asked for: a serialisation, by the law
/// [`turns_are_a_serialisation`]. Fails only for want of memory. Own.
pub fn serialise<'a, B: Allocator, H: Allocator>(
    alloc: &'a B,
    happenings: &[Happening<H>],
    order: Order,
) -> Result<Vec<u32, &'a B>, AllocError>
    ensures { IfOk result (λ steps. steps.items ≡ in_order order (groups_of happenings.now)) }
{
    let mut steps = Vec::new(alloc);
    for happening in happenings {
        append_in(&mut steps, &happening.steps, order)?;
    }
    Ok(steps)
}

/// The steps of happenings in turn, those of each in file order or reversed, are a serialisation.
pub fn turns_are_a_serialisation()
    ensures { (order : Order) (hs : List (List ℕ)) → IsDistinct eqb (concat hs) → IsSerialOrder hs (in_order order hs) }
{}
