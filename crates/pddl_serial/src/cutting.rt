//! Happenings cut into groups.

ghost use Rattle.std.specs.Prelude.{◌≡◌, ◌++◌, ◌<◌, ℕ, List, map, IfOk, eqb};
ghost use Rattle.std.specs.List.{IsDistinct, concat};
ghost use Rattle.pddl_happenings.specs.Splits.{IsSplitOf};
ghost use Rattle.pddl_judge.specs.HappeningValues.{groups_of};
ghost use Rattle.pddl_serial.specs.Cuts.{cut, cut_in_order};
ghost use Rattle.pddl_serial.specs.Orders.{steps_in};
ghost use Rattle.pddl_serial.specs.declared.turns.Order.{Order};

use crate::turns::{Order, append_in};
use pddl_judge::Happening;
use std::alloc::{AllocError, Allocator};

/// Adds the groups that steps are cut into.
fn add_cut<'a, B: Allocator>(
    alloc: &'a B,
    groups: &mut Vec<Vec<u32, &'a B>, &'a B>,
    steps: &[u32],
    size: usize,
) -> Result<(), AllocError>
    requires { 0 < size }
    ensures { IfOk result (λ _. map (λ g. g.items) groups.new.items ≡ map (λ g. g.items) groups.old.items ++ cut size steps.now) }
{
    for group in steps.chunks(size) {
        groups.push(group.to_vec(alloc)?)?;
    }
    Ok(())
}

/// Adds the groups of one happening.
fn add_groups<'a, B: Allocator>(
    alloc: &'a B,
    groups: &mut Vec<Vec<u32, &'a B>, &'a B>,
    steps: &[u32],
    size: usize,
    order: Order,
) -> Result<(), AllocError>
    requires { 0 < size }
    ensures { IfOk result (λ _. map (λ g. g.items) groups.new.items ≡ map (λ g. g.items) groups.old.items ++ cut size (steps_in order steps.now)) }
{
    let mut turned = Vec::new(alloc);
    append_in(&mut turned, steps, order)?;
    add_cut(alloc, groups, &turned, size)
}

/// Happenings in turn, the steps of each in the order that is asked for and cut into groups of `size` steps, the last of a
/// happening perhaps smaller: a split, by the law [`cut_groups_are_a_split`]. Fails only for want of memory. Own.
pub fn groups_of_at_most<'a, B: Allocator, H: Allocator>(
    alloc: &'a B,
    happenings: &[Happening<H>],
    size: usize,
    order: Order,
) -> Result<Vec<Vec<u32, &'a B>, &'a B>, AllocError>
    requires { 0 < size }
    ensures { IfOk result (λ groups. map (λ g. g.items) groups.items ≡ cut_in_order size order (groups_of happenings.now)) }
{
    let mut groups = Vec::new(alloc);
    for happening in happenings {
        add_groups(alloc, &mut groups, &happening.steps, size, order)?;
    }
    Ok(groups)
}

/// Happenings cut into groups are split: each group has at least one step, is within one happening, and their steps one after
/// another are those of the happenings in turn.
pub fn cut_groups_are_a_split()
    ensures { (size : ℕ) (order : Order) (hs : List (List ℕ)) → 0 < size → IsDistinct eqb (concat hs) → IsSplitOf hs (cut_in_order size order hs) }
{}
