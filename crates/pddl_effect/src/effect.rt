//! Effects.

use crate::amount::Amount;
use pddl_formula::{Atom, Formula, TypedList};
use std::alloc::Allocator;

/// What an action does to a state (Kovacs, `<effect>` with `:conditional-effects` and `:action-costs`; that effects nest
/// freely is own).
#[derive(Drop)]
pub enum Effect<A: Allocator> {
    And(Vec<Effect<A>, A>),
    Forall(TypedList<A>, Box<Effect<A>, A>),
    When(Formula<A>, Box<Effect<A>, A>),
    Add(Atom<A>),
    Del(Atom<A>),
    /// Adds an amount to `total-cost`.
    Increase(Amount<A>),
}
