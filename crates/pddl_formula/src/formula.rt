//! Formulas.

use crate::term::{Atom, Term};
use crate::typed_list::TypedList;
use std::alloc::Allocator;

/// A condition on states (Kovacs, `<GD>` without preferences and comparisons).
#[derive(Drop)]
pub enum Formula<A: Allocator> {
    Atom(Atom<A>),
    Equal(Term<A>, Term<A>),
    Not(Box<Formula<A>, A>),
    Imply(Box<Formula<A>, A>, Box<Formula<A>, A>),
    And(Vec<Formula<A>, A>),
    Or(Vec<Formula<A>, A>),
    Exists(TypedList<A>, Box<Formula<A>, A>),
    Forall(TypedList<A>, Box<Formula<A>, A>),
}
