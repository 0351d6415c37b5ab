//! Domains and what they declare.

use crate::declared_types::DeclaredTypes;
use pddl_effect::Effect;
use pddl_formula::{Formula, Predicate, TypeNames, TypedList};
use pddl_hash::Hashed;
use pddl_token::Name;
use std::alloc::Allocator;

/// A declared predicate and its parameters, which are variables (without `?`).
#[derive(Drop)]
pub struct DeclaredPredicate<A: Allocator> {
    pub predicate: Predicate<A>,
    pub parameters: TypedList<A>,
}

/// A declared function, its parameters, and the type of its result.
#[derive(Drop)]
pub struct DeclaredFunction<A: Allocator> {
    pub name: Name<A>,
    pub parameters: TypedList<A>,
    pub result: TypeNames<A>,
}

/// An action: its parameters, when it can be applied, and what it does.
#[derive(Drop)]
pub struct Action<A: Allocator> {
    pub name: Name<A>,
    pub parameters: TypedList<A>,
    pub precondition: Formula<A>,
    pub effect: Effect<A>,
}

/// A planning domain. Each list keeps the order of the file.
#[derive(Drop)]
pub struct Domain<A: Allocator> {
    pub name: Name<A>,
    /// The flags of `:requirements`, without their colons.
    pub requirements: Vec<Name<A>, A>,
    pub types: DeclaredTypes<A>,
    pub constants: TypedList<A>,
    pub predicates: Vec<DeclaredPredicate<A>, A>,
    pub functions: Vec<DeclaredFunction<A>, A>,
    pub actions: Vec<Action<A>, A>,
    /// How tables of its names hash: by a digest of the text that it was read from. It is no part of what the domain says.
    pub hashed: Hashed,
}

/// Lets a domain go. A crate in which one ends proves how it is taken apart, with each type in it; crates that call this do not.
pub fn let_go_domain<A: Allocator>(domain: Domain<A>) {
    drop(domain);
}
