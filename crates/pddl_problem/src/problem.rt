//! Problems and what they say.

use crate::object_names::ObjectNames;
use pddl_formula::{Formula, Predicate, TypedList};
use pddl_hash::Hashed;
use pddl_token::{Fixed, Name};
use std::alloc::Allocator;

/// A predicate and the names of objects.
#[derive(Drop)]
pub struct Fact<A: Allocator> {
    pub predicate: Predicate<A>,
    pub objects: ObjectNames<A>,
}

/// A function and the names of objects.
#[derive(Drop)]
pub struct GroundFunction<A: Allocator> {
    pub function: Name<A>,
    pub objects: ObjectNames<A>,
}

/// What an item of `:init` says: that a fact holds, that it does not, or the value of a function.
#[derive(Drop)]
pub enum InitItem<A: Allocator> {
    Holds(Fact<A>),
    Fails(Fact<A>),
    Value(GroundFunction<A>, Fixed),
}

/// What a metric wants of its function.
#[derive(Clone, Copy)]
pub enum Direction {
    Minimize,
    Maximize,
}

/// What makes a plan better than another.
#[derive(Drop)]
pub struct Metric<A: Allocator> {
    pub direction: Direction,
    pub function: GroundFunction<A>,
}

/// A planning problem. Each list keeps the order of the file.
#[derive(Drop)]
pub struct Problem<A: Allocator> {
    pub name: Name<A>,
    /// The name of the problem's domain.
    pub domain: Name<A>,
    /// The flags of `:requirements`, without their colons.
    pub requirements: Vec<Name<A>, A>,
    pub objects: TypedList<A>,
    pub init: Vec<InitItem<A>, A>,
    pub goal: Formula<A>,
    pub metric: Option<Metric<A>>,
    /// How tables of its names hash: by a digest of the text that it was read from. It is no part of what the problem says.
    pub hashed: Hashed,
}

/// Lets a problem go. A crate in which one ends proves how it is taken apart, with each type in it; crates that call this do not.
pub fn let_go_problem<A: Allocator>(problem: Problem<A>) {
    drop(problem);
}
