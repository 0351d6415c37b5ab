use pddl_state::Atom;
use std::alloc::Allocator;

/// Why a plan is refused: its first failing happening, or the goal. Happenings and steps are numbered from 0.
#[derive(Drop)]
pub enum Refusal<A: Allocator> {
    /// A step is the first of a happening whose precondition is false.
    Precondition {
        /// The happening.
        happening: usize,
        /// The step.
        step: u32,
    },
    /// Two steps are the first pair of a happening that interferes, in lexicographical order, where all its preconditions are true.
    Interference {
        /// The happening.
        happening: usize,
        /// The step that stands first in the file.
        first: u32,
        /// The other step.
        second: u32,
        /// The least atom of their clash.
        atom: Atom<A>,
    },
    /// The goal is false at the end.
    Goal,
}
