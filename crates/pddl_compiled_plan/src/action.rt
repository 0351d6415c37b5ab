//! Actions by numbers.

use pddl_compiled::{Change, Condition};
use std::alloc::Allocator;

/// An action's precondition and effect by numbers.
#[derive(Drop)]
pub struct CompiledAction<A: Allocator> {
    pub precondition: Condition<A>,
    pub effect: Change<A>,
}

/// The actions of a task by number, those of them that are used.
pub type UsedActions<'c, D> = Vec<Option<CompiledAction<&'c D>>, &'c D>;
