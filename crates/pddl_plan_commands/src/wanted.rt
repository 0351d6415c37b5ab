//! What is wanted of a plan that is accepted.

use pddl_serial_plans::Order;
use std::num::NonZeroU32;

/// What is printed where a plan is accepted.
#[derive(Clone, Copy)]
pub enum Wanted {
    /// The line of a valid plan.
    Verdict,
    /// The serial plan, the steps of each happening in an order.
    Serial(Order),
    /// The split into groups of so many steps, the steps of each happening in an order.
    Groups(Order, NonZeroU32),
}
