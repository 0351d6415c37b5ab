//! Effects of PDDL, and the values that contracts see in them. Their readers stand in `pddl_effect_reader`.
#![tactic(auto)]

mod amount;
mod effect;

pub use amount::{Amount, FunctionTerm, StaticFunction};
pub use effect::Effect;
