//! Formulas and effects by numbers: conditions and changes, what they mean, and how they are made.
//!
//! Names are looked up once, when a formula or an effect is compiled. What it means is then said in numbers alone.
#![tactic(auto)]

mod binder;
mod boxes;
mod changes;
mod compiled;
mod conditions;
mod frame;
mod laws;
mod lookups;
mod scope;
mod scratch;
mod terms;

pub use changes::compile_change;
pub use compiled::{Change, Condition, Place};
pub use conditions::compile_condition;
pub use frame::{Frame, object_in};
pub use laws::{changes_mean_effects, conditions_mean_formulas, parameters_fit};
pub use lookups::Lookups;
pub use scope::{Scope, Slot, parameter_slots};
pub use scratch::fill;
