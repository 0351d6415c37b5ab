//! The types, objects, predicates and functions of a domain and a problem in tables, what fits what, and ground sizes.
//!
//! Types are numbered in pre-order, and each has the span of the numbers of what is under it, so that a test for a subtype is two comparisons. Objects stand in the
//! order of the numbers of their types. Ground sizes go by how many objects fit a type.
#![tactic(auto)]

mod entries;
mod known;
mod listed;
mod object_order;
mod signatures;
mod size;
mod told;
mod types;

pub use known::{Known, Tables, tell_parameters};
pub use listed::Listed;
pub use object_order::ObjectOrder;
pub use signatures::{Declares, Signatures, Slots};
pub use told::Told;
pub use types::Types;
