//! Terms, typed lists and formulas of PDDL, and the values that contracts see in them. Their readers stand in `pddl_formula_reader`.
#![tactic(auto)]

mod formula;
mod groups;
mod term;
mod type_names;
mod typed_list;

pub use formula::Formula;
pub use groups::Groups;
pub use term::{Atom, Predicate, Term};
pub use type_names::{TypeName, TypeNames, Typed};
pub use typed_list::TypedList;
