//! Serialisations and splits of the happenings of a plan, and their runs, over any steps and any store of atoms.
//!
//! A plan is here its happenings, lists of the numbers of its steps, as `pddl_judge` makes them, and what its steps do is a
//! [`Course`](pddl_judge::Course). [`serialise`] lists the steps of the happenings in turn, [`is_serialisation`] says whether
//! a list is such an order, and [`replay`] executes its steps one after another. [`split`] makes a timed plan of groups of
//! steps, and [`groups_of_at_most`] cuts happenings into groups.
#![tactic(auto)]

mod cutting;
mod grouping;
mod listing;
mod new_plan;
mod replaying;
mod serial_run;
mod turns;

pub use cutting::{cut_groups_are_a_split, groups_of_at_most};
pub use listing::is_serialisation;
pub use new_plan::{NewPlan, split};
pub use replaying::{End, Replayed, a_list_ends_once, replay};
pub use turns::{Order, serialise, turns_are_a_serialisation};
