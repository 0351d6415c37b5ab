//! The commands of the program that validate plans and print serial forms of them, over readers and a writer.
//!
//! `check`, `serial` and `serial_groups` read a domain, a problem and a plan whole, one after another, each parsed before the next is read. Then they link
//! them, have the linked steps judged over rows of bits, and write one text, which they make before they write: of an accepted plan its verdict, its
//! serial plan or its split into groups, and else the line that says why there is none.
#![tactic(auto)]

mod accepted;
mod checking;
mod judging;
mod reading;
mod running;
mod serial_forms;
mod wanted;

pub use checking::{check, one_plan_outcome};
pub use pddl_serial_plans::Order;
pub use serial_forms::{serial, serial_groups};
