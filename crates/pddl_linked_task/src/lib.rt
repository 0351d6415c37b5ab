//! What a domain and a problem that link say together.
//!
//! A `Task` answers by tables that linking has made. How files link, and which do not, is another crate's matter.
#![tactic(auto)]

mod task;

pub use task::{Task, let_go_task};
