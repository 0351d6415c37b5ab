//! Looks for the faults of linking: the name in `:domain`, and those from 23 on, in the order of the canonical text: what is declared and bound, and what is used.
//!
//! `files.rt` says what is looked for in a domain and a problem. `walk.rt` goes through formulas, effects, actions and `:init`, with the variables in scope (`scope.rt`), and
//! `uses.rt` looks at what stands at one place (`part.rt`), by what may be named there. `init.rt` compares what `:init` claims, and `passes.rt` looks at declarations.
#![tactic(auto)]

mod files;
mod init;
mod part;
mod passes;
mod scope;
mod uses;
mod walk;

pub use files::{look_at_files, look_at_goal};
pub use passes::domain_name;
