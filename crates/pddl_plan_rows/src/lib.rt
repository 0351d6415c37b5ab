//! Rows of plans: texts of a domain, a problem and a plan, and what commands and calls below them answer, as tests across crates. There is
//! nothing here but tests.
//!
//! `pddl_row_driver` says how a row is written. Each file of `rows/` has the rows of one subject as a `static` text, and a test
//! of `tests.rt` says how many rows it has. What a row wants is worked out by hand from the definitions, and never taken from the
//! program.
//!
//! What a row can list, `pddl_plan_listing` says. A row by the command `plan` is run once more by `list verdicts`, so that both
//! stores give its line. What `serial`, `serial reverse` and `groups N` print is, by `again`, the plan of the next ending, which is
//! valid at the same cost.
#![tactic(auto)]

#[cfg(test)]
mod command;
#[cfg(test)]
mod rows;
#[cfg(test)]
mod tests;
