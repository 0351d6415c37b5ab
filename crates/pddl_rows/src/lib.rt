//! Rows of files alone, of linked domains and problems, and of command lines, as tests across crates. There is nothing here but tests.
//!
//! A row is data, and `pddl_row_driver` says how it is written. Each file of `rows/` has the rows of one subject as a `static` text, and
//! a test of `tests.rt` says how many rows it has. A row more needs no code: write it into its subject, and add one to the
//! subject's count. What a row wants is worked out by hand from the definitions, and never taken from the program.
#![tactic(auto)]

#[cfg(test)]
mod command;
#[cfg(test)]
mod layouts;
#[cfg(test)]
mod listing;
#[cfg(test)]
mod rows;
#[cfg(test)]
mod tests;
