//! What is said of a row that does not hold.

use crate::row::Row;
use crate::trouble::Trouble;
use pddl_file_lines::{Outcome, RunFault};
use std::str;

/// The most bytes of a text that are shown.
const SHOWN: usize = 4096;

/// The beginning of a text, as far as it is shown.
fn shown(text: &[u8]) -> &str {
    match str::from_utf8(text.get(..SHOWN).unwrap_or(text)) {
        Ok(text) => text,
        Err(_) => "(no UTF-8)",
    }
}

/// Prints the row's name, and at which call it differs.
pub fn report<R: Print>(rt: &R, row: Row<'_>, trouble: Trouble, number: u64) {
    let name = row.name;
    let _ = rt.println(format_args!(
        "the row '{name}' differs, or nothing fails, at call {number} of {trouble:?}"
    ));
}

/// Prints what was wanted and what was given.
pub fn report_given<R: Print>(
    rt: &R,
    row: Row<'_>,
    ended: &Result<Outcome, RunFault>,
    printed: &[u8],
) {
    let status = row.ending.status;
    let wanted = shown(row.printed);
    let printed = shown(printed);
    let _ = rt.println(format_args!(
        "wanted, with status {status}:\n{wanted}\ngiven, with {ended:?}:\n{printed}"
    ));
}
