//! Types, and names with types.

use pddl_formula::{TypeNames, Typed};
use pddl_row_driver::Lines;
use std::alloc::Allocator;

/// Adds the primitives of a type.
pub fn add_types<A: Allocator>(types: &TypeNames<A>, lines: &mut Lines) {
    for name in types.as_slice() {
        lines.word(name.as_bytes());
    }
}

/// Adds a line for each name with its type, behind a word.
pub fn add_typed<A: Allocator>(word: &[u8], typed: &[Typed<A>], lines: &mut Lines) {
    for one in typed {
        lines.words(&[word, one.name.as_bytes()]);
        add_types(&one.types, lines);
        lines.end();
    }
}
