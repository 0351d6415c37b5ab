//! Whole files of sections, `(define (WORD NAME) section*)`, for any kind of file.
//!
//! `specs` says once, for domains and problems alike, which sections fit, which fault of a file comes first, and what a file
//! is; `proofs` has the laws of it. A kind of file gives its rules: the keywords, the values, and the lists that are refused
//! by name. The code here is what the kinds share: the head of a file.
#![tactic(auto)]

mod head;
mod laws;

pub use head::{Opening, open_file, span_of};
pub use laws::{no_fault_at_opening, one_head_fault, one_opening};
