//! The readers of terms, typed lists and formulas from items.
//!
//! A reader answers a value exactly where the items spell one, and then that one.
#![tactic(auto)]

mod formula_reader;
mod head;
mod laws;
mod term_reader;
mod typed_reader;

pub use formula_reader::{condition_of, formula_of};
pub use head::{Head, head_of};
pub use laws::{
    formulas_as_spelled, heads_as_spelled, one_formula, terms_as_spelled, typed_lists_as_spelled,
    words_as_spelled,
};
pub use term_reader::{
    atom_of, atom_of_list, names_of, predicate_of, term_of, terms_of, variable_of,
};
pub use typed_reader::{
    type_called, type_name_called, type_name_of, type_of, typed_names_of, typed_variables_of,
    variables_of,
};
