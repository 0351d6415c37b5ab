//! What files of domains and problems share: keywords of sections, flags of `:requirements`, lists that are refused by name,
//! and faults.
#![tactic(auto)]

mod fault;
mod flag;
mod keyword;
mod laws;
mod mark;
mod one_pass;
mod unfit;

pub use fault::FileFault;
pub use flag::{flag_of, flags_of};
pub use keyword::{SectionKeyword, Seen, head_keyword_of, keyword_of};
pub use laws::{flags_as_spelled, keywords_as_spelled, marks_as_spelled};
pub use mark::{Mark, first_marked};
pub use one_pass::{Stop, begin_file, end_behind, next_section, word_behind};
pub use unfit::refusal;
