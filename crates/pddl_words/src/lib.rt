//! The words of the command line, and what they ask for.
//!
//! Of the product it stands on the kinds of files alone, so that `clap`, which is dear to check, is checked beside the readers
//! and not behind them.
#![tactic(auto)]

mod help;
mod words;

pub use words::{Job, parse_words, words_status};
