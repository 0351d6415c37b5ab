//! Runs rows: texts of files, what a command has to print for them, and its exit status.
//!
//! A row is data. A crate of rows says by the trait [`Command`] what its commands are, and by [`all_hold`] that all rows of a text hold.
//!
//! A line is a word and the rest. There is a text at hand, to which lines add. A file takes it, and so does an ending, as what
//! has to be printed.
//!
//! | Line | What it does |
//! |---|---|
//! | `row NAME` | a row begins, without files |
//! | `\| TEXT` | adds TEXT and a line feed |
//! | `part TEXT` | adds TEXT |
//! | `times N TEXT` | adds TEXT so many times |
//! | `series N TEXT` | adds TEXT, without escapes, for each number below N; in it `#` and a digit stand for the number and so much more |
//! | `copy NAME` | adds the text that is kept under the name |
//! | `change PART => OTHER` | puts OTHER in place of the first PART of the text at hand; `change PART` takes it out |
//! | `keep NAME` | keeps the text at hand under a name for the rows below; those of `samples.rt` are for each subject |
//! | `file TEXT` | adds TEXT; the text at hand is the next file, of at most four |
//! | `again` | what the row printed last takes the place of its last file |
//! | `growths N` | so many growths at least have to be refused in turn |
//! | `[once] [only N] OUTCOME COMMAND` | an ending: `good`, `invalid` or `refused`, for status 0, 1 or 2, and a command of the crate |
//! | `# ..`, or nothing | a comment |
//!
//! A TEXT is taken as it stands, but `\n \r \t \f \v \0` are those bytes, `\s` a blank at an end, `\b` a backslash, and `\xHH`
//! the byte of two hexadecimal digits. A row may have several endings, for the same files and more.
//!
//!     row a type that stands twice
//!     file (define (domain d) (:types a a))
//!     | link: fault 21 TypeTwice a
//!     refused domain
//!
//! A row is run with its files read whole, in pieces of 1 and of 5 bytes, and cut in two at each place of a plan, of which the
//! first 255 are tried, and then with each read of each file, each growth and each write failing in turn, up to a run in which none
//! does (`trouble.rt`). A run is judged by what failed in it
//! (`running.rt`). An answer needs the row's status and text, and no failed read or write; want of memory a refused growth,
//! and nothing written; a failed read just one, nothing written, and no file behind it read; a failed write just one, and
//! a proper beginning written. Of each file that a command reads some read fails in turn; a row that says `only N` reads
//! nothing behind its first N files, of which there are two at most. One that says `once` is run only whole: texts at the limits.
//! Where a command has a twin, that has to print and answer the same for a row whose files are not refused, read whole.
//!
//! A listing is what calls below the commands answer, in lines (`lines.rt`), whose own memory is never refused. Where memory is refused
//! in one, the same calls are made once more, of the same values, and have to answer what they answer with ample memory.
//!
//! A row that does not hold is printed with its name, what was wanted and what was given, and the call that failed; a line
//! that says nothing of a row as it stands; and a row that is lost shows by the count.
#![tactic(auto)]

mod faults;
mod holding;
mod lines;
mod reader;
mod report;
mod row;
mod running;
mod samples;
mod spelled;
mod tasks;
mod trouble;

pub use faults::{add_file_fault, add_link_fault, add_read_fault, add_text_fault};
pub use holding::all_hold;
pub use lines::{Lines, text_of, write_lines};
pub use row::{Command, Ending, Files, Memory, Row};
pub use running::Sources;
pub use tasks::{OfTask, add_task};
