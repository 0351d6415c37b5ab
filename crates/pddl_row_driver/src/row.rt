//! Rows, and the commands that they run.

use crate::running::Sources;
use crate::spelled::begun;
use pddl_fakes::{FakeSink, Refusing};
use pddl_file_lines::{Outcome, RunFault};
use std::alloc::Global;

/// Memory of which a growth may be refused.
pub type Memory = Refusing<Global>;

/// The commands of a crate of rows.
pub trait Command: Copy {
    /// The command of these words.
    fn named(words: &str) -> Option<Self>;

    /// How many files the command reads by readers, from the first on.
    fn readers(self) -> u64;

    /// Which of these files is a plan, counted from 1; 0 where none is.
    fn plan_file(self) -> u64;

    /// The words of another command that has to print and answer the same for files that are not refused.
    fn twin(self) -> Option<&'static str>;

    /// Runs the command over these readers, this memory and this writer. What is listed is held by `alloc`.
    fn run(
        self,
        alloc: Global,
        memory: &Memory,
        files: Files<'_>,
        sources: &mut Sources<'_>,
        out: &mut FakeSink<Global>,
    ) -> Result<Outcome, RunFault>;
}

/// The exit status where a file is refused.
const REFUSED: u8 = 2;

/// The words that a last line begins with: the row is run once, only so many files are read, and the exit status.
static ONCE: [(&str, bool); 1] = [("once ", true)];

static ONLY: [(&str, u64); 3] = [("only 0 ", 0), ("only 1 ", 1), ("only 2 ", 2)];

static OUTCOMES: [(&str, u8); 3] = [("good ", 0), ("invalid ", 1), ("refused ", REFUSED)];

/// What the last line of a row says.
#[derive(Clone, Copy)]
pub struct Ending<'r> {
    /// The words of the command.
    pub words: &'r str,
    /// The exit status.
    pub status: u8,
    /// Whether the row is run only once, where nothing fails.
    pub is_once: bool,
    /// How many files are read by readers, and which of them is a plan.
    pub files_read: u64,
    pub plan_file: u64,
}

impl<'r> Ending<'r> {
    /// What the line says: `[once] [only N] OUTCOME COMMAND`, for the commands `C`.
    pub fn of<C: Command>(line: &'r str) -> Option<Ending<'r>> {
        let (is_once, line) = begun(line, &ONCE).unwrap_or((false, line));
        let (first_files, line) = begun(line, &ONLY).unwrap_or((u64::MAX, line));
        let (status, words) = begun(line, &OUTCOMES)?;
        let command = C::named(words)?;
        Some(Ending {
            words,
            status,
            is_once,
            files_read: command.readers().min(first_files),
            plan_file: command.plan_file(),
        })
    }
}

/// The texts of the files of a row. One that is not given is empty.
#[derive(Clone, Copy)]
pub struct Files<'r> {
    pub first: &'r [u8],
    pub second: &'r [u8],
    pub third: &'r [u8],
    pub fourth: &'r [u8],
}

/// A command, the texts of its files, and what it has to print and answer.
#[derive(Clone, Copy)]
pub struct Row<'r> {
    pub name: &'r str,
    pub files: Files<'r>,
    pub printed: &'r [u8],
    /// How many growths are refused in turn at least.
    pub growths: u64,
    pub ending: Ending<'r>,
}

impl<'r> Row<'r> {
    /// The row of the same files by the command that has to print the same, if there is one.
    pub fn twin<C: Command>(self) -> Option<Row<'r>> {
        if self.ending.status == REFUSED {
            return None;
        }
        let words = C::named(self.ending.words)?.twin()?;
        let ending = Ending {
            words,
            status: self.ending.status,
            is_once: true,
            files_read: 0,
            plan_file: 0,
        };
        Some(Row {
            name: self.name,
            files: self.files,
            printed: self.printed,
            growths: self.growths,
            ending,
        })
    }
}
