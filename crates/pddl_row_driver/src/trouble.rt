//! What fails in a run.

use pddl_fakes::Failure;

/// What fails in a run, or in how small pieces it reads.
#[derive(Clone, Copy, Debug)]
pub enum Trouble {
    /// Nothing fails, and a read gives at most so many bytes.
    Pieces(usize),
    /// Nothing fails, and the first read of each file gives at most so many bytes.
    Cut,
    /// A read of the first, of the second and of the third file, of at most three bytes each.
    FirstReads,
    SecondReads,
    ThirdReads,
    /// A growth.
    Growths,
    /// A write, of a writer that takes at most so many bytes.
    Writes(usize, Failure),
}

/// Each trouble: files that are read whole, in pieces and cut in two, and calls that fail.
pub static TROUBLES: [Trouble; 14] = [
    Trouble::Pieces(usize::MAX),
    Trouble::Pieces(1),
    Trouble::Pieces(5),
    Trouble::Cut,
    Trouble::FirstReads,
    Trouble::SecondReads,
    Trouble::ThirdReads,
    Trouble::Growths,
    Trouble::Writes(1, Failure::Answers),
    Trouble::Writes(5, Failure::Answers),
    Trouble::Writes(usize::MAX, Failure::Answers),
    Trouble::Writes(1, Failure::TakesNone),
    Trouble::Writes(5, Failure::TakesNone),
    Trouble::Writes(usize::MAX, Failure::TakesNone),
];

/// How the readers, the writer and the memory of a run behave. Calls are counted from 1, and none fails at 0.
#[derive(Clone, Copy)]
pub struct Setting {
    /// How many bytes a reader gives at most at a time.
    pub read_size: usize,
    /// Whether it gives as many as there is room for behind its first read.
    pub is_cut: bool,
    /// Which read of each file fails.
    pub failing_first: u64,
    pub failing_second: u64,
    pub failing_third: u64,
    /// How many bytes the writer takes at most at a time.
    pub write_size: usize,
    /// Which write fails, and how.
    pub failing_write: u64,
    pub failure: Failure,
    /// Which growth is refused.
    pub refused_growth: u64,
}

/// Nothing fails, and reads give at most so many bytes.
fn calm(read_size: usize) -> Setting {
    Setting {
        read_size,
        is_cut: false,
        failing_first: 0,
        failing_second: 0,
        failing_third: 0,
        write_size: usize::MAX,
        failing_write: 0,
        failure: Failure::Answers,
        refused_growth: 0,
    }
}

impl Trouble {
    /// The setting in which the call of this number fails, or in which files are cut at this place.
    pub fn at(self, number: u64) -> Setting {
        let mut setting = calm(3);
        match self {
            Trouble::Pieces(size) => setting.read_size = size,
            Trouble::Cut => {
                setting.read_size = number as usize;
                setting.is_cut = true;
            }
            Trouble::FirstReads => setting.failing_first = number,
            Trouble::SecondReads => setting.failing_second = number,
            Trouble::ThirdReads => setting.failing_third = number,
            Trouble::Growths => {
                setting.write_size = 5;
                setting.refused_growth = number;
            }
            Trouble::Writes(size, failure) => {
                setting.read_size = usize::MAX;
                setting.write_size = size;
                setting.failing_write = number;
                setting.failure = failure;
            }
        }
        setting
    }
}
