//! One run of a row's command.

use crate::report::{report, report_given};
use crate::row::{Command, Files, Memory, Row};
use crate::trouble::{Setting, Trouble};
use pddl_fakes::{FakeSink, FakeSource, Refusing};
use pddl_file_lines::{Outcome, RunFault, status};
use std::alloc::Global;

/// What a run shows.
#[derive(Clone, Copy, PartialEq)]
pub enum Seen {
    /// The answer or the text is not the row's, or not that of the call that failed.
    Wrong,
    /// A call failed, or a growth was refused, and the answer says so.
    Failed,
    /// Nothing failed.
    Calm,
}

/// The readers of a row's files.
#[derive(Drop)]
pub struct Sources<'r> {
    pub first: FakeSource<'r>,
    pub second: FakeSource<'r>,
    pub third: FakeSource<'r>,
}

/// Readers of these files that behave so.
fn sources_of(files: Files<'_>, setting: Setting) -> Sources<'_> {
    let size = setting.read_size.max(1);
    if setting.is_cut {
        return Sources {
            first: FakeSource::in_two(files.first, size),
            second: FakeSource::in_two(files.second, size),
            third: FakeSource::in_two(files.third, size),
        };
    }
    Sources {
        first: FakeSource::new(files.first, size, setting.failing_first),
        second: FakeSource::new(files.second, size, setting.failing_second),
        third: FakeSource::new(files.third, size, setting.failing_third),
    }
}

/// What failed in a run.
#[derive(Clone, Copy)]
struct Failures {
    reads: u64,
    writes: u64,
    refused: bool,
    /// Whether a file was read though one before it could not be, or though the row says that it is not read.
    strays: bool,
}

/// Whether some of the text was read.
fn is_read(source: &FakeSource<'_>, text: &[u8]) -> bool {
    source.left().len() != text.len()
}

/// What failed, by the readers, and what is known of the writer and of memory.
fn failures_of(row: Row<'_>, sources: &Sources<'_>, writes: u64, refused: bool) -> Failures {
    let first = sources.first.failures();
    let second = sources.second.failures();
    let no_second = first != 0 || row.ending.files_read < 2;
    let no_third = first != 0 || second != 0 || row.ending.files_read < 3;
    Failures {
        reads: first
            .saturating_add(second)
            .saturating_add(sources.third.failures()),
        writes,
        refused,
        strays: no_second && is_read(&sources.second, row.files.second)
            || no_third && is_read(&sources.third, row.files.third),
    }
}

/// Whether the answer and what was printed are those that the row has where this failed.
fn is_right(
    row: Row<'_>,
    ended: &Result<Outcome, RunFault>,
    printed: &[u8],
    failed: Failures,
) -> bool {
    let want = row.printed;
    match ended {
        Ok(_) => {
            status(ended) == row.ending.status
                && printed == want
                && failed.reads == 0
                && failed.writes == 0
        }
        Err(RunFault::Memory) => failed.refused && printed.is_empty(),
        Err(RunFault::ReadFailed) => failed.reads == 1 && printed.is_empty(),
        Err(RunFault::WriteFailed) => {
            failed.writes == 1 && want.starts_with(printed) && printed.len() < want.len()
        }
    }
}

/// How many calls fail at least: some read of each file that is read, some write of a text, and the row's growths.
fn least(row: Row<'_>, trouble: Trouble) -> u64 {
    match trouble {
        Trouble::FirstReads => u64::from(row.ending.files_read >= 1),
        Trouble::SecondReads => u64::from(row.ending.files_read >= 2),
        Trouble::ThirdReads => u64::from(row.ending.files_read >= 3),
        Trouble::Writes(_, _) => u64::from(!row.printed.is_empty()),
        Trouble::Growths => row.growths,
        _ => 0,
    }
}

/// What a run shows in which this failed, and the call of this number at least where there have to be so many that fail.
fn shown_by(is_right: bool, failed: Failures, number: u64, least: u64) -> Seen {
    if !is_right || failed.strays {
        Seen::Wrong
    } else if failed.refused || failed.reads != 0 || failed.writes != 0 {
        Seen::Failed
    } else if number <= least {
        Seen::Wrong
    } else {
        Seen::Calm
    }
}

/// Runs the row's command over these readers, this memory and this writer.
fn called<C: Command>(
    alloc: Global,
    memory: &Memory,
    row: Row<'_>,
    sources: &mut Sources<'_>,
    out: &mut FakeSink<Global>,
) -> Result<Outcome, RunFault> {
    match C::named(row.ending.words) {
        Some(command) => command.run(alloc, memory, row.files, sources, out),
        None => Err(RunFault::Memory),
    }
}

/// Runs the row where the call of this number fails, and says what differs.
pub fn run<R: Print + AllocGlobal, C: Command>(
    rt: &R,
    row: Row<'_>,
    trouble: Trouble,
    number: u64,
) -> Seen {
    let setting = trouble.at(number);
    let memory = Refusing::nth(rt.alloc(), setting.refused_growth);
    let mut sources = sources_of(row.files, setting);
    let mut out = FakeSink::new(
        rt.alloc(),
        setting.write_size.max(1),
        setting.failing_write,
        setting.failure,
    );
    let ended = called::<C>(rt.alloc(), &memory, row, &mut sources, &mut out);
    let failed = failures_of(row, &sources, out.failures(), memory.has_refused());
    let right = is_right(row, &ended, out.held(), failed);
    let seen = shown_by(right, failed, number, least(row, trouble));
    if seen == Seen::Wrong {
        report(rt, row, trouble, number);
        report_given(rt, row, &ended, out.held());
    }
    seen
}
