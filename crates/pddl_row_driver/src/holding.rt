//! Rows under each call that can fail, and texts of rows.

use crate::reader::Reader;
use crate::row::{Command, Row};
use crate::running::{Seen, run};
use crate::samples::SAMPLES;
use crate::trouble::{TROUBLES, Trouble};

/// More calls than a row makes.
const MANY: u64 = 1_000_000;

/// At how many places files are cut in two at most.
const CUTS: u64 = 255;

/// The plan among the files that are read, or nothing.
fn plan_of(row: Row<'_>) -> &[u8] {
    let files = row.files;
    match row.ending.plan_file {
        1 if row.ending.files_read >= 1 => files.first,
        3 if row.ending.files_read >= 3 => files.third,
        _ => b"",
    }
}

/// How many runs there are at least: files are cut in two at each place of the plan, but not past the first places.
fn least_runs(row: Row<'_>, trouble: Trouble) -> u64 {
    match trouble {
        Trouble::Cut => CUTS.min(plan_of(row).len().saturating_sub(1) as u64),
        _ => 1,
    }
}

/// Whether the row holds where each call fails in turn, up to a run in which none does.
fn holds_in<R: Print + AllocGlobal, C: Command>(rt: &R, row: Row<'_>, trouble: Trouble) -> bool {
    for number in 1..MANY {
        match run::<R, C>(rt, row, trouble, number) {
            Seen::Wrong => return false,
            Seen::Calm if number >= least_runs(row, trouble) => return true,
            _ => {}
        }
    }
    false
}

/// Whether the row holds, read whole and in pieces, and with each call failing in turn, or only whole where it says `once`.
fn holds_alone<R: Print + AllocGlobal, C: Command>(rt: &R, row: Row<'_>) -> bool {
    if row.ending.is_once {
        return holds_in::<R, C>(rt, row, Trouble::Pieces(usize::MAX));
    }
    for trouble in TROUBLES.iter() {
        if !holds_in::<R, C>(rt, row, *trouble) {
            return false;
        }
    }
    true
}

/// Whether the row holds, and so by the command that has to print the same, if there is one.
fn holds<R: Print + AllocGlobal, C: Command>(rt: &R, row: Row<'_>) -> bool {
    if !holds_alone::<R, C>(rt, row) {
        return false;
    }
    match row.twin::<C>() {
        Some(twin) => holds_alone::<R, C>(rt, twin),
        None => true,
    }
}

/// How many rows of a text hold, up to a line that says nothing of a row.
fn count_holding<'t, R: Print + AllocGlobal, C: Command>(
    rt: &R,
    reader: &mut Reader<'t>,
    text: &'t str,
) -> u64 {
    let mut held = 0u64;
    for line in text.lines() {
        if let Some(ending) = reader.take_line::<C>(line) {
            let holds = holds::<R, C>(rt, reader.row(ending));
            held = held.saturating_add(u64::from(holds));
            reader.end();
        }
        if reader.is_wrong() {
            let _ = rt.println(format_args!("a line says nothing of a row: {line}"));
            break;
        }
    }
    held
}

/// All rows of a text hold, by the commands `C`, and there are so many; else what is wrong. The samples are kept before it, and have
/// no rows.
pub fn all_hold<R: Print + AllocGlobal, C: Command>(
    rt: &R,
    text: &str,
    rows: u64,
) -> Result<(), &'static str> {
    let mut reader = Reader::new(rt.alloc());
    let samples = count_holding::<R, C>(rt, &mut reader, SAMPLES);
    let held = count_holding::<R, C>(rt, &mut reader, text).saturating_add(samples);
    let is_wrong = reader.is_wrong();
    drop(reader);
    if is_wrong {
        return Err("the rows cannot be read");
    }
    if held != rows {
        let _ = rt.println(format_args!("{held} rows hold, of {rows}"));
        return Err("a row does not hold, or is lost");
    }
    Ok(())
}
