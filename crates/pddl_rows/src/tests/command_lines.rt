//! Command lines, which ask for a job or for none.

use crate::rows;
use pddl_row_driver::{Lines, text_of};
use pddl_words::{Job, parse_words, words_status};
use std::alloc::Global;
use std::num::NonZeroU32;
use std::test::Fail;

/// What a row says of words.
#[derive(Clone, Copy)]
enum Said {
    /// The job that they ask for, or the exit status where they ask for none.
    Job,
    /// A part of the help that is printed.
    Help,
}

/// Adds names of files, between which commas stand.
fn add_files(command: &[u8], first: &str, others: &[&str], lines: &mut Lines) {
    lines.words(&[command, first.as_bytes()]);
    for other in others {
        lines.add(b",");
        lines.word(other.as_bytes());
    }
}

/// Adds what a serial form is asked of.
fn add_form(reverse: bool, groups: Option<NonZeroU32>, lines: &mut Lines) {
    if reverse {
        lines.word(b"reversed");
    }
    if let Some(size) = groups {
        lines.word(b"in groups of");
        lines.shown(&size);
    }
}

/// Adds a job.
fn add_job(job: &Job<'_>, lines: &mut Lines) {
    match *job {
        Job::Domain { path } => add_files(b"domain", path, &[], lines),
        Job::Problem { domain, problem } => add_files(b"problem", domain, &[problem], lines),
        Job::Plan {
            domain,
            problem,
            plan,
        } => add_files(b"plan", domain, &[problem, plan], lines),
        Job::Serial {
            domain,
            problem,
            plan,
            reverse,
            groups,
        } => {
            add_files(b"serial", domain, &[problem, plan], lines);
            add_form(reverse, groups, lines);
        }
        Job::Format { kind, path } => {
            lines.word(b"format");
            lines.shown(&kind);
            lines.word(path.as_bytes());
        }
    }
}

/// Adds what there is to say of words.
fn add_said(alloc: Global, said: Said, words: &[&str], lines: &mut Lines) {
    match parse_words(alloc, words) {
        Ok(job) => match said {
            Said::Job => add_job(&job, lines),
            Said::Help => {}
        },
        Err(error) => match said {
            Said::Job => {
                lines.word(b"status");
                lines.shown(&words_status(&error));
            }
            Said::Help => lines.made(format!(in alloc; "{error}")),
        },
    }
}

/// Adds what there is to say of the words of a row.
fn add_row(alloc: Global, said: Said, row: &str, lines: &mut Lines) {
    let mut words = Vec::new(alloc);
    for word in row.split('|') {
        if !word.is_empty() {
            lines.push(&mut words, Some(word));
        }
    }
    add_said(alloc, said, &words, lines);
}

/// Whether what was found is what a row wants, or has it as a part.
fn is_wanted(said: Said, lines: &Lines, want: &str) -> bool {
    match lines.text() {
        Ok(found) => match said {
            Said::Job => found == want.as_bytes(),
            Said::Help => text_of(found).contains(want),
        },
        Err(_) => false,
    }
}

/// Whether the row of a line holds.
fn row_holds(alloc: Global, said: Said, line: &str) -> bool {
    let (words, want) = line.split_once(" => ").unwrap_or((line, "no want"));
    let mut lines = Lines::new(alloc);
    add_row(alloc, said, words, &mut lines);
    is_wanted(said, &lines, want)
}

/// All rows of a text hold, and there are so many; else a row that does not hold, or that some are lost.
fn all_hold<'t>(alloc: Global, said: Said, text: &'t [u8], rows: u64) -> Result<(), &'t str> {
    let mut held = 0u64;
    for line in text_of(text).lines() {
        if !row_holds(alloc, said, line) {
            return Err(line);
        }
        held = held.saturating_add(1);
    }
    if held == rows {
        Ok(())
    } else {
        Err("a row is lost")
    }
}

#[test]
fn words_ask_for_jobs(rt: HostRuntime) -> Result<(), Fail> {
    all_hold(rt.alloc(), Said::Job, rows::COMMAND_LINES, 96)?;
    Ok(())
}

#[test]
fn help_names_the_commands_and_the_statuses(rt: HostRuntime) -> Result<(), Fail> {
    all_hold(rt.alloc(), Said::Help, rows::HELP, 33)?;
    Ok(())
}
