//! Reads PDDL files, prints them in one layout, says what is wrong with them, validates plans, and prints their serial forms.
//!
//! Here stand the words of the command line, the files that they name, and the exit status. What a command does
//! with its files stands in `pddl_commands` and `pddl_plan_commands`.
#![tactic(auto)]

ghost use Rattle.std.specs.Prelude.{◌≡◌};
ghost use Rattle.clap.specs.Values.{kind_of};
ghost use Rattle.clap.specs.declared.error.kind.ErrorKind.TheVariants.{DisplayHelp};

mod input;

use input::{Opened, open};
use pddl_commands::{check_domain_file, check_problem_file, format};
use pddl_device::{FromRead, Sink, Source, ToWrite};
use pddl_file_lines::{Outcome, RunFault, status};
use pddl_kind::Kind;
use pddl_plan_commands::{Order, check, serial, serial_groups};
use pddl_words::{Job, parse_words, words_status};
use std::alloc::Allocator;
use std::env::Env;
use std::io::ErrorKind;
use std::num::NonZeroU32;
use std::process::ExitCode;
use std::rt::Files;
use std::{env, io};

/// The exit status of words that ask for no command.
const WRONG_WORDS: u8 = 3;

/// The exit status of a command that was not carried out.
const NOT_DONE: u8 = 4;

/// Says on standard error why a command was not carried out, and answers the exit status.
fn give_up(rt: &impl Eprint, fault: RunFault) -> u8
    ensures { result ≡ NOT_DONE }
{
    let _ = rt.eprintln(format_args!("pddlcheck: {fault}"));
    status(&Err(fault))
}

/// Says on standard error which file does not open, and answers the exit status.
fn cannot_open(rt: &impl Eprint, path: &str) -> u8
    ensures { result ≡ NOT_DONE }
{
    let _ = rt.eprintln(format_args!("pddlcheck: cannot open {path}"));
    NOT_DONE
}

/// Why a job was not carried out.
#[derive(Clone, Copy)]
enum NotDone<'p> {
    /// The file at a path does not open.
    CannotOpen(&'p str),
    /// Its command failed.
    Failed(RunFault),
}

impl<'p> From<RunFault> for NotDone<'p> {
    fn from(fault: RunFault) -> NotDone<'p> {
        NotDone::Failed(fault)
    }
}

/// The reader of the file at a path.
fn opened<'p, R: Files + Input>(
    rt: &R,
    path: &'p str,
) -> Result<FromRead<Opened<R::File, R::Reader>>, NotDone<'p>> {
    match open(rt, path) {
        Ok(file) => Ok(FromRead::new(file)),
        Err(_) => Err(NotDone::CannotOpen(path)),
    }
}

/// Checks the domain of a reader, where its file opened.
fn run_domain<A: Allocator, S: Source + Drop, E: From<RunFault> + Drop>(
    alloc: &A,
    domain: Result<S, E>,
    out: &mut impl Sink,
) -> Result<Outcome, E> {
    let mut domain = domain?;
    Ok(check_domain_file(alloc, &mut domain, out)?)
}

/// Checks the problem of a reader, where its file opened, with a domain.
fn run_with_domain<A: Allocator, S: Source + Drop, E: From<RunFault> + Drop>(
    alloc: &A,
    domain: &mut impl Source,
    problem: Result<S, E>,
    out: &mut impl Sink,
) -> Result<Outcome, E> {
    let mut problem = problem?;
    Ok(check_problem_file(alloc, domain, &mut problem, out)?)
}

/// Checks a problem with the domain of a reader, where its file opened. Both files are opened before any is read.
fn run_problem<'p, R: Files + Input + AllocGlobal, S: Source + Drop>(
    rt: &R,
    domain: Result<S, NotDone<'p>>,
    problem: &'p str,
    out: &mut impl Sink,
) -> Result<Outcome, NotDone<'p>> {
    let mut domain = domain?;
    run_with_domain(&rt.alloc(), &mut domain, opened(rt, problem), out)
}

/// What is asked of a plan: its verdict, its serial plan in an order, or its split into groups of so many steps.
#[derive(Clone, Copy)]
enum Asked {
    Verdict,
    Serial(Order),
    Groups(Order, NonZeroU32),
}

impl Asked {
    /// A serial plan, the steps of each happening reversed where that is said, or a split where groups have a size.
    fn serial(reverse: bool, groups: Option<NonZeroU32>) -> Asked {
        let order = if reverse { Order::Reverse } else { Order::File };
        match groups {
            Some(size) => Asked::Groups(order, size),
            None => Asked::Serial(order),
        }
    }
}

/// Writes a plan with its happenings cut into groups of at most this size, over the readers of its files.
fn write_groups<A: Allocator>(
    alloc: &A,
    order: Order,
    size: NonZeroU32,
    domain: &mut impl Source,
    problem: &mut impl Source,
    plan: &mut impl Source,
    out: &mut impl Sink,
) -> Result<Outcome, RunFault> {
    let size = size.get();
    serial_groups(alloc, domain, problem, plan, order, size, out)
}

/// Does what is asked of a plan over the readers of its files.
fn carry_out<A: Allocator>(
    alloc: &A,
    asked: Asked,
    domain: &mut impl Source,
    problem: &mut impl Source,
    plan: &mut impl Source,
    out: &mut impl Sink,
) -> Result<Outcome, RunFault> {
    match asked {
        Asked::Verdict => check(alloc, domain, problem, plan, out),
        Asked::Serial(order) => serial(alloc, domain, problem, plan, order, out),
        Asked::Groups(order, size) => write_groups(alloc, order, size, domain, problem, plan, out),
    }
}

/// Does what is asked of the plan of a reader, where its file opened, with a domain and a problem.
fn run_with_problem<A: Allocator, S: Source + Drop, E: From<RunFault> + Drop>(
    alloc: &A,
    asked: Asked,
    domain: &mut impl Source,
    problem: &mut impl Source,
    plan: Result<S, E>,
    out: &mut impl Sink,
) -> Result<Outcome, E> {
    let mut plan = plan?;
    Ok(carry_out(alloc, asked, domain, problem, &mut plan, out)?)
}

/// Does what is asked of a plan with a domain and the problem of a reader, where its file opened.
fn run_behind_domain<'p, R: Files + Input + AllocGlobal, S: Source + Drop>(
    rt: &R,
    asked: Asked,
    domain: &mut impl Source,
    problem: Result<S, NotDone<'p>>,
    plan: &'p str,
    out: &mut impl Sink,
) -> Result<Outcome, NotDone<'p>> {
    let mut problem = problem?;
    run_with_problem(
        &rt.alloc(),
        asked,
        domain,
        &mut problem,
        opened(rt, plan),
        out,
    )
}

/// Does what is asked of a plan with its problem and the domain of a reader, where its file opened. All three files are opened
/// before any is read.
fn run_plan<'p, R: Files + Input + AllocGlobal, S: Source + Drop>(
    rt: &R,
    asked: Asked,
    domain: Result<S, NotDone<'p>>,
    problem: &'p str,
    plan: &'p str,
    out: &mut impl Sink,
) -> Result<Outcome, NotDone<'p>> {
    let mut domain = domain?;
    run_behind_domain(rt, asked, &mut domain, opened(rt, problem), plan, out)
}

/// Prints the file of a reader, where it opened, in its canonical layout.
fn run_format<A: Allocator, S: Source + Drop, E: From<RunFault> + Drop>(
    alloc: &A,
    kind: Kind,
    file: Result<S, E>,
    out: &mut impl Sink,
) -> Result<Outcome, E> {
    let mut file = file?;
    Ok(format(alloc, kind, &mut file, out)?)
}

/// The path of the first file of a job.
fn first_path<'p>(job: Job<'p>) -> &'p str {
    match job {
        Job::Domain { path } | Job::Format { path, .. } => path,
        Job::Problem { domain, .. } | Job::Plan { domain, .. } | Job::Serial { domain, .. } => {
            domain
        }
    }
}

/// Carries a job out over the reader of its first file, where that opened, its other files, and a writer.
fn run_job<'p, R: Files + Input + AllocGlobal, S: Source + Drop>(
    rt: &R,
    job: Job<'p>,
    first: Result<S, NotDone<'p>>,
    out: &mut impl Sink,
) -> Result<Outcome, NotDone<'p>> {
    match job {
        Job::Domain { .. } => run_domain(&rt.alloc(), first, out),
        Job::Problem { problem, .. } => run_problem(rt, first, problem, out),
        Job::Plan { problem, plan, .. } => {
            run_plan(rt, Asked::Verdict, first, problem, plan, out)
        }
        Job::Serial {
            problem,
            plan,
            reverse,
            groups,
            ..
        } => {
            let asked = Asked::serial(reverse, groups);
            run_plan(rt, asked, first, problem, plan, out)
        }
        Job::Format { kind, .. } => run_format(&rt.alloc(), kind, first, out),
    }
}

/// Carries a job out over its files and standard output.
fn write_job<'p, R: Files + Input + Print + AllocGlobal>(
    rt: &R,
    job: Job<'p>,
) -> Result<Outcome, NotDone<'p>> {
    let first = opened(rt, first_path(job));
    run_job(rt, job, first, &mut ToWrite::new(io::writer(rt)))
}

/// Carries a job out over standard output, says on standard error why it was not, and answers the exit status.
fn end_job<R: Files + Input + Print + Eprint + AllocGlobal>(rt: &R, job: Job<'_>) -> u8 {
    match write_job(rt, job) {
        Ok(outcome) => status(&Ok(outcome)),
        Err(NotDone::CannotOpen(path)) => cannot_open(rt, path),
        Err(NotDone::Failed(fault)) => give_up(rt, fault),
    }
}

/// Prints why the words ask for no command, or the help that they ask for, and answers the exit status. It is 0 for
/// help alone.
fn explain<R: Print + Eprint>(rt: &R, error: &clap::Error) -> u8
    ensures { result ≡ 0 → kind_of error.now ≡ DisplayHelp }
{
    let status = words_status(error);
    if status == NOT_DONE {
        return give_up(rt, RunFault::Memory);
    }
    match error.print(rt) {
        Ok(()) => status,
        Err(_) => give_up(rt, RunFault::WriteFailed),
    }
}

/// Carries out what the words ask for, and answers the exit status.
fn run_words<R: Files + Input + Print + Eprint + AllocGlobal>(rt: &R, words: &[String]) -> u8 {
    match parse_words(rt.alloc(), words) {
        Ok(job) => end_job(rt, job),
        Err(error) => explain(rt, &error),
    }
}

/// The words of the command line; where they can't be had, says why on standard error, and answers the exit status.
fn words<R: Env + Eprint + AllocGlobal>(rt: &R) -> Result<Vec<String>, u8> {
    match env::args(rt) {
        Ok(words) => words
            .collect(rt.alloc())
            .map_err(|_| give_up(rt, RunFault::Memory)),
        Err(error) if error.kind() == ErrorKind::OutOfMemory => Err(give_up(rt, RunFault::Memory)),
        Err(_) => {
            let _ = rt.eprintln("pddlcheck: a word of the command line is no UTF-8 text");
            Err(WRONG_WORDS)
        }
    }
}

/// Reads the words, carries out what they ask for, and answers the exit status.
fn run<R: Env + Files + Input + Print + Eprint + AllocGlobal>(rt: &R) -> u8 {
    match words(rt) {
        Ok(words) => run_words(rt, words.as_slice()),
        Err(status) => status,
    }
}

fn main(rt: HostRuntime) -> ExitCode {
    ExitCode::from(run(&rt))
}
