//! The words of a command line.

ghost use Rattle.std.specs.Prelude.{◌≡◌, ◌≢◌, ◌↔◌};
ghost use Rattle.clap.specs.Values.{kind_of};

use crate::help;
use clap::error::ErrorKind;
use clap::{Arg, ArgAction, ArgMatches, Command, Error, value_parser};
use pddl_kind::Kind;
use std::alloc::{AllocError, Global};
use std::convert::AsStr;
use std::num::NonZeroU32;

/// What the words ask for.
#[derive(Clone, Copy)]
pub enum Job<'a> {
    /// To check the domain at `path`.
    Domain {
        path: &'a str,
    },
    /// To check the problem at `problem` with the domain at `domain`.
    Problem {
        domain: &'a str,
        problem: &'a str,
    },
    /// To validate the plan at `plan` with the domain at `domain` and the problem at `problem`.
    Plan {
        domain: &'a str,
        problem: &'a str,
        plan: &'a str,
    },
    /// To print the serial plan of the plan at `plan`, with the domain at `domain` and the problem at `problem`, the steps of each
    /// happening reversed where `reverse` says so; or, where `groups` has a number, the timed plan of groups of so many steps.
    Serial {
        domain: &'a str,
        problem: &'a str,
        plan: &'a str,
        reverse: bool,
        groups: Option<NonZeroU32>,
    },
    /// To print the file at `path`, which holds what `kind` says, in its canonical layout.
    Format {
        kind: Kind,
        path: &'a str,
    },
}

/// How many steps a group can have: as many as a plan.
const MOST_IN_A_GROUP: i64 = 1_000_000;

/// The words for what a file holds.
static KINDS: [&str; 3] = ["domain", "problem", "plan"];

/// What the word says that a file holds.
fn kind_named(word: &str) -> Option<Kind> {
    match word {
        "domain" => Some(Kind::Domain),
        "problem" => Some(Kind::Problem),
        "plan" => Some(Kind::Plan),
        _ => None,
    }
}

/// A word that a command takes.
enum Word {
    /// A word that is wanted, by its name and its line of help.
    Wanted(&'static str, &'static str),
    /// The word that says what a file holds.
    Kind,
    /// The option `--reverse`.
    Reverse,
    /// The option `--groups N`.
    Groups,
}

/// A command, by its name, what it does in a line, what its help says at its end, and its words.
struct Told {
    name: &'static str,
    about: &'static str,
    after: &'static str,
    words: &'static [Word],
}

/// The commands.
static COMMANDS: [Told; 5] = [
    Told {
        name: "domain",
        about: help::ABOUT_DOMAIN,
        after: help::AFTER_DOMAIN,
        words: &[Word::Wanted("FILE", help::FILE)],
    },
    Told {
        name: "problem",
        about: help::ABOUT_PROBLEM,
        after: help::AFTER_PROBLEM,
        words: &[
            Word::Wanted("DOMAIN", help::DOMAIN),
            Word::Wanted("PROBLEM", help::PROBLEM),
        ],
    },
    Told {
        name: "plan",
        about: help::ABOUT_PLAN,
        after: help::AFTER_PLAN,
        words: &[
            Word::Wanted("DOMAIN", help::DOMAIN),
            Word::Wanted("PROBLEM", help::PROBLEM),
            Word::Wanted("PLAN", help::PLAN),
        ],
    },
    Told {
        name: "serial",
        about: help::ABOUT_SERIAL,
        after: help::AFTER_SERIAL,
        words: &[
            Word::Reverse,
            Word::Groups,
            Word::Wanted("DOMAIN", help::DOMAIN),
            Word::Wanted("PROBLEM", help::PROBLEM),
            Word::Wanted("PLAN", help::PLAN),
        ],
    },
    Told {
        name: "format",
        about: help::ABOUT_FORMAT,
        after: help::AFTER_FORMAT,
        words: &[Word::Kind, Word::Wanted("FILE", help::FILE)],
    },
];

/// The word that says what a file holds.
fn kind_argument<'a>(alloc: Global) -> Arg<'a> {
    Arg::new(alloc, "KIND")
        .required(true)
        .value_parser(KINDS.as_slice())
        .help(help::KIND)
}

/// The option `--reverse`.
fn reverse_option<'a>(alloc: Global) -> Arg<'a> {
    Arg::new(alloc, "reverse")
        .long("reverse")
        .action(ArgAction::SetTrue)
        .help(help::REVERSE)
}

/// The option `--groups N`.
fn groups_option<'a>(alloc: Global) -> Arg<'a> {
    Arg::new(alloc, "groups")
        .long("groups")
        .value_name("N")
        .value_parser(value_parser!(u32).range(1..=MOST_IN_A_GROUP))
        .help(help::GROUPS)
}

/// What `clap` is told, made of what is told here.
trait MadeOf<W>: Drop {
    /// Makes it.
    fn made_of(alloc: Global, told: &W) -> Result<Self, AllocError>;
}

/// What `clap` is told, made of each of these. It knows nothing of what that is: a loop over types as large as those of `clap` is
/// dear to check.
fn all_made<W, T: MadeOf<W>>(alloc: Global, told: &[W]) -> Result<Vec<T>, AllocError> {
    let mut made = Vec::new(alloc);
    for one in told {
        made.push(T::made_of(alloc, one)?)?;
    }
    Ok(made)
}

impl<'a> MadeOf<Word> for Arg<'a> {
    fn made_of(alloc: Global, word: &Word) -> Result<Arg<'a>, AllocError> {
        Ok(match *word {
            Word::Wanted(name, about) => Arg::new(alloc, name).required(true).help(about),
            Word::Kind => kind_argument(alloc),
            Word::Reverse => reverse_option(alloc),
            Word::Groups => groups_option(alloc),
        })
    }
}

impl<'a> MadeOf<Told> for Command<'a> {
    fn made_of(alloc: Global, told: &Told) -> Result<Command<'a>, AllocError> {
        let arguments = all_made(alloc, told.words)?;
        Command::new(alloc, told.name)
            .about(told.about)
            .after_help(told.after)
            .args(arguments)
    }
}

/// The program with these commands, without its name.
fn unnamed_program<'a>(
    alloc: Global,
    commands: Vec<Command<'a>>,
) -> Result<Command<'a>, AllocError> {
    Command::new(alloc, "pddlcheck")
        .about(help::ABOUT)
        .after_help(help::AFTER)
        .subcommand_required(true)
        .subcommands(commands)
}

/// What `clap` is told of the program.
fn program<'a>(alloc: Global) -> Result<Command<'a>, AllocError> {
    let commands = all_made(alloc, COMMANDS.as_slice())?;
    unnamed_program(alloc, commands)?.bin_name("pddlcheck")
}

/// The job of the words after `domain`, where they are its own.
fn domain_job<'a>(matches: &ArgMatches<'a>) -> Option<Job<'a>> {
    let path = matches.get_str("FILE")?;
    Some(Job::Domain { path })
}

/// The job of the words after `problem`, where they are its own.
fn problem_job<'a>(matches: &ArgMatches<'a>) -> Option<Job<'a>> {
    let domain = matches.get_str("DOMAIN");
    let (domain, problem) = domain.zip(matches.get_str("PROBLEM"))?;
    Some(Job::Problem { domain, problem })
}

/// The words `DOMAIN PROBLEM PLAN` of a command.
fn three_files<'a>(matches: &ArgMatches<'a>) -> Option<((&'a str, &'a str), &'a str)> {
    let domain = matches.get_str("DOMAIN");
    let problem = matches.get_str("PROBLEM");
    domain.zip(problem).zip(matches.get_str("PLAN"))
}

/// The job of the words after `plan`, where they are its own.
fn plan_job<'a>(matches: &ArgMatches<'a>) -> Option<Job<'a>> {
    let ((domain, problem), plan) = three_files(matches)?;
    Some(Job::Plan {
        domain,
        problem,
        plan,
    })
}

/// The job of the words after `serial`, where they are its own.
fn serial_job<'a>(matches: &ArgMatches<'a>) -> Option<Job<'a>> {
    let ((domain, problem), plan) = three_files(matches)?;
    Some(Job::Serial {
        domain,
        problem,
        plan,
        reverse: matches.get_flag("reverse"),
        groups: matches.get_one("groups"),
    })
}

/// The job of the words after `format`, where they are its own.
fn format_job<'a>(matches: &ArgMatches<'a>) -> Option<Job<'a>> {
    let kind = matches.get_str("KIND").and_then(kind_named);
    let (kind, path) = kind.zip(matches.get_str("FILE"))?;
    Some(Job::Format { kind, path })
}

/// The job of the words after a command's name, where they are its own.
fn job_named<'a>(name: &str, matches: &ArgMatches<'a>) -> Option<Job<'a>> {
    match name {
        "domain" => domain_job(matches),
        "problem" => problem_job(matches),
        "plan" => plan_job(matches),
        "serial" => serial_job(matches),
        "format" => format_job(matches),
        _ => None,
    }
}

/// The job that the words ask for, where they are those of a command.
fn job_of<'a>(matches: &ArgMatches<'a>) -> Option<Job<'a>> {
    let (name, inner) = matches.subcommand()?;
    job_named(name, inner)
}

/// The job that the words ask the program for.
fn asked<'a, S: AsStr>(program: &mut Command<'a>, words: &'a [S]) -> Result<Job<'a>, Error> {
    let matches = program.try_get_matches_from_mut(words)?;
    let job = job_of(&matches);
    drop(matches);
    match job {
        Some(job) => Ok(job),
        None => Err(program.error(ErrorKind::MissingSubcommand, "a command is wanted")?),
    }
}

/// Reads the words of a command line, the program's name first.
///
/// A request for help is an error of the kind `DisplayHelp`, and want of memory one of the kind `OutOfMemory`; the
/// other kinds say what is wrong with the words. What an error prints is `clap`'s own.
pub fn parse_words<'a, S: AsStr>(alloc: Global, words: &'a [S]) -> Result<Job<'a>, Error> {
    match program(alloc) {
        Ok(mut program) => asked(&mut program, words),
        Err(error) => Err(Error::from(error)),
    }
}

/// The exit status of words that ask for no command: 0 for help, 4 for want of memory, else 3. Source: own.
pub fn words_status(error: &Error) -> u8
    ensures help { (result ≡ 0) ↔ (kind_of error.now ≡ ErrorKind.DisplayHelp) }
    ensures memory { (result ≡ 4) ↔ (kind_of error.now ≡ ErrorKind.OutOfMemory) }
    ensures usage { (kind_of error.now ≢ ErrorKind.DisplayHelp)
        → (kind_of error.now ≢ ErrorKind.OutOfMemory) → result ≡ 3 }
{
    match error.kind() {
        ErrorKind::DisplayHelp => 0,
        ErrorKind::OutOfMemory => 4,
        _ => 3,
    }
}
