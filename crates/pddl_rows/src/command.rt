//! What rows run.

use crate::layouts::{Layout, write_file, write_read};
use crate::listing::{Value, list};
use pddl_commands::{check_domain_file, check_problem_file, format};
use pddl_fakes::FakeSink;
use pddl_file_lines::{Outcome, RunFault};
use pddl_kind::Kind;
use pddl_row_driver::{Files, Memory, Sources};
use std::alloc::Global;

/// What is listed of files, in lines: what calls below the commands answer.
#[derive(Clone, Copy)]
pub enum Listing {
    /// The words of a text.
    Words,
    /// Its outermost items, and what is directly in them.
    Items,
    /// The same by its words.
    Lists,
    /// What is said of the fault in it.
    Fault,
    /// What each line is.
    Values(Value),
    /// The positions of the places that the lines of the second file tell.
    Places,
    /// The parts of a domain, of a problem, and of a plan.
    Parts(Kind),
    /// What is listed of the task of two files.
    Task(Listed),
}

/// What is listed of a task.
#[derive(Clone, Copy)]
pub enum Listed {
    /// The numbers of its objects and predicates.
    Numbers,
    /// The ground size of the goal.
    Size,
    /// What it answers to each line of the third file.
    Answers(Asked),
}

/// What a line asks of a task.
#[derive(Clone, Copy)]
pub enum Asked {
    /// The number of the object and of the predicate of a name.
    Names,
    /// Whether the first of two types is a subtype of the second.
    Subtypes,
    /// The objects that fit a type.
    Fitting,
    /// The cost of a function of objects.
    Costs,
}

/// What a row runs.
#[derive(Clone, Copy)]
pub enum Command {
    Format(Kind),
    Domain,
    Problem,
    /// Reads the first file up to the limit that the second says, and writes it.
    Read,
    /// Reads a file and writes its canonical text.
    Write(Layout, Kind),
    List(Listing),
}

/// The words of each command.
static COMMANDS: [(&str, Command); 29] = [
    ("format domain", Command::Format(Kind::Domain)),
    ("format problem", Command::Format(Kind::Problem)),
    ("format plan", Command::Format(Kind::Plan)),
    ("read", Command::Read),
    ("domain", Command::Domain),
    ("problem", Command::Problem),
    ("text domain", Command::Write(Layout::Text, Kind::Domain)),
    ("text problem", Command::Write(Layout::Text, Kind::Problem)),
    ("text plan", Command::Write(Layout::Text, Kind::Plan)),
    (
        "pieces domain",
        Command::Write(Layout::Pieces, Kind::Domain),
    ),
    (
        "pieces problem",
        Command::Write(Layout::Pieces, Kind::Problem),
    ),
    ("pieces plan", Command::Write(Layout::Pieces, Kind::Plan)),
    ("list words", Command::List(Listing::Words)),
    ("list items", Command::List(Listing::Items)),
    ("list lists", Command::List(Listing::Lists)),
    ("list fault", Command::List(Listing::Fault)),
    (
        "list numbers",
        Command::List(Listing::Values(Value::Number)),
    ),
    (
        "list billionths",
        Command::List(Listing::Values(Value::Billionths)),
    ),
    ("list places", Command::List(Listing::Places)),
    ("list names", Command::List(Listing::Values(Value::Name))),
    ("list domain", Command::List(Listing::Parts(Kind::Domain))),
    ("list problem", Command::List(Listing::Parts(Kind::Problem))),
    ("list plan", Command::List(Listing::Parts(Kind::Plan))),
    ("list task", Command::List(Listing::Task(Listed::Numbers))),
    (
        "list task names",
        Command::List(Listing::Task(Listed::Answers(Asked::Names))),
    ),
    (
        "list subtypes",
        Command::List(Listing::Task(Listed::Answers(Asked::Subtypes))),
    ),
    (
        "list fitting",
        Command::List(Listing::Task(Listed::Answers(Asked::Fitting))),
    ),
    (
        "list costs",
        Command::List(Listing::Task(Listed::Answers(Asked::Costs))),
    ),
    ("list size", Command::List(Listing::Task(Listed::Size))),
];

impl pddl_row_driver::Command for Command {
    fn named(words: &str) -> Option<Command> {
        for (name, command) in COMMANDS.iter() {
            if *name == words {
                return Some(*command);
            }
        }
        None
    }

    fn readers(self) -> u64 {
        match self {
            Command::Format(_) => 1,
            Command::Domain => 1,
            Command::Problem => 2,
            Command::Read => 1,
            Command::Write(_, _) => 0,
            Command::List(_) => 0,
        }
    }

    fn plan_file(self) -> u64 {
        match self {
            Command::Format(Kind::Plan) => 1,
            _ => 0,
        }
    }

    fn twin(self) -> Option<&'static str> {
        None
    }

    fn run(
        self,
        alloc: Global,
        memory: &Memory,
        files: Files<'_>,
        sources: &mut Sources<'_>,
        out: &mut FakeSink<Global>,
    ) -> Result<Outcome, RunFault> {
        match self {
            Command::Format(kind) => format(memory, kind, &mut sources.first, out),
            Command::Domain => check_domain_file(memory, &mut sources.first, out),
            Command::Problem => {
                check_problem_file(memory, &mut sources.first, &mut sources.second, out)
            }
            Command::Read => write_read(memory, &mut sources.first, files.second, out),
            Command::Write(layout, kind) => write_file(memory, layout, kind, files.first, out),
            Command::List(listing) => list(alloc, memory, listing, files, out),
        }
    }
}
