//! What rows of plans run.

use pddl_fakes::FakeSink;
use pddl_file_lines::{Outcome, RunFault};
use pddl_plan_commands::{check, serial, serial_groups};
use pddl_plan_listing::{Asked, Listed, Made, OfPlan, Stored, list};
use pddl_row_driver::{Files, Memory, Sources};
use pddl_serial_plans::Order;
use std::alloc::Global;

/// What a row runs.
#[derive(Clone, Copy)]
pub enum Command {
    Plan,
    Serial(Order),
    /// The plan is cut into groups of so many steps.
    Groups(Order, u32),
    List(Listed),
}

/// The words of each listing over a store.
static STORED: [(&str, Stored); 9] = [
    ("list verdicts", Stored::Verdict),
    ("list end", Stored::End),
    ("list serial", Stored::Made(Made::Serial(Order::File))),
    (
        "list serial reverse",
        Stored::Made(Made::Serial(Order::Reverse)),
    ),
    ("list splits", Stored::Made(Made::Splits)),
    ("list truth", Stored::Asked(Asked::Truth)),
    ("list reads", Stored::Asked(Asked::Reads)),
    ("list fired", Stored::Asked(Asked::Fired)),
    ("list costs", Stored::Asked(Asked::Costs)),
];

/// The listing over a store that these words ask for.
fn stored_named(words: &str) -> Option<OfPlan> {
    for (name, stored) in STORED.iter() {
        if *name == words {
            return Some(OfPlan::Stored(*stored));
        }
    }
    None
}

/// The listing of a plan that these words ask for.
fn listed_named(words: &str) -> Option<OfPlan> {
    match words {
        "list steps" => Some(OfPlan::Steps),
        "list happenings" => Some(OfPlan::Happenings),
        "list replays" => Some(OfPlan::Replays),
        _ => stored_named(words),
    }
}

/// The command that cuts a plan into groups: `groups N`, and `reverse` behind it or not.
fn groups_named(words: &str) -> Option<Command> {
    let rest = words.strip_prefix("groups ")?;
    let (order, size) = match rest.strip_suffix(" reverse") {
        Some(size) => (Order::Reverse, size),
        None => (Order::File, rest),
    };
    Some(Command::Groups(order, size.parse::<u32>().ok()?))
}

/// The listing of a task that these words ask for.
fn list_named(words: &str) -> Option<Command> {
    match words {
        "list atoms" => Some(Command::List(Listed::Atoms)),
        _ => Some(Command::List(Listed::Plan(listed_named(words)?))),
    }
}

impl pddl_row_driver::Command for Command {
    fn named(words: &str) -> Option<Command> {
        match words {
            "plan" => Some(Command::Plan),
            "serial" => Some(Command::Serial(Order::File)),
            "serial reverse" => Some(Command::Serial(Order::Reverse)),
            _ => groups_named(words).or(list_named(words)),
        }
    }

    fn readers(self) -> u64 {
        match self {
            Command::Plan => 3,
            Command::Serial(_) => 3,
            Command::Groups(_, _) => 3,
            Command::List(_) => 0,
        }
    }

    fn plan_file(self) -> u64 {
        self.readers()
    }

    fn twin(self) -> Option<&'static str> {
        match self {
            Command::Plan => Some("list verdicts"),
            _ => None,
        }
    }

    fn run(
        self,
        alloc: Global,
        memory: &Memory,
        files: Files<'_>,
        sources: &mut Sources<'_>,
        out: &mut FakeSink<Global>,
    ) -> Result<Outcome, RunFault> {
        match self {
            Command::Plan => check(
                memory,
                &mut sources.first,
                &mut sources.second,
                &mut sources.third,
                out,
            ),
            Command::Serial(order) => serial(
                memory,
                &mut sources.first,
                &mut sources.second,
                &mut sources.third,
                order,
                out,
            ),
            Command::Groups(order, size) => serial_groups(
                memory,
                &mut sources.first,
                &mut sources.second,
                &mut sources.third,
                order,
                size.max(1),
                out,
            ),
            Command::List(listed) => list(alloc, memory, listed, files, out),
        }
    }
}
