//! The texts of the program's help.

/// What the program is.
pub const ABOUT: &str =
    "Reads PDDL files, prints them in one layout, says what is wrong with them, validates plans, and prints \
their serial forms";

/// What `domain` does.
pub const ABOUT_DOMAIN: &str = "Checks a domain";

/// What `problem` does.
pub const ABOUT_PROBLEM: &str = "Checks a problem with its domain";

/// What `plan` does.
pub const ABOUT_PLAN: &str = "Validates a plan with its domain and its problem";

/// What `serial` does.
pub const ABOUT_SERIAL: &str =
    "Prints a serial form of a valid plan: one step after another, or in small groups";

/// What `format` does.
pub const ABOUT_FORMAT: &str = "Prints a file in its canonical layout";

/// What `KIND` stands for.
pub const KIND: &str = "What the file holds: a planning domain or problem of PDDL 3.1, or a plan, \
as planners write it and VAL reads it";

/// What `FILE` stands for.
pub const FILE: &str = "The file; /dev/stdin is standard input";

/// What `DOMAIN` stands for.
pub const DOMAIN: &str = "The file of the domain; /dev/stdin is standard input";

/// What `PROBLEM` stands for.
pub const PROBLEM: &str = "The file of the problem; /dev/stdin is standard input";

/// What `PLAN` stands for.
pub const PLAN: &str = "The file of the plan; /dev/stdin is standard input";

/// What `--reverse` asks for.
pub const REVERSE: &str =
    "Takes the steps of each happening from the last of the file to the first";

/// What `--groups` asks for.
pub const GROUPS: &str =
    "Cuts each happening into groups of N steps, from 1 to 1000000, and prints a timed plan of them";

/// What stands after the help of the program.
pub const AFTER: &str = "\
Exit status:
  0  the files are good and a plan is valid, or a file or a plan was printed, or help was asked for
  1  the plan is invalid
  2  a file is refused; the line on standard output says why and where
  3  the words of the command line are wrong
  4  reading, writing or memory failed, or a file does not open

Examples:
  pddlcheck domain domain.pddl
  pddlcheck problem domain.pddl problem.pddl
  pddlcheck plan domain.pddl problem.pddl my.plan
  pddlcheck serial domain.pddl problem.pddl my.plan
  pddlcheck format domain domain.pddl";

/// What stands after the help of `domain`.
pub const AFTER_DOMAIN: &str = "\
A good domain gives the line `good: domain NAME`. Any other file gives one line with its fault: that of its text, as
`domain: fault 3 Glued at 1:1`, or of what its parts say together the fault with the lowest number, as
`link: fault 26 UnknownName on`.

Exit status:
  0  the domain is good
  2  the file is refused
  3  the words of the command line are wrong
  4  reading, writing or memory failed, or the file does not open

Example:
  pddlcheck domain domain.pddl";

/// What stands after the help of `problem`.
pub const AFTER_PROBLEM: &str = "\
A good problem of a good domain gives the line `good: problem NAME`. Other files give one line with their fault: that
of the domain's text, or else of the problem's, as `problem: fault 14 Missing :goal`, or else of what both say together
the fault with the lowest number, as `link: fault 20 DomainName lamps`. A problem is not read where the domain's text
has a fault.

Exit status:
  0  the problem is good, and so is its domain
  2  a file is refused
  3  the words of the command line are wrong
  4  reading, writing or memory failed, or a file does not open

Example:
  pddlcheck problem domain.pddl problem.pddl";

/// What stands after the help of `plan`.
pub const AFTER_PLAN: &str = "\
The steps at one moment of a timed plan are executed at once, and those of a plain plan one after another. A plan is
valid where in every happening, as the steps at one moment are called, each precondition is true and no two steps
interfere, and the goal is true at the end. Every order of the steps of each happening then leads to the same end at
the same cost.

A valid plan gives the line `valid: S steps in H happenings, total-cost C`. An invalid one gives a line with its first
failure, where happenings and steps, these in the order of the file, are counted from 1:
  invalid: happening 2, step 3: precondition is false
  invalid: happening 2, steps 3 and 4 interfere on (on a)
  invalid: goal is false
Other files give one line with their fault: that of the first text that has one, or of what domain and problem say
together, or of the plan's first faulty step, as `plan: fault 42 UnknownObject at step 1`. A file is not read where the
text of one before it has a fault.

Exit status:
  0  the plan is valid
  1  the plan is invalid
  2  a file is refused
  3  the words of the command line are wrong
  4  reading, writing or memory failed, or a file does not open

Example:
  pddlcheck plan domain.pddl problem.pddl my.plan";

/// What stands after the help of `serial`.
pub const AFTER_SERIAL: &str = "\
A valid plan, as `plan` says it, gives a plan without moments: the happenings in turn, the steps of each in the order of
the file, or with --reverse from the last to the first. With --groups N each happening, in that order, is cut into
groups of N steps, the last perhaps smaller, and the plan has the first group at moment 1, the next at moment 2, and so
on. What is printed is valid too, and leads to the same end at the same cost. The plan without steps gives the empty
text.

N is a whole number from 1 to 1000000, in digits; zeros or a + may stand before it. Each option may stand once, before
the files, between them or after them.

An invalid plan, and a file that is refused, give the line that `plan` gives for them, and its status.

Exit status:
  0  the plan was printed
  1  the plan is invalid
  2  a file is refused
  3  the words of the command line are wrong
  4  reading, writing or memory failed, or a file does not open

Examples:
  pddlcheck serial domain.pddl problem.pddl my.plan
  pddlcheck serial domain.pddl problem.pddl my.plan --reverse
  pddlcheck serial --groups 2 domain.pddl problem.pddl my.plan";

/// What stands after the help of `format`.
pub const AFTER_FORMAT: &str = "\
A file is printed in lower case, with one space between two words and without comments.
A domain or a problem gets one line for each section and four for each action; each item of a typed list gets its
own type. A plan gets one step a line, in the order of the file, with the moment of a step before it, as in
`0.5: (light a)`.
A file that is refused gives one line in place of that, which names the fault, as `plan: fault 3 Glued at 1:1` or
`problem: fault 14 Missing :goal`.

Exit status:
  0  the file was printed
  2  the file is refused
  3  the words of the command line are wrong
  4  reading, writing or memory failed, or the file does not open

Examples:
  pddlcheck format domain domain.pddl
  pddlcheck format problem problem.pddl
  pddlcheck format plan my.plan";
