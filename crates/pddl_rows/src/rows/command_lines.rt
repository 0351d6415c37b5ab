//! Command lines, and what they ask for. Between their words stand strokes.

/// Words, the program's name first, and what they ask for: a job, or nothing, with the exit status of that.
pub static COMMAND_LINES: &[u8] = b"\
pddlcheck|domain|my.pddl => domain my.pddl
pddlcheck|domain|domain => domain domain
pddlcheck|problem|my.pddl|other.pddl => problem my.pddl, other.pddl
pddlcheck|problem|/dev/stdin|/dev/stdin => problem /dev/stdin, /dev/stdin
pddlcheck|plan|my.pddl|other.pddl|my.plan => plan my.pddl, other.pddl, my.plan
pddlcheck|plan|plan|plan|plan => plan plan, plan, plan
pddlcheck|plan|my.pddl|other.pddl|/dev/stdin => plan my.pddl, other.pddl, /dev/stdin
pddlcheck|serial|my.pddl|other.pddl|my.plan => serial my.pddl, other.pddl, my.plan
pddlcheck|serial|serial|serial|serial => serial serial, serial, serial
pddlcheck|serial|my.pddl|other.pddl|/dev/stdin => serial my.pddl, other.pddl, /dev/stdin
pddlcheck|serial|my.pddl|other.pddl|my.plan|--reverse => serial my.pddl, other.pddl, my.plan reversed
pddlcheck|serial|--reverse|my.pddl|other.pddl|my.plan => serial my.pddl, other.pddl, my.plan reversed
pddlcheck|serial|my.pddl|--reverse|other.pddl|my.plan => serial my.pddl, other.pddl, my.plan reversed
pddlcheck|serial|my.pddl|other.pddl|my.plan|--groups|1 => serial my.pddl, other.pddl, my.plan in groups of 1
pddlcheck|serial|--groups|2|my.pddl|other.pddl|my.plan => serial my.pddl, other.pddl, my.plan in groups of 2
pddlcheck|serial|my.pddl|other.pddl|--groups=2|my.plan => serial my.pddl, other.pddl, my.plan in groups of 2
pddlcheck|serial|my.pddl|other.pddl|my.plan|--groups|1000000 => serial my.pddl, other.pddl, my.plan in groups of 1000000
pddlcheck|serial|my.pddl|other.pddl|my.plan|--groups|007 => serial my.pddl, other.pddl, my.plan in groups of 7
pddlcheck|serial|my.pddl|other.pddl|my.plan|--groups|+1 => serial my.pddl, other.pddl, my.plan in groups of 1
pddlcheck|serial|my.pddl|other.pddl|my.plan|--groups|3|--reverse => serial my.pddl, other.pddl, my.plan reversed in groups of 3
pddlcheck|serial|--reverse|my.pddl|other.pddl|my.plan|--groups=3 => serial my.pddl, other.pddl, my.plan reversed in groups of 3
pddlcheck|serial|--reverse|--|my.pddl|other.pddl|--groups => serial my.pddl, other.pddl, --groups reversed
pddlcheck|format|domain|my.pddl => format Domain my.pddl
pddlcheck|format|problem|my.pddl => format Problem my.pddl
pddlcheck|format|plan|my.plan => format Plan my.plan
pddlcheck|format|plan|/dev/stdin => format Plan /dev/stdin
other name|format|plan|plan => format Plan plan
pddlcheck|domain|--help => status 0
pddlcheck|help|domain => status 0
pddlcheck|problem|-h => status 0
pddlcheck|help|problem => status 0
pddlcheck|plan|--help => status 0
pddlcheck|help|plan => status 0
pddlcheck|serial|--help => status 0
pddlcheck|help|serial => status 0
pddlcheck|--help => status 0
pddlcheck|-h => status 0
pddlcheck|help => status 0
pddlcheck|help|format => status 0
pddlcheck|format|--help => status 0
pddlcheck|format|-h => status 0
pddlcheck|domain => status 3
pddlcheck|domain|my.pddl|other.pddl => status 3
pddlcheck|problem => status 3
pddlcheck|problem|my.pddl => status 3
pddlcheck|problem|my.pddl|other.pddl|my.plan => status 3
pddlcheck|plan => status 3
pddlcheck|plan|my.pddl|other.pddl => status 3
pddlcheck|plan|my.pddl|other.pddl|my.plan|other.plan => status 3
pddlcheck|plan|my.pddl|--unknown|other.pddl|my.plan => status 3
pddlcheck|Plan|my.pddl|other.pddl|my.plan => status 3
pddlcheck|serial => status 3
pddlcheck|serial|my.pddl|other.pddl => status 3
pddlcheck|serial|my.pddl|other.pddl|my.plan|other.plan => status 3
pddlcheck|serial|my.pddl|other.pddl|my.plan|--groups|0 => status 3
pddlcheck|serial|my.pddl|other.pddl|my.plan|--groups=0 => status 3
pddlcheck|serial|my.pddl|other.pddl|my.plan|--groups|1000001 => status 3
pddlcheck|serial|my.pddl|other.pddl|my.plan|--groups|4294967297 => status 3
pddlcheck|serial|my.pddl|other.pddl|my.plan|--groups|18446744073709551617 => status 3
pddlcheck|serial|my.pddl|other.pddl|my.plan|--groups|-1 => status 3
pddlcheck|serial|my.pddl|other.pddl|my.plan|--groups=-1 => status 3
pddlcheck|serial|my.pddl|other.pddl|my.plan|--groups=-0 => status 3
pddlcheck|serial|my.pddl|other.pddl|my.plan|--groups|1.5 => status 3
pddlcheck|serial|my.pddl|other.pddl|my.plan|--groups|1_000 => status 3
pddlcheck|serial|my.pddl|other.pddl|my.plan|--groups| 1 => status 3
pddlcheck|serial|my.pddl|other.pddl|my.plan|--groups|0x1 => status 3
pddlcheck|serial|my.pddl|other.pddl|my.plan|--groups|+ => status 3
pddlcheck|serial|my.pddl|other.pddl|my.plan|--groups|two => status 3
pddlcheck|serial|my.pddl|other.pddl|my.plan|--groups => status 3
pddlcheck|serial|my.pddl|other.pddl|my.plan|--groups= => status 3
pddlcheck|serial|my.pddl|other.pddl|my.plan|--groups|--reverse => status 3
pddlcheck|serial|my.pddl|other.pddl|my.plan|--groups|1|2 => status 3
pddlcheck|serial|my.pddl|other.pddl|my.plan|--groups|1|--groups|1 => status 3
pddlcheck|serial|my.pddl|other.pddl|my.plan|--reverse|--reverse => status 3
pddlcheck|serial|my.pddl|other.pddl|my.plan|--reverse=true => status 3
pddlcheck|serial|my.pddl|other.pddl|my.plan|--rev => status 3
pddlcheck|serial|my.pddl|other.pddl|my.plan|-r => status 3
pddlcheck|serial|my.pddl|other.pddl|my.plan|--unknown => status 3
pddlcheck|serial|my.pddl|other.pddl|my.plan|--|--reverse => status 3
pddlcheck|Serial|my.pddl|other.pddl|my.plan => status 3
pddlcheck|plan|my.pddl|other.pddl|my.plan|--reverse => status 3
pddlcheck|plan|my.pddl|other.pddl|my.plan|--groups|1 => status 3
pddlcheck|--reverse|serial|my.pddl|other.pddl|my.plan => status 3
pddlcheck|Domain|my.pddl => status 3
 => status 3
pddlcheck => status 3
pddlcheck|reformat => status 3
pddlcheck|--unknown => status 3
pddlcheck|format => status 3
pddlcheck|format|plan => status 3
pddlcheck|format|domain => status 3
pddlcheck|format|task|my.pddl => status 3
pddlcheck|format|Plan|my.plan => status 3
pddlcheck|format|plan|my.plan|other.plan => status 3
pddlcheck|format|--unknown|plan|my.plan => status 3
pddlcheck|help|reformat => status 3
";

/// Words that ask for help, and a part of the help that is printed.
pub static HELP: &[u8] = b"\
pddlcheck|--help => Usage: pddlcheck <COMMAND>
pddlcheck|--help => domain
pddlcheck|--help => problem
pddlcheck|--help => plan
pddlcheck|--help => serial
pddlcheck|--help => format
pddlcheck|--help => Exit status:
pddlcheck|--help => Examples:
pddlcheck|domain|--help => Usage: pddlcheck domain <FILE>
pddlcheck|domain|--help => /dev/stdin
pddlcheck|domain|--help => good: domain NAME
pddlcheck|domain|--help => Exit status:
pddlcheck|problem|--help => Usage: pddlcheck problem <DOMAIN> <PROBLEM>
pddlcheck|problem|--help => /dev/stdin
pddlcheck|problem|--help => good: problem NAME
pddlcheck|problem|--help => Exit status:
pddlcheck|plan|--help => Usage: pddlcheck plan <DOMAIN> <PROBLEM> <PLAN>
pddlcheck|plan|--help => /dev/stdin
pddlcheck|plan|--help => valid: S steps in H happenings, total-cost C
pddlcheck|plan|--help => invalid: goal is false
pddlcheck|plan|--help => Exit status:
pddlcheck|serial|--help => Usage: pddlcheck serial [OPTIONS] <DOMAIN> <PROBLEM> <PLAN>
pddlcheck|serial|--help => /dev/stdin
pddlcheck|serial|--help => --reverse
pddlcheck|serial|--help => --groups <N>
pddlcheck|serial|--help => from 1 to 1000000
pddlcheck|serial|--help => Exit status:
pddlcheck|serial|--help => Examples:
pddlcheck|format|--help => Usage: pddlcheck format <KIND> <FILE>
pddlcheck|format|--help => domain, problem, plan
pddlcheck|format|--help => planning domain or problem
pddlcheck|format|--help => /dev/stdin
pddlcheck|format|--help => Exit status:
";
