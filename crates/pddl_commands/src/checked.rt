//! What `domain` and `problem` print for texts.

ghost use Rattle.std.specs.Prelude.{◌≡◌, IfOk};
ghost use Rattle.pddl_domain.specs.Domains.{domain_view};
ghost use Rattle.pddl_problem.specs.Problems.{problem_view};
ghost use Rattle.pddl_task.specs.Linked.{faults};
ghost use Rattle.pddl_faults.specs.Passes.{Verdict};
ghost use Rattle.pddl_file_lines.specs.Judgements.{ForProblem};
ghost use Rattle.pddl_commands.specs.Checks.{good_line, IsDomainJudged, IsProblemJudged, IsDomainChecked};

use pddl_domain::{Domain, let_go_domain};
use pddl_domain_reader::read_domain;
use pddl_faults::LinkFault;
use pddl_file_lines::{
    Formatted, Outcome, let_go_text, refused_domain, refused_link, refused_problem,
};
use pddl_link::{check_domain, link};
use pddl_linked_task::let_go_task;
use pddl_problem::{Problem, let_go_problem};
use pddl_problem_reader::read_problem;
use std::alloc::{AllocError, Allocator};

/// The line of a good domain or problem.
fn good_line<'a, B: Allocator>(
    alloc: &'a B,
    word: &[u8],
    name: &[u8],
) -> Result<Vec<u8, &'a B>, AllocError>
    ensures { IfOk result (λ line. line.items ≡ good_line word.now name.now) }
{
    let mut line = Vec::new(alloc);
    line.extend_from_slice(b"good: ")?;
    line.extend_from_slice(word)?;
    line.push(b' ')?;
    line.extend_from_slice(name)?;
    line.push(b'\n')?;
    Ok(line)
}

/// The line of a good domain or problem, and the outcome.
fn good<'a, B: Allocator>(
    alloc: &'a B,
    word: &[u8],
    name: &[u8],
) -> Result<Formatted<'a, B>, AllocError>
    ensures { IfOk result (λ answer. (answer.1 ≡ Outcome.Good) × (answer.0.items ≡ good_line word.now name.now)) }
{
    Ok((good_line(alloc, word, name)?, Outcome::Good))
}

/// What is printed for a domain, and the outcome.
fn judged_domain<'a, A: Allocator, B: Allocator>(
    alloc: &'a B,
    domain: &Domain<A>,
) -> Result<Formatted<'a, B>, AllocError>
    ensures { IfOk result (λ answer. IsDomainJudged (domain_view domain.now) answer.0.items answer.1) }
{
    match check_domain(alloc, domain) {
        Ok(()) => good(alloc, b"domain", domain.name.as_bytes()),
        Err(fault) => refused_link(alloc, &fault),
    }
}

/// Checks that a domain and a problem link; their task is not kept.
fn check_problem<'d, 'a, A: Allocator, B: Allocator>(
    alloc: &'a B,
    domain: &'d Domain<A>,
    problem: &'d Problem<A>,
) -> Result<(), LinkFault<'d>>
    ensures { Verdict (faults (domain_view domain.now) (problem_view problem.now)) result }
{
    link(alloc, domain, problem).map(let_go_task)
}

/// What is printed for a problem with its domain, and the outcome.
fn judged_problem<'a, A: Allocator, B: Allocator>(
    alloc: &'a B,
    domain: &Domain<A>,
    problem: &Problem<A>,
) -> Result<Formatted<'a, B>, AllocError>
    ensures { IfOk result (λ answer. IsProblemJudged (domain_view domain.now) (problem_view problem.now) answer.0.items answer.1) }
{
    match check_problem(alloc, domain, problem) {
        Ok(()) => good(alloc, b"problem", problem.name.as_bytes()),
        Err(fault) => refused_link(alloc, &fault),
    }
}

/// What `domain` prints for a text, and the outcome. The text is let go once it is read.
pub fn checked_domain<'a, B: Allocator>(
    alloc: &'a B,
    text: Vec<u8, &'a B>,
) -> Result<Formatted<'a, B>, AllocError>
    ensures { IfOk result (λ answer. IsDomainChecked text.entry.items answer.0.items answer.1) }
{
    match read_domain(alloc, &text) {
        Ok(domain) => {
            let_go_text(text);
            let answer = judged_domain(alloc, &domain);
            let_go_domain(domain);
            answer
        }
        Err(fault) => refused_domain(alloc, &text, &fault),
    }
}

/// What `problem` prints for the text of a problem with a domain, and the outcome. The text is let go once it is read.
pub fn checked_problem<'a, B: Allocator>(
    alloc: &'a B,
    domain: &Domain<&'a B>,
    text: Vec<u8, &'a B>,
) -> Result<Formatted<'a, B>, AllocError>
    ensures { IfOk result (λ answer. ForProblem (IsProblemJudged (domain_view domain.now)) text.entry.items answer.0.items answer.1) }
{
    match read_problem(alloc, &text) {
        Ok(problem) => {
            let_go_text(text);
            let answer = judged_problem(alloc, domain, &problem);
            let_go_problem(problem);
            answer
        }
        Err(fault) => refused_problem(alloc, &text, &fault),
    }
}
