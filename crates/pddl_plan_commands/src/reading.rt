//! What is printed for the texts of three readers.

ghost use Rattle.std.specs.Prelude.{◌≡◌, ◌≢◌, ◌⊎◌, ℕ, List, true, IfOk, OnOk, IsErrOf};
ghost use Rattle.std.specs.Io.KnownBytes.{Consumes};
ghost use Rattle.pddl_device.specs.Device.{HasFailed};
ghost use Rattle.pddl_domain.specs.Domains.{domain_view};
ghost use Rattle.pddl_problem.specs.Problems.{problem_view};
ghost use Rattle.pddl_file_lines.specs.declared.outcome.Outcome.{Outcome};
ghost use Rattle.pddl_file_lines.specs.Contents.{IsLeft, IsNoDomain, IsRead};
ghost use Rattle.pddl_file_lines.specs.Judgements.{ForProblem};
ghost use Rattle.pddl_plan_commands.specs.PlanChecks.{IsPlanJudged, ForPlan, IsPlanChecked, IsNoProblem};
ghost use Rattle.pddl_plan_commands.specs.Inner.WantedPrintings.{printing_of};

use crate::judging::judged_plan;
use crate::wanted::Wanted;
use pddl_device::Source;
use pddl_domain::{Domain, let_go_domain};
use pddl_domain_reader::read_domain;
use pddl_file_lines::{
    Content, Formatted, Outcome, PlanContent, RunFault, let_go_plan, let_go_text, or_memory,
    read_file, read_plan_file, refused_domain, refused_problem,
};
use pddl_kind::Kind;
use pddl_problem::{Problem, let_go_problem};
use pddl_problem_reader::read_problem;
use std::alloc::Allocator;

/// What is printed for a domain, a problem and a reader's text, and the outcome. No writer plays a part.
fn read_plan_checked<'a, B: Allocator, S: Source>(
    alloc: &'a B,
    domain: &Domain<&'a B>,
    problem: &Problem<&'a B>,
    plan: &mut S,
    wanted: Wanted,
) -> Result<Formatted<'a, B>, RunFault>
    ensures answer { IfOk result (λ answer. (text : List ℕ) × IsLeft (S.remaining plan.old) text
        × ForPlan (IsPlanJudged (printing_of wanted) (domain_view domain.now) (problem_view problem.now)) text answer.0.items answer.1) }
    ensures read { IfOk result (λ answer. IsRead Kind.Plan (S.at_end plan.new) answer.0.items) }
    ensures judged_at_end { IfOk result (λ answer. answer.1 ≢ Outcome.Refused → S.at_end plan.new ≡ true) }
    ensures none_failed { OnOk result (S.failures plan.new ≡ S.failures plan.old) }
    ensures memory { IsErrOf result RunFault.Memory → S.failures plan.new ≡ S.failures plan.old }
    ensures read_failed { IsErrOf result RunFault.ReadFailed → HasFailed (S.failures plan.old) (S.failures plan.new) }
    ensures no_write { ¬ IsErrOf result RunFault.WriteFailed }
    ensures stands { (given : List ℕ) × Consumes (S.remaining plan.old) (S.remaining plan.new) given }
{
    match read_plan_file(alloc, plan)? {
        PlanContent::Plan(read) => {
            let answer = judged_plan(alloc, domain, problem, &read, wanted);
            let_go_plan(read);
            or_memory(answer)
        }
        PlanContent::Refused(line) => Ok((line, Outcome::Refused)),
    }
}

/// What is printed for a domain and the texts of a problem's and a plan's reader, and the outcome. The second is not read where the first's
/// text is refused.
fn read_problem_and_plan<'a, B: Allocator, S: Source, T: Source>(
    alloc: &'a B,
    domain: &Domain<&'a B>,
    problem: &mut S,
    plan: &mut T,
    wanted: Wanted,
) -> Result<Formatted<'a, B>, RunFault>
    ensures answer { IfOk result (λ answer. (text steps : List ℕ) × IsLeft (S.remaining problem.old) text × IsLeft (T.remaining plan.old) steps
        × ForProblem (λ p. ForPlan (IsPlanJudged (printing_of wanted) (domain_view domain.now) p) steps) text answer.0.items answer.1) }
    ensures read { IfOk result (λ answer. IsRead Kind.Problem (S.at_end problem.new) answer.0.items
        × ((plan.new ≡ plan.old) ⊎ IsRead Kind.Plan (T.at_end plan.new) answer.0.items)) }
    ensures judged_at_end { IfOk result (λ answer. answer.1 ≢ Outcome.Refused → (S.at_end problem.new ≡ true) × (T.at_end plan.new ≡ true)) }
    ensures none_failed { OnOk result ((S.failures problem.new ≡ S.failures problem.old) × (T.failures plan.new ≡ T.failures plan.old)) }
    ensures memory { IsErrOf result RunFault.Memory → (S.failures problem.new ≡ S.failures problem.old) × (T.failures plan.new ≡ T.failures plan.old) }
    ensures read_failed { IsErrOf result RunFault.ReadFailed → HasFailed (S.failures problem.old) (S.failures problem.new) ⊎ HasFailed (T.failures plan.old) (T.failures plan.new) }
    ensures no_write { ¬ IsErrOf result RunFault.WriteFailed }
    ensures stands { (given : List ℕ) × Consumes (S.remaining problem.old) (S.remaining problem.new) given }
    ensures plan_stands { (given : List ℕ) × Consumes (T.remaining plan.old) (T.remaining plan.new) given }
    ensures problem_first { IsNoProblem (S.remaining problem.old) → plan.new ≡ plan.old }
    ensures no_read_after_failure { S.failures problem.new ≢ S.failures problem.old → plan.new ≡ plan.old }
{
    match read_file(alloc, Kind::Problem, problem)? {
        Content::Text(text) => match read_problem(alloc, &text) {
            Ok(read) => {
                let_go_text(text);
                let answer = read_plan_checked(alloc, domain, &read, plan, wanted);
                let_go_problem(read);
                answer
            }
            Err(fault) => or_memory(refused_problem(alloc, &text, &fault)),
        },
        Content::TooLong(line) => Ok((line, Outcome::Refused)),
    }
}

/// What is printed for the texts of three readers, and the outcome. None is read after one whose text is refused.
pub(crate) fn read_each<'a, B: Allocator, S: Source, T: Source, U: Source>(
    alloc: &'a B,
    domain: &mut S,
    problem: &mut T,
    plan: &mut U,
    wanted: Wanted,
) -> Result<Formatted<'a, B>, RunFault>
    ensures answer { IfOk result (λ answer. (text given steps : List ℕ) × IsLeft (S.remaining domain.old) text × IsLeft (T.remaining problem.old) given
        × IsLeft (U.remaining plan.old) steps × IsPlanChecked (printing_of wanted) text given steps answer.0.items answer.1) }
    ensures read { IfOk result (λ answer. IsRead Kind.Domain (S.at_end domain.new) answer.0.items
        × ((problem.new ≡ problem.old) ⊎ IsRead Kind.Problem (T.at_end problem.new) answer.0.items)
        × ((plan.new ≡ plan.old) ⊎ IsRead Kind.Plan (U.at_end plan.new) answer.0.items)) }
    ensures judged_at_end { IfOk result (λ answer. answer.1 ≢ Outcome.Refused → (S.at_end domain.new ≡ true) × (T.at_end problem.new ≡ true) × (U.at_end plan.new ≡ true)) }
    ensures none_failed { OnOk result ((S.failures domain.new ≡ S.failures domain.old) × (T.failures problem.new ≡ T.failures problem.old) × (U.failures plan.new ≡ U.failures plan.old)) }
    ensures memory { IsErrOf result RunFault.Memory
        → (S.failures domain.new ≡ S.failures domain.old) × (T.failures problem.new ≡ T.failures problem.old) × (U.failures plan.new ≡ U.failures plan.old) }
    ensures read_failed { IsErrOf result RunFault.ReadFailed
        → HasFailed (S.failures domain.old) (S.failures domain.new) ⊎ (HasFailed (T.failures problem.old) (T.failures problem.new) ⊎ HasFailed (U.failures plan.old) (U.failures plan.new)) }
    ensures no_write { ¬ IsErrOf result RunFault.WriteFailed }
    ensures stands { (given : List ℕ) × Consumes (S.remaining domain.old) (S.remaining domain.new) given }
    ensures problem_stands { (given : List ℕ) × Consumes (T.remaining problem.old) (T.remaining problem.new) given }
    ensures plan_stands { (given : List ℕ) × Consumes (U.remaining plan.old) (U.remaining plan.new) given }
    ensures domain_first { IsNoDomain (S.remaining domain.old) → (problem.new ≡ problem.old) × (plan.new ≡ plan.old) }
    ensures problem_first { IsNoProblem (T.remaining problem.old) → plan.new ≡ plan.old }
    ensures no_read_after_domain { S.failures domain.new ≢ S.failures domain.old → (problem.new ≡ problem.old) × (plan.new ≡ plan.old) }
    ensures no_read_after_problem { T.failures problem.new ≢ T.failures problem.old → plan.new ≡ plan.old }
{
    match read_file(alloc, Kind::Domain, domain)? {
        Content::Text(text) => match read_domain(alloc, &text) {
            Ok(read) => {
                let_go_text(text);
                let answer = read_problem_and_plan(alloc, &read, problem, plan, wanted);
                let_go_domain(read);
                answer
            }
            Err(fault) => or_memory(refused_domain(alloc, &text, &fault)),
        },
        Content::TooLong(line) => Ok((line, Outcome::Refused)),
    }
}
