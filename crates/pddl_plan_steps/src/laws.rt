//! What holds of steps by numbers, whatever code computes them.

ghost use Rattle.std.specs.Prelude.{◌≡◌, true, List, length, Contains};
ghost use Rattle.std.specs.List.{list_all};
ghost use Rattle.pddl_domain.specs.Actions.{ActionValue};
ghost use Rattle.pddl_domain.specs.Domains.{DomainValue};
ghost use Rattle.pddl_problem.specs.Problems.{ProblemValue};
ghost use Rattle.pddl_task.specs.Names.{Name, is_in};
ghost use Rattle.pddl_task.specs.Linked.{IsLinked};
ghost use Rattle.pddl_task.specs.Tasks.{task_of, object_names};
ghost use Rattle.pddl_happenings.specs.NamedSteps.{by_name, DoesAsNamed, DoAsNamed};
ghost use Rattle.pddl_meaning.specs.Steps.{step_of};
ghost use Rattle.pddl_linked_plan.specs.LinkedSteps.{LinkedStepValue, AreLinkedSteps};
ghost use Rattle.pddl_plan_steps.specs.NumberedSteps.{number_of, numbered_step};
ghost use Rattle.pddl_plan_steps.specs.PlanSteps.{named_steps, numbered_steps, initial_state, numbered_start};

/// In linked files an action with known objects, as many as it has parameters, does by numbers what it does by names: in every set of
/// numbers it is as ready and costs as much as in the state of their names, it reads, adds and deletes the numbers of the atoms that it
/// reads, adds and deletes there, and it adds and deletes no other number.
pub fn steps_do_as_named()
    ensures { (d : DomainValue) (p : ProblemValue) → IsLinked d p → (a : ActionValue) → Contains (task_of d p).actions a → (os : List Name) → length os ≡ length a.parameters
        → list_all (is_in (object_names (task_of d p))) os ≡ true → DoesAsNamed (number_of (task_of d p)) (numbered_step (task_of d p) a os) (step_of (task_of d p) a os) }
{}

/// The steps of a linked plan do by numbers what they do by names.
pub fn plans_do_as_named()
    ensures { (d : DomainValue) (p : ProblemValue) → IsLinked d p → (steps : List LinkedStepValue) → AreLinkedSteps (task_of d p) steps
        → DoAsNamed (number_of (task_of d p)) (numbered_steps (task_of d p) steps) (named_steps (task_of d p) steps) }
{}

/// The numbers of the atoms that hold at first are those of no other atom, so that a plan starts by numbers in the state that it starts
/// in by names.
pub fn plans_start_as_named()
    ensures { (d : DomainValue) (p : ProblemValue) → IsLinked d p → by_name (number_of (task_of d p)) (numbered_start (task_of d p)) ≡ initial_state (task_of d p) }
{}
