//! What holds of linked steps.

ghost use Rattle.std.specs.Prelude.{◌≡◌, ◌↔◌, ◌≤◌, true, List, map, length, Contains};
ghost use Rattle.std.specs.List.{list_all};
ghost use Rattle.pddl_domain.specs.Domains.{DomainValue};
ghost use Rattle.pddl_problem.specs.Problems.{ProblemValue};
ghost use Rattle.pddl_plan.specs.Plans.{StepValue, plain};
ghost use Rattle.pddl_task.specs.Names.{is_in};
ghost use Rattle.pddl_task.specs.Linked.{IsLinked};
ghost use Rattle.pddl_task.specs.Tasks.{task_of, object_names};
ghost use Rattle.pddl_linked_plan.specs.StepFaults.{IsGoodStep, IsLinkedPlan, most_steps};
ghost use Rattle.pddl_linked_plan.specs.LinkedSteps.{LinkedStepValue, linked_step, linked_steps, AreLinkedSteps};
ghost use Rattle.pddl_linked_plan.specs.LinkedLaws.{IsLinkedStep, AreSoundSteps, named_step, without_moment};
ghost use Rattle.pddl_linked_plan.specs.KnownSteps.{IsKnownStep};

/// In linked files every atom that a step without faults reads, adds or deletes, whatever holds, is known to the task.
pub fn linked_steps_are_known()
    ensures { (d : DomainValue) (p : ProblemValue) → IsLinked d p → (s : StepValue) → IsGoodStep (task_of d p) s → IsKnownStep (task_of d p) s }
{}

/// Steps by numbers are those of some linked plan exactly where there are not too many, each is linked by itself, and none has a
/// moment or each has one.
pub fn linked_steps_are_sound()
    ensures { (d : DomainValue) (p : ProblemValue) → IsLinked d p → (steps : List LinkedStepValue) → AreLinkedSteps (task_of d p) steps ↔ AreSoundSteps (task_of d p) steps }
{}

/// The names of a linked step are known and have no fault, and it is the step of these names.
pub fn linked_steps_have_names()
    ensures { (d : DomainValue) (p : ProblemValue) → IsLinked d p → (s : LinkedStepValue) → IsLinkedStep (task_of d p) s
        → IsGoodStep (task_of d p) (named_step (task_of d p) s)
        × (list_all (is_in (object_names (task_of d p))) (named_step (task_of d p) s).objects ≡ true)
        × (linked_step (task_of d p) s.moment (named_step (task_of d p) s) ≡ s) }
{}

/// Some of linked steps, in any order and as often as may be, are without their moments the steps of the plain plan of their names,
/// which is linked.
pub fn steps_in_any_order_are_linked()
    ensures { (d : DomainValue) (p : ProblemValue) → IsLinked d p → (steps others : List LinkedStepValue) → AreLinkedSteps (task_of d p) steps → length others ≤ most_steps
        → ((s : LinkedStepValue) → Contains others s → Contains steps s)
        → IsLinkedPlan (task_of d p) (plain (map (named_step (task_of d p)) others))
        × (linked_steps (task_of d p) (plain (map (named_step (task_of d p)) others)) ≡ map without_moment others) }
{}
