//! What holds of linked files and of their task.

ghost use Rattle.std.specs.Prelude.{◌≡◌, ◌≤◌, ◌++◌, ◌*◌, ◌/◌, ℕ, List, length, map, true, bytes_eq, Contains};
ghost use Rattle.std.specs.List.{IsDistinct};
ghost use Rattle.pddl_formula.specs.TypedLists.{TypedValue};
ghost use Rattle.pddl_domain.specs.Domains.{DomainValue};
ghost use Rattle.pddl_problem.specs.Inits.{GroundValue, holds, fails, value};
ghost use Rattle.pddl_problem.specs.Problems.{ProblemValue};
ghost use Rattle.pddl_task.specs.Names.{Name, is_in, number_in};
ghost use Rattle.pddl_task.specs.Types.{types_of};
ghost use Rattle.pddl_task.specs.Places.{total_cost};
ghost use Rattle.pddl_task.specs.Settings.{symbol_of, function_signatures, objects_of};
ghost use Rattle.pddl_task.specs.GroundSize.{largest_size, formula_size};
ghost use Rattle.pddl_task.specs.Faults.{domain_typed, problem_typed, billion};
ghost use Rattle.pddl_task.specs.Linked.{IsLinked, IsGood};
ghost use Rattle.pddl_task.specs.Tasks.{TaskValue, task_of, task_count, object_names, fitting_names, fitting_numbers};
ghost use Rattle.pddl_task.specs.Known.{StepsAreKnown, GoalIsKnown, InitialIsKnown, CostsAreKnown};

/// In linked files every atom that a step reads, adds or deletes, whatever holds, is known to the task.
pub fn steps_are_known()
    ensures { (d : DomainValue) (p : ProblemValue) → IsLinked d p → StepsAreKnown (task_of d p) }
{}

/// So is every atom that the goal speaks of.
pub fn goal_is_known()
    ensures { (d : DomainValue) (p : ProblemValue) → IsLinked d p → GoalIsKnown (task_of d p) }
{}

/// So is every atom that holds at first.
pub fn initial_is_known()
    ensures { (d : DomainValue) (p : ProblemValue) → IsLinked d p → InitialIsKnown (task_of d p) }
{}

/// So is every function of objects that `:init` gives a cost.
pub fn costs_are_known()
    ensures { (d : DomainValue) (p : ProblemValue) → IsLinked d p → CostsAreKnown (task_of d p) }
{}

/// What fits a type is an object of the task.
pub fn fitting_are_objects()
    ensures { (d : DomainValue) (p : ProblemValue) (types : List Name) (o : Name)
        → Contains (fitting_names (task_of d p) types) o → is_in (object_names (task_of d p)) o ≡ true }
{}

/// Where no two objects have one name, the numbers of the objects that fit a type are those of their names.
pub fn fitting_numbers_are()
    ensures { (task : TaskValue) → IsDistinct bytes_eq (object_names task) → (types : List Name)
        → fitting_numbers task types ≡ map (number_in (object_names task)) (fitting_names task types) }
{}

/// No two objects of a task have one name.
pub fn objects_stand_once()
    ensures { (d : DomainValue) (p : ProblemValue) → IsDistinct bytes_eq (object_names (task_of d p)) }
{}

/// In a domain that is good alone no two predicates have one name.
pub fn predicates_stand_once()
    ensures { (d : DomainValue) → IsGood d → IsDistinct bytes_eq (map symbol_of d.predicates) }
{}

/// Nor have two functions.
pub fn functions_stand_once()
    ensures { (d : DomainValue) → IsGood d → IsDistinct bytes_eq (map symbol_of (function_signatures d)) }
{}

/// Nor have two actions.
pub fn actions_stand_once()
    ensures { (d : DomainValue) → IsGood d → IsDistinct bytes_eq (map (λ a. a.name) d.actions) }
{}

/// In linked files each constant and each listed object is an object of the task, with the type that it is listed with.
pub fn listings_are_objects()
    ensures { (d : DomainValue) (p : ProblemValue) → IsLinked d p → (x : TypedValue) → Contains (d.constants ++ p.objects) x → Contains (objects_of d p) x }
{}

/// In linked files an object's type is at most one primitive.
pub fn objects_have_one_type()
    ensures { (d : DomainValue) (p : ProblemValue) → IsLinked d p → (x : TypedValue) → Contains (objects_of d p) x → length x.of ≤ 1 }
{}

/// In linked files each type that is used is a type of the domain.
pub fn types_are_known()
    ensures { (d : DomainValue) (p : ProblemValue) → IsLinked d p → (x : TypedValue) → Contains (domain_typed d ++ problem_typed p) x
        → (t : Name) → Contains x.of t → is_in (types_of d.types) t ≡ true }
{}

/// In linked files the numbers of `:init` are whole, so no cost loses a fraction.
pub fn costs_are_whole()
    ensures { (d : DomainValue) (p : ProblemValue) → IsLinked d p → (f : GroundValue) (n : ℕ) → Contains p.init (value f n) → n / billion * billion ≡ n }
{}

/// In linked files no atom of `:init` holds and fails.
pub fn no_fact_fails()
    ensures { (d : DomainValue) (p : ProblemValue) → IsLinked d p → (f : GroundValue) → Contains p.init (holds f) → Contains p.init (fails f) → ⊥ }
{}

/// In linked files `:init` gives a function of objects one value at most.
pub fn costs_are_single()
    ensures { (d : DomainValue) (p : ProblemValue) → IsLinked d p → (f : GroundValue) (m n : ℕ)
        → Contains p.init (value f m) → Contains p.init (value f n) → m ≡ n }
{}

/// In linked files the total cost starts at 0.
pub fn total_starts_at_zero()
    ensures { (d : DomainValue) (p : ProblemValue) → IsLinked d p → (f : GroundValue) (n : ℕ) → f.name ≡ total_cost → Contains p.init (value f n) → n ≡ 0 }
{}

/// In linked files the goal's ground size is within its limit.
pub fn goal_is_within()
    ensures { (d : DomainValue) (p : ProblemValue) → IsLinked d p → formula_size (task_count (task_of d p)) p.goal ≤ largest_size }
{}
