//! What holds of a task's tables and of its costs by numbers.

ghost use Rattle.std.specs.Prelude.{◌≡◌};
ghost use Rattle.pddl_domain.specs.Domains.{DomainValue};
ghost use Rattle.pddl_problem.specs.Inits.{GroundValue};
ghost use Rattle.pddl_problem.specs.Problems.{ProblemValue};
ghost use Rattle.pddl_task.specs.Linked.{IsLinked};
ghost use Rattle.pddl_task.specs.Tasks.{task_of, object_names, function_names, cost_of};
ghost use Rattle.pddl_meaning.specs.Worlds.{world_of};
ghost use Rattle.pddl_compiled.specs.Tables.{number_atom, IsOver};
ghost use Rattle.pddl_compiled.specs.TaskTables.{tables_of};
ghost use Rattle.pddl_tables.specs.Prices.{price_at, prices_of};

/// In linked files a function of objects has the cost that its numbers have.
pub fn prices_are_costs()
    ensures { (d : DomainValue) (p : ProblemValue) → IsLinked d p → (g : GroundValue)
        → price_at (task_of d p) (number_atom (function_names (task_of d p)) (object_names (task_of d p)) g) ≡ cost_of (task_of d p) g }
{}

/// In linked files the tables of a task speak of what its formulas and effects mean.
pub fn tables_are_over()
    ensures { (d : DomainValue) (p : ProblemValue) → IsLinked d p → IsOver (tables_of (task_of d p)) (world_of (task_of d p)) (prices_of (task_of d p)) }
{}
