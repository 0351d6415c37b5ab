//! A task as formulas and effects are compiled by.

ghost use Rattle.std.specs.Prelude.{◌≡◌};

use pddl_compiled::Lookups;
use pddl_formula::TypeNames;
use pddl_linked_task::Task;
use std::alloc::{AllocError, Allocator};
use std::marker::Model;

/// A task as what formulas and effects are compiled by.
#[derive(Drop)]
pub struct TaskLookups<'t, 'm, 'a, A: Allocator, B: Allocator> {
    task: &'t Task<'m, 'a, A, B>,
}

impl<'t, 'm, 'a, A: Allocator, B: Allocator> Model for TaskLookups<'t, 'm, 'a, A, B> {
    ghost use Rattle.std.specs.Coded.{codes};
    ghost use Rattle.pddl_linked_task.specs.Codes.{formula_code, effect_code};
    ghost use Rattle.pddl_linked_task.specs.LinkedTasks.{Files};

    ghost Value = { Files };

    ghost coded = { Prim.hlevel (codes, formula_code, effect_code) };

    ghost view = { λ l. l.task.now };
}

impl<'t, 'm, 'a, A: Allocator, B: Allocator> TaskLookups<'t, 'm, 'a, A, B> {
    /// What formulas and effects of a task are compiled by.
    pub fn of(task: &'t Task<'m, 'a, A, B>) -> TaskLookups<'t, 'm, 'a, A, B>
        ensures { result ≡ task.now }
    {
        TaskLookups { task }
    }
}

impl<'t, 'm, 'a, A: Allocator, B: Allocator, D: Allocator> Lookups<A, D>
    for TaskLookups<'t, 'm, 'a, A, B> {
    ghost use Rattle.pddl_compiled.specs.TaskTables.{tables_of};
    ghost use Rattle.pddl_linked_task.specs.LinkedTasks.{task_of_files};

    ghost tables = { λ lookups. tables_of (task_of_files lookups) };

    fn predicate_number(&self, name: &[u8]) -> usize {
        let found = self.task.predicate_number(name);
        found.unwrap_or(self.task.predicate_count())
    }

    fn function_number(&self, name: &[u8]) -> usize {
        let found = self.task.function_number(name);
        found.unwrap_or(self.task.function_count())
    }

    fn object_number(&self, name: &[u8]) -> usize {
        let found = self.task.object_number(name);
        found.unwrap_or(self.task.object_count())
    }

    fn fitting<'b>(
        &self,
        alloc: &'b D,
        types: &TypeNames<A>,
    ) -> Result<Vec<usize, &'b D>, AllocError> {
        self.task.fitting(alloc, types)
    }
}
