//! What the steps of a plan and its goal are in the state that it starts in.

ghost use Rattle.std.specs.Prelude.{◌≡◌, ◌<◌};
ghost use Rattle.pddl_linked_task.specs.LinkedTasks.{task_of_files};
ghost use Rattle.pddl_linked_plan.specs.LinkedSteps.{AreLinkedSteps};

use crate::atoms::add_set;
use crate::listed::Asked;
use pddl_file_lines::Outcome;
use pddl_judge::Course;
use pddl_linked_plan::Steps;
use pddl_linked_task::Task;
use pddl_row_driver::Lines;
use pddl_state::AtomStore;
use pddl_step::{compile_plan, initial_state, let_go_compiled_plan};
use std::alloc::{AllocError, Allocator};
use std::fmt::Debug;

/// Adds what a call answers, where it does.
fn add_answer<T: Drop + Debug>(answer: Result<T, AllocError>, lines: &mut Lines) {
    match answer {
        Ok(answer) => lines.shown(&answer),
        Err(_) => lines.refuse(),
    }
}

/// Adds the atoms that a step reads.
fn add_reads<A: Allocator, C: Allocator, D: Allocator, S: AtomStore<D>, P>(
    step: u32,
    task: &Task<'_, '_, A, C>,
    course: &P,
    store: &mut S,
    state: &S::Set,
    lines: &mut Lines,
)
where
    P: Course<D, S>,
    requires step { step < P.count_of course.now }
    requires own { S.owns store.old state.now }
    ensures { S.owns store.new state.now }
{
    match course.reads(step, store) {
        Ok(set) => add_set(task, store, &set, lines),
        Err(_) => lines.refuse(),
    }
}

/// Adds the atoms that a step adds and deletes in a state.
fn add_fired<A: Allocator, C: Allocator, D: Allocator, S: AtomStore<D>, P>(
    step: u32,
    task: &Task<'_, '_, A, C>,
    course: &P,
    store: &mut S,
    state: &S::Set,
    lines: &mut Lines,
)
where
    P: Course<D, S>,
    requires step { step < P.count_of course.now }
    requires own { S.owns store.old state.now }
    ensures { S.owns store.new state.now }
{
    match course.fired(step, store, state) {
        Ok((adds, dels)) => {
            lines.word(b"adds");
            add_set(task, store, &adds, lines);
            lines.word(b"deletes");
            add_set(task, store, &dels, lines);
        }
        Err(_) => lines.refuse(),
    }
}

/// Adds what a step is in a state.
fn add_step<A: Allocator, C: Allocator, D: Allocator, S: AtomStore<D>, P>(
    asked: Asked,
    step: usize,
    task: &Task<'_, '_, A, C>,
    course: &P,
    store: &mut S,
    state: &S::Set,
    lines: &mut Lines,
)
where
    P: Course<D, S>,
    requires step { step < P.count_of course.now }
    requires own { S.owns store.old state.now }
    ensures { S.owns store.new state.now }
{
    let Ok(step) = u32::try_from(step) else {
        return;
    };
    match asked {
        Asked::Truth => add_answer(course.holds(step, store, state), lines),
        Asked::Costs => add_answer(course.cost(step, store, state), lines),
        Asked::Reads => add_reads(step, task, course, store, state, lines),
        Asked::Fired => add_fired(step, task, course, store, state, lines),
    }
    lines.end();
}

/// Adds what each step is in a state, and then the state, which has not changed, and whether the goal is true in it.
fn add_steps<A: Allocator, C: Allocator, D: Allocator, S: AtomStore<D>, P>(
    asked: Asked,
    count: usize,
    task: &Task<'_, '_, A, C>,
    course: &P,
    store: &mut S,
    state: &S::Set,
    lines: &mut Lines,
)
where
    P: Course<D, S>,
    requires count { P.count_of course.now ≡ count }
    requires own { S.owns store.old state.now }
    ensures { S.owns store.new state.now }
{
    for step in 0..count {
        add_step(asked, step, task, course, store, state, lines);
    }
    lines.word(b"in");
    add_set(task, store, state, lines);
    lines.word(b"goal");
    add_answer(course.goal_holds(store, state), lines);
    lines.end();
}

/// Adds what each step is in a state, and once more in the same set of the same store, where memory was refused.
fn add_course_in<A: Allocator, C: Allocator, D: Allocator, S: AtomStore<D>, P>(
    asked: Asked,
    count: usize,
    task: &Task<'_, '_, A, C>,
    course: &P,
    store: &mut S,
    state: &S::Set,
    lines: &mut Lines,
)
where
    P: Course<D, S>,
    requires count { P.count_of course.now ≡ count }
    requires own { S.owns store.old state.now }
{
    let begun = lines.size();
    add_steps(asked, count, task, course, store, state, lines);
    if lines.begin_again(begun) {
        add_steps(asked, count, task, course, store, state, lines);
    }
}

/// Compiles linked steps, and adds what each is in a state.
fn add_compiled<'m, 'a, 'b, 'c, A, B, C, D, S>(
    alloc: &'c D,
    asked: Asked,
    task: &Task<'m, 'a, A, B>,
    steps: &Steps<'b, C>,
    store: &mut S,
    state: &S::Set,
    lines: &mut Lines,
)
where
    A: Allocator,
    B: Allocator,
    C: Allocator,
    D: Allocator,
    S: AtomStore<&'c D>,
    requires linked { AreLinkedSteps (task_of_files task.now) steps.now }
    requires own { S.owns store.old state.now }
{
    match compile_plan(alloc, task, steps) {
        Ok(plan) => {
            add_course_in(asked, steps.len(), task, &plan, store, state, lines);
            let_go_compiled_plan(plan);
        }
        Err(_) => lines.refuse(),
    }
}

/// Adds what each linked step is in the state that they start in, over a store.
pub fn add_course<'m, 'a, 'b, 'c, A, B, C, D, S>(
    alloc: &'c D,
    asked: Asked,
    task: &Task<'m, 'a, A, B>,
    steps: &Steps<'b, C>,
    mut store: S,
    lines: &mut Lines,
) -> Outcome
where
    A: Allocator,
    B: Allocator,
    C: Allocator,
    D: Allocator,
    S: AtomStore<&'c D>,
    requires { AreLinkedSteps (task_of_files task.now) steps.now }
{
    match initial_state(alloc, task, &mut store) {
        Ok(state) => add_compiled(alloc, asked, task, steps, &mut store, &state, lines),
        Err(_) => lines.refuse(),
    }
    Outcome::Good
}
