//! The lines of plans that link.

ghost use Rattle.std.specs.Prelude.{◌≡◌, ◌<◌, ◌+◌, ◌++◌, map, length, IfOk, OnOk};
ghost use Rattle.std.specs.Fmt.{decimal};
ghost use Rattle.std.specs.List.{AllByRecursion};
ghost use Rattle.pddl_layout.specs.PlanLayout.{spaced};
ghost use Rattle.pddl_linked_task.specs.LinkedTasks.{task_of_files};
ghost use Rattle.pddl_linked_plan.specs.LinkedLaws.{name_at};
ghost use Rattle.pddl_linked_plan.specs.NumberedAtoms.{named_atom, IsInRange};
ghost use Rattle.pddl_task.specs.Tasks.{predicate_names, object_names};
ghost use Rattle.pddl_plan_lines.specs.PlanLines.{valid_line, unready_line, atom_text, clash_words, clash_line, goal_line};

use pddl_file_lines::push_number;
use pddl_linked_task::Task;
use pddl_state::Atom;
use std::alloc::{AllocError, Allocator};

/// Adds words, and a whole number behind them.
fn push_count<A: Allocator>(
    line: &mut Vec<u8, A>,
    words: &[u8],
    number: u128,
) -> Result<(), AllocError>
    ensures { OnOk result (line.new.items ≡ line.old.items ++ (words.now ++ decimal number)) }
{
    line.extend_from_slice(words)?;
    push_number(line, number)
}

/// Adds words, and behind them a number from 0 as it is shown, from 1.
fn push_place<A: Allocator>(
    line: &mut Vec<u8, A>,
    words: &[u8],
    place: usize,
) -> Result<(), AllocError>
    ensures { OnOk result (line.new.items ≡ line.old.items ++ (words.now ++ decimal (place + 1))) }
{
    push_count(line, words, place as u128 + 1)
}

/// The line of a valid plan.
///
/// Fails where memory for it is refused, and so do the lines below.
pub fn valid_line<A: Allocator>(
    alloc: A,
    steps: usize,
    happenings: usize,
    cost: u128,
) -> Result<Vec<u8, A>, AllocError>
    ensures { IfOk result (λ line. line.items ≡ valid_line steps happenings cost) }
{
    let mut line = Vec::new(alloc);
    push_count(&mut line, b"valid: ", steps as u128)?;
    push_count(&mut line, b" steps in ", happenings as u128)?;
    push_count(&mut line, b" happenings, total-cost ", cost)?;
    line.push(b'\n')?;
    Ok(line)
}

/// The line of a plan in which a step of a happening, both numbered from 0, has a false precondition.
pub fn unready_line<A: Allocator>(
    alloc: A,
    happening: usize,
    step: usize,
) -> Result<Vec<u8, A>, AllocError>
    ensures { IfOk result (λ line. line.items ≡ unready_line happening step) }
{
    let mut line = Vec::new(alloc);
    push_place(&mut line, b"invalid: happening ", happening)?;
    push_place(&mut line, b", step ", step)?;
    line.extend_from_slice(b": precondition is false\n")?;
    Ok(line)
}

/// The name of the predicate of a number.
fn predicate_name<'t, 'm, 'a, A: Allocator, B: Allocator>(
    task: &'t Task<'m, 'a, A, B>,
    number: usize,
) -> &'t [u8]
    requires { number < length (task_of_files task.now).predicates }
    ensures { result.now ≡ name_at (predicate_names (task_of_files task.now)) number }
{
    task.predicate_name(number).unwrap().as_bytes()
}

/// The name of the object of a number.
fn object_name<'t, 'm, 'a, A: Allocator, B: Allocator>(
    task: &'t Task<'m, 'a, A, B>,
    number: usize,
) -> &'t [u8]
    requires { number < length (task_of_files task.now).objects }
    ensures { result.now ≡ name_at (object_names (task_of_files task.now)) number }
{
    task.object_name(number).unwrap().as_bytes()
}

/// Adds words, and a name behind them.
fn push_name<A: Allocator>(
    line: &mut Vec<u8, A>,
    words: &[u8],
    name: &[u8],
) -> Result<(), AllocError>
    ensures { OnOk result (line.new.items ≡ line.old.items ++ (words.now ++ name.now)) }
{
    line.extend_from_slice(words)?;
    line.extend_from_slice(name)?;
    Ok(())
}

/// Adds the names of objects, each behind a space.
fn push_objects<'m, 'a, A: Allocator, B: Allocator, C: Allocator>(
    line: &mut Vec<u8, C>,
    task: &Task<'m, 'a, A, B>,
    objects: &[usize],
) -> Result<(), AllocError>
    requires { AllByRecursion (λ n. n < length (task_of_files task.now).objects) objects.now }
    ensures { OnOk result (line.new.items ≡ line.old.items ++ spaced (map (name_at (object_names (task_of_files task.now))) objects.now)) }
{
    for object in objects {
        push_name(line, b" ", object_name(task, *object))?;
    }
    Ok(())
}

/// Adds an atom by the names of its numbers.
fn push_atom<'m, 'a, A: Allocator, B: Allocator, C: Allocator, D: Allocator>(
    line: &mut Vec<u8, C>,
    task: &Task<'m, 'a, A, B>,
    atom: &Atom<D>,
) -> Result<(), AllocError>
    requires { IsInRange (task_of_files task.now) atom.now }
    ensures { OnOk result (line.new.items ≡ line.old.items ++ atom_text (named_atom (task_of_files task.now) atom.now)) }
{
    push_name(line, b"(", predicate_name(task, atom.predicate))?;
    push_objects(line, task, &atom.args)?;
    line.push(b')')?;
    Ok(())
}

/// Adds what stands before the atom in the line of a clash.
fn push_clash<A: Allocator>(
    line: &mut Vec<u8, A>,
    happening: usize,
    steps: (usize, usize),
) -> Result<(), AllocError>
    ensures { OnOk result (line.new.items ≡ line.old.items ++ clash_words happening steps.0 steps.1) }
{
    push_place(line, b"invalid: happening ", happening)?;
    push_place(line, b", steps ", steps.0)?;
    push_place(line, b" and ", steps.1)?;
    line.extend_from_slice(b" interfere on ")?;
    Ok(())
}

/// The line of a plan in which two steps of a happening, all numbered from 0, interfere on an atom.
pub fn clash_line<'m, 'a, A: Allocator, B: Allocator, C: Allocator, D: Allocator>(
    alloc: C,
    task: &Task<'m, 'a, A, B>,
    happening: usize,
    steps: (usize, usize),
    atom: &Atom<D>,
) -> Result<Vec<u8, C>, AllocError>
    requires { IsInRange (task_of_files task.now) atom.now }
    ensures { IfOk result (λ line. line.items ≡ clash_line happening steps.0 steps.1 (named_atom (task_of_files task.now) atom.now)) }
{
    let mut line = Vec::new(alloc);
    push_clash(&mut line, happening, steps)?;
    push_atom(&mut line, task, atom)?;
    line.push(b'\n')?;
    Ok(line)
}

/// The line of a plan after which the goal is false.
pub fn goal_line<A: Allocator>(alloc: A) -> Result<Vec<u8, A>, AllocError>
    ensures { IfOk result (λ line. line.items ≡ goal_line) }
{
    Vec::from_slice(alloc, b"invalid: goal is false\n")
}
