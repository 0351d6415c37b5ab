//! Linked tasks.

ghost use Rattle.std.specs.Prelude.{◌≡◌, ◌<◌, false, Some, map, length, option_map, slice_get, position, bytes_eq, IfOk};
ghost use Rattle.std.specs.Option.{option_map_or};
ghost use Rattle.pddl_formula.specs.Formulas.{formula_view};
ghost use Rattle.pddl_formula.specs.TypedLists.{TypedValue};
ghost use Rattle.pddl_domain.specs.Actions.{ActionValue, action_view};
ghost use Rattle.pddl_domain.specs.Domains.{domain_view};
ghost use Rattle.pddl_problem.specs.Inits.{function_view};
ghost use Rattle.pddl_problem.specs.Problems.{problem_view};
ghost use Rattle.pddl_task.specs.Names.{same_names};
ghost use Rattle.pddl_task.specs.Faults.{same_ground};
ghost use Rattle.pddl_task.specs.Types.{pairs, fits, is_subtype};
ghost use Rattle.pddl_task.specs.GroundSize.{capped, formula_size, action_size};
ghost use Rattle.pddl_task.specs.Linked.{IsLinked};
ghost use Rattle.pddl_task.specs.Tasks.{task_count, predicate_names, function_names, object_names, fitting_numbers, cost_of};
ghost use Rattle.pddl_linked_task.specs.LinkedTasks.{files, task_of_files};
ghost use Rattle.pddl_linked_task.specs.TaskTables.{AreTablesOf};

use pddl_domain::{Action, Domain};
use pddl_formula::{Formula, TypeNames};
use pddl_hash::Hashed;
use pddl_problem::{GroundFunction, InitItem, ObjectNames, Problem};
use pddl_token::{LentName, Name};
use pddl_types::Tables;
use std::alloc::{AllocError, Allocator};
use std::marker::Model;

/// What a domain and a problem that link say together.
///
/// Its objects, constants first, and its predicates and functions, as declared, are numbered from 0. It refers to the two files, and copies
/// nothing of them.
#[derive(Drop)]
pub struct Task<'m, 'a, A: Allocator, B: Allocator> {
    domain: &'m Domain<A>,
    problem: &'m Problem<A>,
    tables: Tables<'m, 'a, A, B>,
}

impl<'m, 'a, A: Allocator, B: Allocator> Model for Task<'m, 'a, A, B> {
    ghost use Rattle.std.specs.Coded.{codes};
    ghost use Rattle.pddl_domain.specs.Domains.{domain_view};
    ghost use Rattle.pddl_problem.specs.Problems.{problem_view};
    ghost use Rattle.pddl_linked_task.specs.LinkedTasks.{Files, files};
    ghost use Rattle.pddl_linked_task.specs.TaskTables.{AreTablesOf};
    ghost use Rattle.pddl_linked_task.specs.Codes.{formula_code, effect_code};

    ghost Value = { Files };

    ghost coded = { Prim.hlevel (codes, formula_code, effect_code) };

    ghost view = { λ t. files (domain_view t.domain.now) (problem_view t.problem.now) };

    ghost invariant = { λ t. AreTablesOf (domain_view t.domain.now) (problem_view t.problem.now) t.tables };
}

/// Whether objects that are asked for have these names, in their order.
fn are_asked<A: Allocator>(objects: &[&[u8]], names: &ObjectNames<A>) -> bool
    ensures { result ≡ same_names (map (λ o. o.now) objects.now) names.now }
{
    if objects.len() != names.len() {
        return false;
    }
    for i in 0..names.len() {
        if objects[i] != names.at(i) {
            return false;
        }
    }
    true
}

/// Whether a function of objects is the one that is asked for.
fn is_asked<A: Allocator>(function: &[u8], objects: &[&[u8]], call: &GroundFunction<A>) -> bool
    ensures { result ≡ same_ground (record { name = function.now; objects = map (λ o. o.now) objects.now }) (function_view call.now) }
{
    function == call.function.as_bytes() && are_asked(objects, &call.objects)
}

impl<'m, 'a, A: Allocator, B: Allocator> Task<'m, 'a, A, B> {
    /// The task of a domain and a problem that link, by what holds what they declare.
    pub fn of(
        domain: &'m Domain<A>,
        problem: &'m Problem<A>,
        tables: Tables<'m, 'a, A, B>,
    ) -> Task<'m, 'a, A, B>
        requires { AreTablesOf (domain_view domain.now) (problem_view problem.now) tables }
        ensures { result ≡ files (domain_view domain.now) (problem_view problem.now) }
    {
        Task {
            domain,
            problem,
            tables,
        }
    }

    /// The domain that it is of.
    pub fn domain(&self) -> &'m Domain<A>
        ensures domain { domain_view result.now ≡ self.now.domain }
        ensures linked { IsLinked self.now.domain self.now.problem }
    {
        self.domain
    }

    /// The problem that it is of.
    pub fn problem(&self) -> &'m Problem<A>
        ensures problem { problem_view result.now ≡ self.now.problem }
        ensures linked { IsLinked self.now.domain self.now.problem }
    {
        self.problem
    }

    /// Law: the two files that a task is of are linked.
    pub fn files_are_linked(&self)
        ensures { IsLinked self.now.domain self.now.problem }
    {
        let _ = &self.domain;
    }

    /// How tables of what the task says hash.
    pub fn hashed(&self) -> Hashed {
        self.tables.known.types.hashed()
    }

    /// The action of a number, in the domain's order.
    pub fn action(&self, number: usize) -> &'m Action<A>
        requires { number < length (task_of_files self.now).actions }
        ensures { slice_get (task_of_files self.now).actions number ≡ Some (action_view result.now) }
    {
        let domain = self.domain;
        &domain.actions[number]
    }

    /// The goal.
    pub fn goal(&self) -> &'m Formula<A>
        ensures { formula_view result.now ≡ (task_of_files self.now).goal }
    {
        let problem = self.problem;
        &problem.goal
    }

    /// How many objects there are.
    pub fn object_count(&self) -> usize
        ensures { result ≡ length (task_of_files self.now).objects }
    {
        self.tables.known.listed.objects.len()
    }

    /// How many predicates there are.
    pub fn predicate_count(&self) -> usize
        ensures { result ≡ length (task_of_files self.now).predicates }
    {
        self.tables.known.predicates.len()
    }

    /// How many functions there are.
    pub fn function_count(&self) -> usize
        ensures { result ≡ length (task_of_files self.now).functions }
    {
        self.tables.known.functions.len()
    }

    /// Whether a type is a subtype of another, or that type itself; a name that is no type of the task is neither.
    pub fn is_a<N: Allocator>(&self, sub: &Name<N>, over: &Name<N>) -> bool
        ensures { result ≡ is_subtype (task_of_files self.now).types sub.now over.now }
    {
        let types = &self.tables.known.types;
        types.is_a(sub.as_bytes(), over.as_bytes())
    }

    /// Whether the object of a number fits a parameter of an action, both by their numbers; past the last object there is none that does.
    pub fn fits_parameter(&self, object: usize, action: usize, parameter: usize) -> bool
        requires action { action < length (task_of_files self.now).actions }
        requires parameter { (a : ActionValue) → slice_get (task_of_files self.now).actions action ≡ Some a → parameter < length a.parameters }
        ensures { (a : ActionValue) (x : TypedValue) → slice_get (task_of_files self.now).actions action ≡ Some a → slice_get a.parameters parameter ≡ Some x
            → result ≡ option_map_or (λ o. fits (pairs (task_of_files self.now).types) o.of x.of) (slice_get (task_of_files self.now).objects object) false }
    {
        let tops = self.tables.parameter_tops(action, parameter);
        match self.tables.order.number(object) {
            Some(number) => self.tables.known.types.is_under_tops(number, tops),
            None => false,
        }
    }

    /// Whether the object of a number fits a type; past the last there is none that does.
    pub fn object_fits<N: Allocator>(&self, object: usize, types: &TypeNames<N>) -> bool
        ensures { result ≡ option_map_or (λ o. fits (pairs (task_of_files self.now).types) o.of types.now)
            (slice_get (task_of_files self.now).objects object) false }
    {
        self.tables.fits(object, types)
    }

    /// The numbers of the objects that fit a type, rising.
    ///
    /// Fails where memory for them is refused.
    pub fn fitting<'b, N: Allocator, C: Allocator>(
        &self,
        alloc: &'b C,
        types: &TypeNames<N>,
    ) -> Result<Vec<usize, &'b C>, AllocError>
        ensures { IfOk result (λ numbers. numbers.items ≡ fitting_numbers (task_of_files self.now) types.now) }
    {
        self.tables.objects(alloc, types)
    }

    /// The ground size of a formula over the task's objects, or 1,000,001 where it is over 1,000,000.
    pub fn ground_size<N: Allocator>(&self, formula: &Formula<N>) -> u32
        ensures { result ≡ capped (formula_size (task_count (task_of_files self.now)) (formula_view formula.now)) }
    {
        self.tables.ground_size(formula)
    }

    /// The ground size of a step of an action over the task's objects, or 1,000,001 where it is over 1,000,000.
    pub fn action_ground_size<N: Allocator>(&self, action: &Action<N>) -> u32
        ensures { result ≡ capped (action_size (task_count (task_of_files self.now)) (action_view action.now)) }
    {
        self.tables.action_ground_size(action)
    }

    /// The cost that `:init` gives a function of these objects, or `None` where it gives none.
    ///
    /// It looks through `:init`. Whoever asks for many costs takes `task_prices` of `pddl_tables`, which makes a table of them once.
    pub fn cost<'q>(&self, function: &'q [u8], objects: &'q [&'q [u8]]) -> Option<u64>
        ensures { result ≡ cost_of (task_of_files self.now) (record { name = function.now; objects = map (λ o. o.now) objects.now }) }
    {
        for item in &self.problem.init {
            if let InitItem::Value(call, amount) = item {
                if is_asked(function, objects, call) {
                    return Some(amount.billionths() / 1_000_000_000);
                }
            }
        }
        None
    }

    /// The name of the predicate of a number, or `None` past the last.
    pub fn predicate_name(&self, number: usize) -> Option<&Name<A>>
        ensures { option_map (λ name. name.now) result ≡ slice_get (predicate_names (task_of_files self.now)) number }
    {
        match self.domain.predicates.get(number) {
            Some(declared) => Some(declared.predicate.as_name()),
            None => None,
        }
    }

    /// The name of the object of a number, or `None` past the last.
    pub fn object_name(&self, number: usize) -> Option<&Name<A>>
        ensures { option_map (λ name. name.now) result ≡ slice_get (object_names (task_of_files self.now)) number }
    {
        match self.tables.known.listed.objects.get_index(number) {
            Some((_, (listed, _))) => Some(&listed.name),
            None => None,
        }
    }

    /// The number of the object of a name, or `None` where there is none.
    #[tactic(auto, using(pddl_types::proofs::TaskNames::object_number))]
    pub fn object_number(&self, name: &[u8]) -> Option<usize>
        ensures { result ≡ position (bytes_eq name.now) (object_names (task_of_files self.now)) }
    {
        let listed = &self.tables.known.listed;
        listed.objects.get_index_of(&LentName::of(name))
    }

    /// The number of the predicate of a name, or `None` where there is none.
    #[tactic(auto, using(pddl_types::proofs::TaskNames::signature_number))]
    pub fn predicate_number(&self, name: &[u8]) -> Option<usize>
        ensures { result ≡ position (bytes_eq name.now) (predicate_names (task_of_files self.now)) }
    {
        self.tables.known.predicates.get_index_of(name)
    }

    /// The number of the function of a name, or `None` where there is none.
    #[tactic(auto, using(pddl_types::proofs::TaskNames::signature_number))]
    pub fn function_number(&self, name: &[u8]) -> Option<usize>
        ensures { result ≡ position (bytes_eq name.now) (function_names (task_of_files self.now)) }
    {
        self.tables.known.functions.get_index_of(name)
    }
}

/// Lets a task go. A crate in which one ends proves how it is taken apart, with each type in it; crates that call this do not.
pub fn let_go_task<'m, 'a, A: Allocator, B: Allocator>(task: Task<'m, 'a, A, B>) {
    drop(task);
}
