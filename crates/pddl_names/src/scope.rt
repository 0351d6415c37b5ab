//! The variables in scope, looked up by name.

ghost use Rattle.std.specs.Prelude.{◌≡◌, [], ◌∷◌, map, drop, find, length, option_map, IfOk, MatchResult};
ghost use Rattle.pddl_formula.specs.TypedLists.{typed_view};
ghost use Rattle.pddl_task.specs.Names.{is_named, item_of, repeated};
ghost use Rattle.pddl_faults.specs.Found.{IsFound, numbered};
ghost use Rattle.pddl_names.specs.Scopes.{innermost_of, depth_of, entered};

use indexmap::IndexMap;
use pddl_faults::{LinkFault, lower, once};
use pddl_formula::{Typed, TypedList};
use pddl_hash::Hashed;
use std::alloc::{AllocError, Allocator};
use std::marker::Model;

/// A variable in scope with the number of its type, and what is known of the one of its name that it hides.
#[derive(Drop)]
struct Bound<'d, A: Allocator> {
    variable: &'d Typed<A>,
    number: usize,
    hidden: (usize, usize),
}

/// The variables in scope, the innermost last, and by name the number of the type of the innermost, with its depth: how many are in scope up to it, or 0
/// where none of the name is.
///
/// Contracts see them with the numbers of their types, the innermost first.
#[derive(Drop)]
pub(crate) struct Scope<'d, 'a, A: Allocator, B: Allocator> {
    bound: Vec<Bound<'d, A>, &'a B>,
    innermost: IndexMap<&'d [u8], (usize, usize), Hashed, &'a B>,
}

impl<'d, 'a, A: Allocator, B: Allocator> Model for Scope<'d, 'a, A, B> {
    ghost use Rattle.std.specs.Prelude.{List, ℕ, map, reverse};
    ghost use Rattle.pddl_formula.specs.TypedLists.{TypedValue};
    ghost use Rattle.pddl_names.specs.Scopes.{entry_of, IsScope};

    ghost Value = { List (TypedValue × ℕ) };

    ghost view = { λ s. map entry_of (reverse s.bound.items) };

    ghost invariant = { λ s. IsScope (reverse s.bound.items) s.innermost.entries };
}

impl<'d, 'a, A: Allocator, B: Allocator> Scope<'d, 'a, A, B> {
    /// Nothing is in scope.
    pub fn new(alloc: &'a B, hashed: Hashed) -> Scope<'d, 'a, A, B>
        ensures { result ≡ [] }
    {
        Scope {
            bound: Vec::new(alloc),
            innermost: IndexMap::with_hasher(alloc, hashed),
        }
    }

    /// The number of the type of the innermost variable of a name, with its depth, or twice 0.
    fn innermost(&self, name: &[u8]) -> (usize, usize)
        ensures { result ≡ innermost_of name.now self.now }
    {
        self.innermost.get(name).copied().unwrap_or((0, 0))
    }

    /// The number of the type of the innermost variable of a name.
    pub fn number_of(&self, name: &[u8]) -> Option<usize>
        ensures { result ≡ option_map (λ e. e.1) (find (λ e. is_named name.now e.0) self.now) }
    {
        let (number, depth) = self.innermost(name);
        if depth == 0 { None } else { Some(number) }
    }

    /// Adds a variable whose type has a number. Answers the depth of the one of its name that it hides, or 0.
    ///
    /// Fails where memory for it is refused; then nothing is added.
    fn push(&mut self, variable: &'d Typed<A>, number: usize) -> Result<usize, AllocError>
        ensures bound { MatchResult result (λ _. self.new ≡ (typed_view variable.now, number) ∷ self.old) (λ _. self.new ≡ self.old) }
        ensures hidden { IfOk result (λ hidden. hidden ≡ depth_of variable.now.name self.old) }
    {
        let name = variable.name.as_bytes();
        let hidden = self.innermost(name);
        let depth = self.bound.len() + 1;
        self.bound.reserve(1)?;
        self.innermost.insert(name, (number, depth))?;
        self.bound.push(Bound {
            variable,
            number,
            hidden,
        })?;
        Ok(hidden.1)
    }

    /// Takes so many of the innermost variables away.
    pub fn leave(&mut self, many: usize)
        ensures { self.new ≡ drop many self.old }
    {
        for _ in 0..many {
            if let Some(last) = self.bound.pop() {
                let name = last.variable.name.as_bytes();
                match self.innermost.insert(name, last.hidden) {
                    Ok(_) => {}
                    // the name stands in the table, so no memory is asked for
                    Err(_) => unreachable!(),
                }
            }
        }
    }

    /// Adds the variables of a list in turn, whose types have these numbers. Answers the fault of a variable that stands twice in the list.
    ///
    /// Fails where memory for them is refused; then none is added.
    pub fn enter(
        &mut self,
        list: &'d TypedList<A>,
        numbers: &[usize],
    ) -> Result<Result<(), LinkFault<'d>>, AllocError>
        requires { length numbers.now ≡ length list.now.items }
        ensures bound { MatchResult result (λ _. self.new ≡ entered (map typed_view list.now.items) numbers.now self.old) (λ _. self.new ≡ self.old) }
        ensures left { IfOk result (λ _. drop (length list.now.items) self.new ≡ self.old) }
        ensures found { IfOk result (IsFound (numbered 24 (repeated [] (map item_of (map typed_view list.now.items))))) }
    {
        let began = self.bound.len();
        let mut found = Ok(());
        for place in 0..list.len() {
            let variable = &list[place];
            match self.push(variable, numbers[place]) {
                Ok(hidden) => {
                    // what hides nothing of its list stands there for the first time
                    found = lower(found, once(hidden <= began, variable.name.as_bytes()));
                }
                Err(error) => {
                    self.leave(place);
                    return Err(error);
                }
            }
        }
        Ok(found)
    }
}
