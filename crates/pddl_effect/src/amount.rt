//! Functions whose values no effect changes, and the amounts of increases.

ghost use Rattle.std.specs.Prelude.{◌≡◌, IsTrue};
ghost use Rattle.pddl_effect.specs.StaticNames.{is_static_function, static_function_of};

use pddl_formula::Term;
use pddl_token::{Fixed, Name};
use std::alloc::Allocator;
use std::marker::Model;

/// The name of a function whose values stay as a problem gives them: a name other than `total-cost` (own).
///
/// Contracts see it as its bytes.
#[derive(Drop)]
pub struct StaticFunction<A: Allocator> {
    name: Name<A>,
}

impl<A: Allocator> Model for StaticFunction<A> {
    ghost use Rattle.std.specs.Prelude.{List, ℕ, IsTrue};
    ghost use Rattle.pddl_effect.specs.StaticNames.{is_static_function};

    ghost Value = { List ℕ };

    ghost view = { λ f. f.name };

    ghost invariant = { λ f. IsTrue (is_static_function f.name) };
}

impl<A: Allocator> StaticFunction<A> {
    /// The function of this name, or `None` for `total-cost`.
    pub fn new(name: Name<A>) -> Option<StaticFunction<A>>
        ensures { result ≡ static_function_of name }
    {
        if name.as_bytes() == b"total-cost".as_slice() {
            None
        } else {
            Some(StaticFunction { name })
        }
    }

    /// The function's bytes, in lower case.
    pub fn as_bytes(&self) -> &[u8]
        ensures value { result.now ≡ self.now }
        ensures function { IsTrue (is_static_function self.now) }
    {
        self.name.as_bytes()
    }

    /// The function's name.
    pub fn as_name(&self) -> &Name<A>
        ensures value { result.now ≡ self.now }
        ensures function { IsTrue (is_static_function self.now) }
    {
        &self.name
    }
}

/// A function and its arguments.
#[derive(Drop)]
pub struct FunctionTerm<A: Allocator> {
    pub function: StaticFunction<A>,
    pub terms: Vec<Term<A>, A>,
}

/// What an increase adds: a number, or the value of a function (Kovacs, `<f-exp>` under `:action-costs`).
#[derive(Drop)]
pub enum Amount<A: Allocator> {
    Number(Fixed),
    Function(FunctionTerm<A>),
}
