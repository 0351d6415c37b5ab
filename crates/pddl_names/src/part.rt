//! What stands at a place, as a search looks at it.

ghost use Rattle.std.specs.Prelude.{◌≡◌, ◌<◌, length, get_or};
ghost use Rattle.pddl_formula.specs.Terms.{term_view, atom_view};
ghost use Rattle.pddl_effect.specs.Effects.{amount_view};
ghost use Rattle.pddl_task.specs.Places.{says, calls, bare, total_cost, amount_part};
ghost use Rattle.pddl_names.specs.Parts.{part_in, term_in, terms_in};

use pddl_effect::Amount;
use pddl_formula::{Atom, Term};
use pddl_problem::ObjectNames;
use pddl_token::Fixed;
use std::alloc::Allocator;

/// A term, lent by its name, which is a variable's without `?`.
#[derive(Clone, Copy)]
pub(crate) struct LentTerm<'d> {
    pub name: &'d [u8],
    pub is_variable: bool,
}

/// The terms of a predicate or a function, lent: any, or the objects that `:init` has.
#[derive(Drop)]
pub(crate) enum Terms<'d, A: Allocator> {
    Any(&'d [Term<A>]),
    Objects(&'d ObjectNames<A>),
}

/// What stands at one place, lent.
#[derive(Drop)]
pub(crate) enum Part<'d, A: Allocator> {
    /// A predicate of terms.
    Says(&'d [u8], &'d [Term<A>]),
    /// A function of terms.
    Calls(&'d [u8], &'d [Term<A>]),
    Equates(&'d Term<A>, &'d Term<A>),
    /// A number for a function.
    Counts(&'d [u8], Fixed),
}

impl<'d, A: Allocator> Part<'d, A> {
    /// What an atom says.
    pub fn of_atom(atom: &'d Atom<A>) -> Part<'d, A>
        ensures { part_in result ≡ says (atom_view atom.now) }
    {
        Part::Says(atom.predicate.as_bytes(), &atom.terms)
    }

    /// The total cost, a function without terms.
    pub fn total_cost() -> Part<'d, A>
        ensures { part_in result ≡ calls (bare total_cost) }
    {
        Part::Calls(b"total-cost".as_slice(), &[])
    }

    /// What an increase adds to the total cost.
    pub fn of_amount(amount: &'d Amount<A>) -> Part<'d, A>
        ensures { part_in result ≡ amount_part (amount_view amount.now) }
    {
        match amount {
            Amount::Number(number) => Part::Counts(b"total-cost".as_slice(), *number),
            Amount::Function(call) => Part::Calls(call.function.as_bytes(), &call.terms),
        }
    }
}

impl<'d> LentTerm<'d> {
    /// The term by its name.
    pub fn of<A: Allocator>(term: &'d Term<A>) -> LentTerm<'d>
        ensures { term_in result ≡ term_view term.now }
    {
        let (name, is_variable) = match term {
            Term::Name(name) => (name, false),
            Term::Variable(name) => (name, true),
        };
        LentTerm {
            name: name.as_bytes(),
            is_variable,
        }
    }
}

impl<'d, A: Allocator> Terms<'d, A> {
    /// How many there are.
    pub fn len(&self) -> usize
        ensures { result ≡ length (terms_in self.now) }
    {
        match self {
            Terms::Any(terms) => terms.len(),
            Terms::Objects(objects) => objects.len(),
        }
    }

    /// The term of a number from 0.
    pub fn at(&self, number: usize) -> LentTerm<'d>
        requires { number < length (terms_in self.now) }
        ensures { term_in result ≡ get_or (terms_in self.now) number (term_in result) }
    {
        match *self {
            Terms::Any(terms) => LentTerm::of(&terms[number]),
            Terms::Objects(objects) => LentTerm {
                name: objects.at(number),
                is_variable: false,
            },
        }
    }
}
