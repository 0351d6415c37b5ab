//! Terms, predicates and atoms.

ghost use Rattle.std.specs.Prelude.{◌≡◌, IsTrue, not};
ghost use Rattle.pddl_formula.specs.Reserved.{is_none_of, is_predicate, predicate_of, reserved};

use pddl_token::Name;
use std::alloc::Allocator;
use std::marker::Model;

/// A name or a variable (Kovacs, `<term>`). A variable is its name without `?`.
#[derive(Drop)]
pub enum Term<A: Allocator> {
    Name(Name<A>),
    Variable(Name<A>),
}

/// The name of a predicate: a name that heads no other formula or effect.
///
/// Contracts see it as its bytes.
#[derive(Drop)]
pub struct Predicate<A: Allocator> {
    name: Name<A>,
}

impl<A: Allocator> Model for Predicate<A> {
    ghost use Rattle.std.specs.Prelude.{List, ℕ, IsTrue};
    ghost use Rattle.pddl_formula.specs.Reserved.{is_predicate};

    ghost Value = { List ℕ };

    ghost view = { λ p. p.name };

    ghost invariant = { λ p. IsTrue (is_predicate p.name) };
}

impl<A: Allocator> Predicate<A> {
    /// The predicate of this name, or `None` for a word that heads formulas or effects: `and`, `or`, `not`, `imply`,
    /// `exists`, `forall`, `when`, `increase` (Kovacs' words; that they name no predicate is own).
    pub fn new(name: Name<A>) -> Option<Predicate<A>>
        ensures { result ≡ predicate_of name }
    {
        if is_reserved(name.as_bytes()) {
            None
        } else {
            Some(Predicate { name })
        }
    }

    /// The predicate's bytes, in lower case.
    pub fn as_bytes(&self) -> &[u8]
        ensures value { result.now ≡ self.now }
        ensures predicate { IsTrue (is_predicate self.now) }
    {
        self.name.as_bytes()
    }

    /// The predicate's name.
    pub fn as_name(&self) -> &Name<A>
        ensures value { result.now ≡ self.now }
        ensures predicate { IsTrue (is_predicate self.now) }
    {
        &self.name
    }
}

/// Whether a name heads formulas or effects: by its first letter most do not.
fn is_reserved(name: &[u8]) -> bool
    ensures { result ≡ not (is_none_of reserved name.now) }
{
    match name {
        [b'a', ..] => name == b"and".as_slice(),
        [b'o', ..] => name == b"or".as_slice(),
        [b'n', ..] => name == b"not".as_slice(),
        [b'i', ..] => name == b"imply".as_slice() || name == b"increase".as_slice(),
        [b'e', ..] => name == b"exists".as_slice(),
        [b'f', ..] => name == b"forall".as_slice(),
        [b'w', ..] => name == b"when".as_slice(),
        _ => false,
    }
}

/// A predicate and its arguments.
#[derive(Drop)]
pub struct Atom<A: Allocator> {
    pub predicate: Predicate<A>,
    pub terms: Vec<Term<A>, A>,
}
