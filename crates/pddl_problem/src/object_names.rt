//! The names of the objects of a fact or of a function.

ghost use Rattle.std.specs.Prelude.{◌≡◌, ◌<◌, ◌≤◌, ◌+◌, ◌++◌, [], IsTrue, length, take, get_or, bytes_eq, IfOk, IfSome};
ghost use Rattle.std.specs.Cmp.{partial_equiv_from_equiv};
ghost use Rattle.std.specs.Cmp.Lexicographic.{pointwise, bytes_decides, pointwise_decides, lists_equiv, nat_list_eq_equiv};
ghost use Rattle.pddl_token.specs.Names.{is_name};
ghost use Rattle.std.specs.List.{slice_range};
ghost use Rattle.pddl_problem.specs.HeldNames.{names_in, start_at, AreHeld};

use pddl_token::Name;
use std::alloc::{AllocError, Allocator};
use std::hash::{Hash, Hasher};
use std::marker::Model;

/// The most names that lie in the value itself.
const NAMES: usize = 6;

/// The most bytes of such names.
const BYTES: usize = 32;

/// Names: in the value itself where they are few and short, as those of most facts are, and else in a list.
#[derive(Drop)]
pub(crate) enum Held<A: Allocator> {
    /// So many names, the place behind each of them, and their bytes side by side.
    Few(u8, [u8; NAMES], [u8; BYTES]),
    Many(Vec<Name<A>, A>),
}

/// The names of the objects of a fact or of a function, in their order. They take no memory of their own where they are at most six, of at most 32 bytes together.
///
/// Contracts see them as their bytes.
#[derive(Drop)]
pub struct ObjectNames<A: Allocator> {
    held: Held<A>,
}

impl<A: Allocator> Model for ObjectNames<A> {
    ghost use Rattle.std.specs.Prelude.{List, ℕ};
    ghost use Rattle.pddl_problem.specs.HeldNames.{names_in, AreHeld};

    ghost Value = { List (List ℕ) };

    ghost view = { λ n. names_in n.held };

    ghost invariant = { λ n. AreHeld n.held };
}

/// Puts the bytes of a name behind those of others, and answers the place behind it, or `None` where there is no room.
fn put_bytes(bytes: &mut [u8; BYTES], at: usize, name: &[u8]) -> Option<usize>
    requires { at ≤ BYTES }
    ensures len { length bytes.new ≡ length bytes.old }
    ensures before { take at bytes.new ≡ take at bytes.old }
    ensures put { IfSome result (λ end. (end ≡ at + length name.now) × (end ≤ BYTES) × (take end bytes.new ≡ take at bytes.old ++ name.now)) }
{
    if name.len() > BYTES - at {
        return None;
    }
    let end = at + name.len();
    bytes[at..end].copy_from_slice(name);
    Some(end)
}

/// Names in the value itself, where there is room for them.
fn side_by_side<A: Allocator>(names: &[Name<A>]) -> Option<Held<A>>
    ensures { IfSome result (λ held. AreHeld held × (names_in held ≡ names.now)) }
{
    if names.len() > NAMES {
        return None;
    }
    let mut ends = [0; NAMES];
    let mut bytes = [0; BYTES];
    let mut at = 0;
    for i in 0..names.len() {
        at = put_bytes(&mut bytes, at, names[i].as_bytes())?;
        ends[i] = at as u8;
    }
    Some(Held::Few(names.len() as u8, ends, bytes))
}

/// Where the bytes of the name of a number begin.
fn start(ends: &[u8; NAMES], number: usize) -> u8
    requires { number < NAMES }
    ensures { result ≡ start_at ends.now number }
{
    match number {
        0 => 0,
        _ => ends[number - 1],
    }
}

/// The bytes from a place up to another.
fn piece(bytes: &[u8; BYTES], from: usize, end: usize) -> &[u8]
    requires rise { from ≤ end }
    requires fits { end ≤ BYTES }
    ensures { result.now ≡ slice_range bytes.now from end }
{
    &bytes[from..end]
}

impl<A: Allocator> ObjectNames<A> {
    /// No names.
    pub fn none() -> ObjectNames<A>
        ensures { result ≡ [] }
    {
        ObjectNames {
            held: Held::Few(0, [0; NAMES], [0; BYTES]),
        }
    }

    /// How many there are.
    pub fn len(&self) -> usize
        ensures { result ≡ length self.now }
    {
        match &self.held {
            Held::Few(count, _, _) => *count as usize,
            Held::Many(names) => names.len(),
        }
    }

    /// The bytes of the name of a number from 0.
    pub fn at(&self, number: usize) -> &[u8]
        requires { number < length self.now }
        ensures value { result.now ≡ get_or self.now number [] }
        ensures name { IsTrue (is_name result.now) }
    {
        match &self.held {
            Held::Few(_, ends, bytes) => {
                piece(bytes, start(ends, number) as usize, ends[number] as usize)
            }
            Held::Many(names) => names[number].as_bytes(),
        }
    }
}

impl<'a, B: Allocator> ObjectNames<&'a B> {
    /// The names of a list, which it may keep or lose.
    ///
    /// Fails where memory for them is refused.
    pub fn of(names: &mut Vec<Name<&'a B>, &'a B>) -> Result<ObjectNames<&'a B>, AllocError>
        ensures { IfOk result (λ found. found ≡ names.old.items) }
    {
        let held = match side_by_side(names) {
            Some(held) => held,
            None => Held::Many(names.split_off(0)?),
        };
        Ok(ObjectNames { held })
    }
}

/// Names are equal where their bytes are, one by one.
impl<A: Allocator> PartialEq for ObjectNames<A> {
    ghost eq = { pointwise bytes_eq };

    ghost laws = { partial_equiv_from_equiv (lists_equiv nat_list_eq_equiv) };

    fn eq(&self, other: &ObjectNames<A>) -> bool {
        if self.len() != other.len() {
            return false;
        }
        for i in 0..self.len() {
            if self.at(i) != other.at(i) {
                return false;
            }
        }
        true
    }
}

impl<A: Allocator> Eq for ObjectNames<A> {
    ghost laws = { lists_equiv nat_list_eq_equiv };
}

impl<A: Allocator> Hash for ObjectNames<A> {
    ghost hash_input = { λ names. names };

    ghost respects_eq = { λ names others same. (pointwise_decides bytes_decides names others).0 same };

    fn hash<H: Hasher>(&self, state: &mut H) {
        for i in 0..self.len() {
            state.write(self.at(i));
        }
    }
}
