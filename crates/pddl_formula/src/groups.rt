//! Groups of a list.

ghost use Rattle.std.specs.Prelude.{◌≡◌, ◌<◌, ◌≤◌, ◌+◌, ◌-◌, ◌⊎◌, ◌↔◌, ℕ, true, [], OnOk, OnErr};
ghost use Rattle.pddl_formula.specs.Groups.{shares_at};

use std::alloc::{AllocError, Allocator};
use std::marker::Model;

/// Which items of a list are in one group with the item before them.
///
/// A list's items take a byte each for it, and none as long as each is a group of its own. Contracts see the answers by place: true is that the
/// item there is in one group with the item before it, and an item past the last of them is not.
#[derive(Drop)]
pub struct Groups<A: Allocator> {
    flags: Vec<bool, A>,
}

impl<A: Allocator> Model for Groups<A> {
    ghost use Rattle.std.specs.Prelude.{List, Bool};

    ghost Value = { List Bool };

    ghost view = { λ g. g.flags.items };
}

impl<'a, B: Allocator> Groups<&'a B> {
    /// Each item is a group of its own.
    pub fn new(alloc: &'a B) -> Groups<&'a B>
        ensures { result ≡ [] }
    {
        Groups {
            flags: Vec::new(alloc),
        }
    }
}

impl<A: Allocator> Groups<A> {
    /// Makes one group of the items from a place up to the end of the list.
    ///
    /// Fails where memory for it is refused; each of them may then be a group of its own.
    pub fn add(&mut self, first: usize, end: usize) -> Result<(), AllocError>
        ensures only { (i : ℕ) → shares_at self.new i ≡ true → (shares_at self.old i ≡ true) ⊎ ((first < i) × (i < end)) }
        ensures stay { (i : ℕ) → i ≤ first → shares_at self.old i ≡ true → shares_at self.new i ≡ true }
        ensures added { OnOk result ((i : ℕ) → first < i → i < end → shares_at self.new i ≡ true) }
    {
        if first < end && first + 1 < end {
            self.flags.resize(first + 1, false)?;
            self.flags.resize(end, true)?;
        }
        Ok(())
    }

    /// Puts the groups of another list behind those of this one, which has so many items.
    ///
    /// Fails where memory is refused; the groups are then as they were.
    pub fn append(&mut self, count: usize, other: Groups<A>) -> Result<(), AllocError>
        ensures only { (i : ℕ) → shares_at self.new i ≡ true → (shares_at self.old i ≡ true) ⊎ ((count ≤ i) × (shares_at other (i - count) ≡ true)) }
        ensures stay { (i : ℕ) → i < count → shares_at self.old i ≡ true → shares_at self.new i ≡ true }
        ensures added { OnOk result ((i : ℕ) → shares_at other i ≡ true → shares_at self.new (count + i) ≡ true) }
        ensures kept { OnErr result ((i : ℕ) → shares_at self.new i ≡ true → shares_at self.old i ≡ true) }
    {
        let mut other = other;
        self.flags.resize(count, false)?;
        self.flags.append(&mut other.flags)
    }

    /// Keeps the groups of the first items, so many.
    pub fn truncate(&mut self, count: usize)
        ensures { (i : ℕ) → (shares_at self.new i ≡ true) ↔ ((shares_at self.old i ≡ true) × (i < count)) }
    {
        self.flags.truncate(count);
    }

    /// Whether the item at a place is in one group with the item before it.
    pub fn shares(&self, place: usize) -> bool
        ensures { result ≡ shares_at self.now place }
    {
        match self.flags.get(place) {
            Some(shares) => *shares,
            None => false,
        }
    }
}
