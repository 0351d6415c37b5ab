//! Names side by side in one buffer.

ghost use Rattle.std.specs.Prelude.{◌≡◌, ◌<◌, ◌≤◌, ◌++◌, [], Some, take, IfOk, OnOk, OnErr, IsTrue, length, slice_get, slice_index, is_ok, if◌then◌else◌};
ghost use Rattle.std.specs.List.{list_all};
ghost use Rattle.pddl_token.specs.Names.{folded, name_of, is_name};
ghost use Rattle.pddl_plan.specs.Cuts.{last_end, Rises, start_of};
ghost use Rattle.pddl_plan.specs.NameLists.{AddsName};

use pddl_hash::Hashed;
use pddl_token::is_name;
use std::alloc::{AllocError, Allocator};
use std::marker::Model;
use std::ops::Range;

/// The place where the part of a number begins, or where one more would begin behind the last.
pub(crate) fn start_of(ends: &[u32], number: usize) -> usize
    requires { number ≤ length ends.now }
    ensures { result ≡ start_of ends.now number }
{
    if number == 0 {
        0
    } else {
        ends[number - 1] as usize
    }
}

/// Where the part of a number starts and ends.
pub(crate) fn part_of(ends: &[u32], number: usize) -> Range<usize>
    requires in_range { number < length ends.now }
    requires rises { Rises 0 ends.now }
    ensures start { result.start ≡ start_of ends.now number }
    ensures end { result.end ≡ slice_index ends.now number }
    ensures rises { result.start < result.end }
    ensures within { result.end ≤ last_end 0 ends.now }
{
    Range {
        start: start_of(ends, number),
        end: ends[number] as usize,
    }
}

/// Adds a word's bytes to a text, its letters in lower case.
///
/// Fails where memory is refused; the text then stays as it is.
fn put_folded<A: Allocator>(text: &mut Vec<u8, A>, word: &[u8]) -> Result<(), AllocError>
    ensures { text.new.items ≡ (if is_ok result then text.old.items ++ folded word.now else text.old.items) }
{
    let start = text.len();
    text.extend_from_slice(word)?;
    text.split_at_mut(start).1.make_ascii_lowercase();
    Ok(())
}

/// Names, folded, one behind the other in one buffer, and the place where each ends: four bytes a name beside its own.
///
/// Contracts see it as the list of the names' bytes.
#[derive(Drop)]
pub struct NameList<A: Allocator> {
    text: Vec<u8, A>,
    ends: Vec<u32, A>,
}

impl<A: Allocator> Model for NameList<A> {
    ghost use Rattle.std.specs.Prelude.{List, ℕ};
    ghost use Rattle.pddl_plan.specs.Cuts.{cut};
    ghost use Rattle.pddl_plan.specs.NameLists.{AreNamesIn};

    ghost Value = { List (List ℕ) };

    ghost view = { λ l. cut l.text.items 0 l.ends.items };

    ghost invariant = { λ l. AreNamesIn l.text.items l.ends.items };
}

impl<'a, B: Allocator> NameList<&'a B> {
    /// No names.
    pub fn new(alloc: &'a B) -> NameList<&'a B>
        ensures { result ≡ [] }
    {
        NameList {
            text: Vec::new(alloc),
            ends: Vec::new(alloc),
        }
    }
}

impl<A: Allocator> NameList<A> {
    /// How tables of what the names stand for hash: by a digest of their bytes.
    pub(crate) fn hashed(&self) -> Hashed {
        Hashed::of(&self.text)
    }

    /// How many names there are.
    pub fn len(&self) -> usize
        ensures value { result ≡ length self.now }
        ensures short { result ≤ 4294967295 }
        ensures named { IsTrue (list_all is_name self.now) }
    {
        self.ends.len()
    }

    /// The bytes of the name of a number, in lower case.
    pub fn get(&self, number: usize) -> &[u8]
        requires { number < length self.now }
        ensures { slice_get self.now number ≡ Some result.now }
    {
        let part = part_of(&self.ends, number);
        &self.text[part.start..part.end]
    }

    /// Leaves the first so many names.
    pub fn truncate(&mut self, count: usize)
        ensures { self.new ≡ take count self.old }
    {
        self.ends.truncate(count);
    }

    /// Adds the name that a word spells, in any case of its letters, and answers whether it spells one. What is no name is
    /// not added.
    ///
    /// Fails where memory is refused: the names of one list take at most 4294967295 bytes. The names then stay as they are.
    pub fn push_word(&mut self, word: &[u8]) -> Result<bool, AllocError>
        ensures added { IfOk result (λ is. AddsName is (name_of word.now) self.old self.new) }
        ensures kept { OnErr result (self.new ≡ self.old) }
    {
        let start = start_of(&self.ends, self.ends.len());
        self.text.truncate(start);
        put_folded(&mut self.text, word)?;
        if !is_name(self.text.split_at(start).1) {
            return Ok(false);
        }
        let Ok(end) = u32::try_from(self.text.len()) else {
            return Err(AllocError);
        };
        self.ends.push(end)?;
        Ok(true)
    }
}
