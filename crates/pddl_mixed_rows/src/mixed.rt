//! Rows in either form: of few bits by their numbers, or by all words.
//!
//! A row is turned into words where these are no longer than its numbers, and stays so from then on.

ghost use Rattle.std.specs.Prelude.{◌≡◌, ℕ, ◌<◌, ◌≤◌, ◌==◌, ◌||◌, ◌&&◌, ◌↔◌, not, true, false, IsTrue, IfOk, IfSome, MatchOption, OnOk, OnErr};
ghost use Rattle.pddl_bit_rows.specs.BitRows.{has_bit};
ghost use Rattle.pddl_mixed_rows.specs.SparseRows.{has_number, AreRising};
ghost use Rattle.pddl_mixed_rows.specs.MixedRows.{is_set, IsOrderly, IsFull};

use crate::sparse::{
    clear_numbers, first_from, is_number_in, put_number, set_numbers, share_no_number,
    share_none_with_row, united_numbers,
};
use pddl_bit_rows::{clear_bits, is_bit_set, next_shared_bit, set_bit, set_bits, share_no_bit};
use std::alloc::{AllocError, Allocator};

/// A row of bits.
#[derive(Drop)]
pub enum Row<A: Allocator> {
    /// The numbers of the bits that are set, rising.
    Few(Vec<usize, A>),
    /// All words.
    Full(Vec<u64, A>),
}

/// Whether the bit at a place is set.
pub fn has_place<A: Allocator>(row: &Row<A>, place: usize) -> bool
    requires { IsOrderly row.now }
    ensures { result ≡ is_set row.now place }
{
    match row {
        Row::Few(numbers) => is_number_in(numbers, place),
        Row::Full(words) => is_bit_set(words, place),
    }
}

/// Whether two rows have no bit in common.
pub fn share_no_place<A: Allocator>(a: &Row<A>, b: &Row<A>) -> bool
    requires a { IsOrderly a.now }
    requires b { IsOrderly b.now }
    ensures { IsTrue result ↔ ((i : ℕ) → (is_set a.now i && is_set b.now i) ≡ false) }
{
    match a {
        Row::Few(numbers) => match b {
            Row::Few(others) => share_no_number(numbers, others),
            Row::Full(words) => share_none_with_row(numbers, words),
        },
        Row::Full(words) => match b {
            Row::Few(numbers) => share_none_with_row(numbers, words),
            Row::Full(others) => share_no_bit(words, others),
        },
    }
}

// The first of some numbers from `from` on and below `end` whose bit is set in a row, or `end`.
fn next_number_in<A: Allocator>(numbers: &[usize], row: &Row<A>, from: usize, end: usize) -> usize
    requires numbers { AreRising numbers.now }
    requires row { IsOrderly row.now }
    requires range { from ≤ end }
    ensures from { from ≤ result }
    ensures end { result ≤ end }
    ensures passed { (i : ℕ) → from ≤ i → i < result → (has_number numbers.now i && is_set row.now i) ≡ false }
    ensures found { result < end → (has_number numbers.now result && is_set row.now result) ≡ true }
{
    let mut at = first_from(numbers, from);
    while at < numbers.len() {
        let place = numbers[at];
        if place >= end {
            return end;
        }
        if has_place(row, place) {
            return place;
        }
        at += 1;
    }
    end
}

/// The first place from `from` on and below `end` whose bit is set in both rows, or `end`.
pub fn next_shared_place<A: Allocator>(a: &Row<A>, b: &Row<A>, from: usize, end: usize) -> usize
    requires a { IsOrderly a.now }
    requires b { IsOrderly b.now }
    requires range { from ≤ end }
    ensures from { from ≤ result }
    ensures end { result ≤ end }
    ensures passed { (i : ℕ) → from ≤ i → i < result → (is_set a.now i && is_set b.now i) ≡ false }
    ensures found { result < end → (is_set a.now result && is_set b.now result) ≡ true }
{
    match a {
        Row::Few(numbers) => next_number_in(numbers, b, from, end),
        Row::Full(words) => match b {
            Row::Few(numbers) => next_number_in(numbers, a, from, end),
            Row::Full(others) => next_shared_bit(words, others, from, end),
        },
    }
}

// Whether as many numbers would be shorter as words.
fn is_dense(numbers: &[usize]) -> bool {
    match numbers.last() {
        Some(last) => numbers.len() > *last / 64 + 8,
        None => false,
    }
}

// All words of a row of few bits that would be shorter in words.
fn filled<A: Allocator + Copy>(row: &Row<A>, alloc: A) -> Result<Option<Vec<u64, A>>, AllocError>
    requires { IsOrderly row.now }
    ensures { IfOk result (λ found. IfSome found (λ words. (i : ℕ) → has_bit words.items i ≡ is_set row.now i)) }
{
    match row {
        Row::Full(_) => Ok(None),
        Row::Few(numbers) => {
            if !is_dense(numbers) {
                return Ok(None);
            }
            let mut words = Vec::new(alloc);
            set_numbers(&mut words, numbers)?;
            Ok(Some(words))
        }
    }
}

// Turns a row of few bits that would be shorter in words into a full one. Its bits stay, also where memory is refused.
fn settle<A: Allocator + Copy>(row: &mut Row<A>, alloc: A) -> Result<(), AllocError>
    requires { IsOrderly row.old }
    ensures orderly { IsOrderly row.new }
    ensures bits { (i : ℕ) → is_set row.new i ≡ is_set row.old i }
{
    if let Some(words) = filled(row, alloc)? {
        *row = Row::Full(words);
    }
    Ok(())
}

/// Sets the bit at a place. Where memory is refused, no bit has changed.
pub fn put_place<A: Allocator + Copy>(
    row: &mut Row<A>,
    place: usize,
    alloc: A,
) -> Result<(), AllocError>
    requires { IsOrderly row.old }
    ensures orderly { IsOrderly row.new }
    ensures ok { OnOk result ((i : ℕ) → is_set row.new i ≡ (i == place || is_set row.old i)) }
    ensures err { OnErr result ((i : ℕ) → is_set row.new i ≡ is_set row.old i) }
{
    settle(row, alloc)?;
    match row {
        Row::Few(numbers) => put_number(numbers, place),
        Row::Full(words) => set_bit(words, place),
    }
}

// The bits of two rows, where the first is of few bits.
fn widened<A: Allocator + Copy>(
    row: &Row<A>,
    more: &Row<A>,
    alloc: A,
) -> Result<Option<Row<A>>, AllocError>
    requires row { IsOrderly row.now }
    requires more { IsOrderly more.now }
    ensures { IfOk result (λ found. MatchOption found (IsFull row.now) (λ both. IsOrderly both × ((i : ℕ) → is_set both i ≡ (is_set row.now i || is_set more.now i)))) }
{
    match row {
        Row::Full(_) => Ok(None),
        Row::Few(numbers) => match more {
            Row::Few(others) => Ok(Some(Row::Few(united_numbers(alloc, numbers, others)?))),
            Row::Full(words) => {
                let mut both = words.to_vec(alloc)?;
                set_numbers(&mut both, numbers)?;
                Ok(Some(Row::Full(both)))
            }
        },
    }
}

// Sets the bits of another row in all words of one.
fn set_in_words<A: Allocator>(words: &mut Vec<u64, A>, more: &Row<A>) -> Result<(), AllocError>
    requires { IsOrderly more.now }
    ensures ok { OnOk result ((i : ℕ) → has_bit words.new.items i ≡ (has_bit words.old.items i || is_set more.now i)) }
    ensures err { OnErr result ((i : ℕ) → has_bit words.new.items i ≡ has_bit words.old.items i) }
{
    match more {
        Row::Few(numbers) => set_numbers(words, numbers),
        Row::Full(others) => set_bits(words, others),
    }
}

// Sets the bits of another row in a full one.
fn set_in_full<A: Allocator>(row: &mut Row<A>, more: &Row<A>) -> Result<(), AllocError>
    requires full { IsFull row.old }
    requires more { IsOrderly more.now }
    ensures orderly { IsOrderly row.new }
    ensures ok { OnOk result ((i : ℕ) → is_set row.new i ≡ (is_set row.old i || is_set more.now i)) }
    ensures err { OnErr result ((i : ℕ) → is_set row.new i ≡ is_set row.old i) }
{
    match row {
        Row::Few(_) => unreachable!(),
        Row::Full(words) => set_in_words(words, more),
    }
}

/// Sets the bits of another row. Where memory is refused, no bit has changed.
pub fn put_places<A: Allocator + Copy>(
    row: &mut Row<A>,
    more: &Row<A>,
    alloc: A,
) -> Result<(), AllocError>
    requires row { IsOrderly row.old }
    requires more { IsOrderly more.now }
    ensures orderly { IsOrderly row.new }
    ensures ok { OnOk result ((i : ℕ) → is_set row.new i ≡ (is_set row.old i || is_set more.now i)) }
    ensures err { OnErr result ((i : ℕ) → is_set row.new i ≡ is_set row.old i) }
{
    settle(row, alloc)?;
    match widened(row, more, alloc)? {
        Some(both) => {
            *row = both;
            Ok(())
        }
        None => set_in_full(row, more),
    }
}

// Takes out of some numbers those whose bits are set in a row.
fn keep_others<A: Allocator>(numbers: &mut Vec<usize, A>, less: &Row<A>)
    requires numbers { AreRising numbers.old.items }
    requires less { IsOrderly less.now }
    ensures rising { AreRising numbers.new.items }
    ensures others { (i : ℕ) → has_number numbers.new.items i ≡ (has_number numbers.old.items i && not (is_set less.now i)) }
{
    numbers.retain(
        |number|
            requires { IsOrderly less.now }
            ensures { result ≡ not (is_set less.entry.now number.now) }
        { !has_place(less, *number) },
    );
}

// Clears the bits of another row in all words of one.
fn clear_in_words<A: Allocator>(words: &mut Vec<u64, A>, less: &Row<A>)
    ensures { (i : ℕ) → has_bit words.new.items i ≡ (has_bit words.old.items i && not (is_set less.now i)) }
{
    match less {
        Row::Few(numbers) => clear_numbers(words, numbers),
        Row::Full(others) => clear_bits(words, others),
    }
}

/// Clears the bits of another row.
pub fn clear_places<A: Allocator>(row: &mut Row<A>, less: &Row<A>)
    requires row { IsOrderly row.old }
    requires less { IsOrderly less.now }
    ensures orderly { IsOrderly row.new }
    ensures bits { (i : ℕ) → is_set row.new i ≡ (is_set row.old i && not (is_set less.now i)) }
{
    match row {
        Row::Few(numbers) => keep_others(numbers, less),
        Row::Full(words) => clear_in_words(words, less),
    }
}

/// Another row with the same bits.
pub fn copied<A: Allocator + Copy>(row: &Row<A>, alloc: A) -> Result<Row<A>, AllocError>
    requires { IsOrderly row.now }
    ensures orderly { IfOk result (λ copy. IsOrderly copy) }
    ensures bits { IfOk result (λ copy. (i : ℕ) → is_set copy i ≡ is_set row.now i) }
{
    match row {
        Row::Few(numbers) => Ok(Row::Few(numbers.to_vec(alloc)?)),
        Row::Full(words) => Ok(Row::Full(words.to_vec(alloc)?)),
    }
}
