//! Rows of few bits: the numbers of the bits that are set, rising.

ghost use Rattle.std.specs.Prelude.{◌≡◌, ℕ, ◌/◌, ◌<◌, ◌≤◌, ◌==◌, ◌||◌, ◌&&◌, ◌↔◌, not, false, length, slice_index, IsTrue, IfOk, OnOk, OnErr};
ghost use Rattle.pddl_bit_rows.specs.BitRows.{has_bit};
ghost use Rattle.pddl_mixed_rows.specs.SparseRows.{has_number, AreRising};

use pddl_bit_rows::{is_bit_set, lengthen, put_bit};
use std::alloc::{AllocError, Allocator};

/// Whether a number is in a row.
pub(crate) fn is_number_in(numbers: &[usize], number: usize) -> bool
    requires { AreRising numbers.now }
    ensures { result ≡ has_number numbers.now number }
{
    match numbers.binary_search(&number) {
        Ok(_) => true,
        Err(_) => false,
    }
}

/// Puts a number into a row. Where memory is refused, the row is as it was.
pub(crate) fn put_number<A: Allocator>(
    numbers: &mut Vec<usize, A>,
    number: usize,
) -> Result<(), AllocError>
    requires { AreRising numbers.old.items }
    ensures rising { AreRising numbers.new.items }
    ensures ok { OnOk result ((i : ℕ) → has_number numbers.new.items i ≡ (i == number || has_number numbers.old.items i)) }
    ensures err { OnErr result (numbers.new.items ≡ numbers.old.items) }
{
    match numbers.binary_search(&number) {
        Ok(_) => Ok(()),
        Err(place) => {
            numbers.insert(place, number)?;
            Ok(())
        }
    }
}

/// Whether a row of few bits and a full one have no bit in common.
pub(crate) fn share_none_with_row(numbers: &[usize], row: &[u64]) -> bool
    ensures { IsTrue result ↔ ((i : ℕ) → (has_number numbers.now i && has_bit row.now i) ≡ false) }
{
    for number in numbers {
        if is_bit_set(row, *number) {
            return false;
        }
    }
    true
}

/// Whether two rows of few bits have no number in common.
pub(crate) fn share_no_number(a: &[usize], b: &[usize]) -> bool
    requires a { AreRising a.now }
    requires b { AreRising b.now }
    ensures { IsTrue result ↔ ((i : ℕ) → (has_number a.now i && has_number b.now i) ≡ false) }
{
    let mut at = 0;
    let mut other = 0;
    while at < a.len() && other < b.len() {
        if a[at] == b[other] {
            return false;
        }
        if a[at] < b[other] {
            at += 1;
        } else {
            other += 1;
        }
    }
    true
}

// Sets the bits of some numbers in a row that is long enough.
fn put_numbers(row: &mut [u64], numbers: &[usize])
    requires { (k : ℕ) → k < length numbers.now → slice_index numbers.now k / 64 < length row.old }
    ensures { (i : ℕ) → has_bit row.new i ≡ (has_bit row.old i || has_number numbers.now i) }
{
    for number in numbers {
        put_bit(row, *number);
    }
}

/// Sets the bits of a row of few bits in a full one. Where memory is refused, no bit has changed.
pub(crate) fn set_numbers<A: Allocator>(
    row: &mut Vec<u64, A>,
    numbers: &[usize],
) -> Result<(), AllocError>
    requires { AreRising numbers.now }
    ensures ok { OnOk result ((i : ℕ) → has_bit row.new.items i ≡ (has_bit row.old.items i || has_number numbers.now i)) }
    ensures err { OnErr result ((i : ℕ) → has_bit row.new.items i ≡ has_bit row.old.items i) }
{
    match numbers.last() {
        None => Ok(()),
        Some(last) => {
            lengthen(row, *last / 64 + 1)?;
            put_numbers(row, numbers);
            Ok(())
        }
    }
}

fn clear_bit(row: &mut [u64], place: usize)
    requires { place / 64 < length row.old }
    ensures { (i : ℕ) → has_bit row.new i ≡ (has_bit row.old i && not (i == place)) }
{
    row[place / 64] &= !(1 << (place % 64));
}

// Clears a bit, where the row has its word.
fn clear_if_there(row: &mut [u64], place: usize)
    ensures { (i : ℕ) → has_bit row.new i ≡ (has_bit row.old i && not (i == place)) }
{
    if row.len() <= place / 64 {
        return;
    }
    clear_bit(row, place);
}

/// Clears the bits of a row of few bits in a full one.
pub(crate) fn clear_numbers(row: &mut [u64], numbers: &[usize])
    ensures { (i : ℕ) → has_bit row.new i ≡ (has_bit row.old i && not (has_number numbers.now i)) }
{
    for number in numbers {
        clear_if_there(row, *number);
    }
}

/// The numbers of both of two rows.
///
/// Fails where memory for them is refused.
pub(crate) fn united_numbers<A: Allocator>(
    alloc: A,
    a: &[usize],
    b: &[usize],
) -> Result<Vec<usize, A>, AllocError>
    requires a { AreRising a.now }
    requires b { AreRising b.now }
    ensures rising { IfOk result (λ all. AreRising all.items) }
    ensures all { IfOk result (λ all. (i : ℕ) → has_number all.items i ≡ (has_number a.now i || has_number b.now i)) }
{
    let mut all = Vec::new(alloc);
    let mut at = 0;
    let mut other = 0;
    while at < a.len() && other < b.len() {
        let one = a[at];
        let two = b[other];
        all.push(one.min(two))?;
        at += usize::from(one <= two);
        other += usize::from(two <= one);
    }
    all.extend_from_slice(&a[at..])?;
    all.extend_from_slice(&b[other..])?;
    Ok(all)
}

/// The place of the first number that is not below another one, or of the end.
pub(crate) fn first_from(numbers: &[usize], from: usize) -> usize
    requires { AreRising numbers.now }
    ensures within { result ≤ length numbers.now }
    ensures below { (k : ℕ) → k < result → slice_index numbers.now k < from }
    ensures from { (k : ℕ) → result ≤ k → k < length numbers.now → from ≤ slice_index numbers.now k }
{
    match numbers.binary_search(&from) {
        Ok(place) => place,
        Err(place) => place,
    }
}
