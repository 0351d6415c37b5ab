//! Bits of rows: the words of a row are the bits 0 to 63, 64 to 127 and so on, and bits that it lacks are not set.
ghost use Rattle.std.specs.Prelude.{◌≡◌, ℕ, ◌+◌, ◌/◌, ◌<◌, ◌≤◌, ◌==◌, ◌||◌, ◌&&◌, ◌↔◌, not, min, true, false, length, IsTrue, OnOk, OnErr, vec_len};
ghost use Rattle.pddl_bit_rows.specs.BitRows.{word_at, has_bit};

use crate::kernels::{rows_disjoint, rows_subtract, rows_unite};
use std::alloc::{AllocError, Allocator};

// The word at a place.
fn word(row: &[u64], place: usize) -> u64
    ensures { result ≡ word_at row.now place }
{
    match row.get(place) {
        Some(word) => *word,
        None => 0,
    }
}

/// Whether the bit at a place is set.
pub fn is_bit_set(row: &[u64], place: usize) -> bool
    ensures { result ≡ has_bit row.now place }
{
    word(row, place / 64) >> (place % 64) & 1 == 1
}

/// Whether two rows have no bit in common.
pub fn share_no_bit(a: &[u64], b: &[u64]) -> bool
    ensures { IsTrue result ↔ ((i : ℕ) → (has_bit a.now i && has_bit b.now i) ≡ false) }
{
    rows_disjoint(a, b)
}

// A place some steps further, or the end.
fn advanced(place: usize, steps: usize, end: usize) -> usize
    requires { place ≤ end }
    ensures { result ≡ min (place + steps) end }
{
    if steps < end - place {
        place + steps
    } else {
        end
    }
}

/// The first place from `from` on and below `end` whose bit is set in both rows, or `end`. Words that have none in common
/// are passed over whole.
pub fn next_shared_bit(a: &[u64], b: &[u64], from: usize, end: usize) -> usize
    requires { from ≤ end }
    ensures from { from ≤ result }
    ensures end { result ≤ end }
    ensures passed { (i : ℕ) → from ≤ i → i < result → (has_bit a.now i && has_bit b.now i) ≡ false }
    ensures found { result < end → (has_bit a.now result && has_bit b.now result) ≡ true }
{
    let mut place = from;
    while place < end {
        let rest = (word(a, place / 64) & word(b, place / 64)) >> (place % 64);
        if rest != 0 {
            return advanced(place, rest.trailing_zeros() as usize, end);
        }
        place = advanced(place, 64 - place % 64, end);
    }
    end
}

pub fn put_bit(row: &mut [u64], place: usize)
    requires { place / 64 < length row.old }
    ensures { (i : ℕ) → has_bit row.new i ≡ (i == place || has_bit row.old i) }
{
    row[place / 64] |= 1 << (place % 64);
}

// Makes a row at least so long, by words of zero. All its words stay, also where memory is refused.
pub fn lengthen<A: Allocator>(row: &mut Vec<u64, A>, least: usize) -> Result<(), AllocError>
    ensures words { (k : ℕ) → word_at row.new.items k ≡ word_at row.old.items k }
    ensures len { OnOk result (least ≤ vec_len row.new) }
{
    if row.len() < least {
        row.resize(least, 0)?;
    }
    Ok(())
}

/// Sets the bit at a place. Where memory is refused, no bit has changed.
pub fn set_bit<A: Allocator>(row: &mut Vec<u64, A>, place: usize) -> Result<(), AllocError>
    ensures ok { OnOk result ((i : ℕ) → has_bit row.new.items i ≡ (i == place || has_bit row.old.items i)) }
    ensures err { OnErr result ((i : ℕ) → has_bit row.new.items i ≡ has_bit row.old.items i) }
{
    lengthen(row, place / 64 + 1)?;
    put_bit(row, place);
    Ok(())
}

/// Sets the bits of another row. The row is lengthened before any word changes: where memory is refused, no bit has.
pub fn set_bits<A: Allocator>(row: &mut Vec<u64, A>, more: &[u64]) -> Result<(), AllocError>
    ensures ok { OnOk result ((i : ℕ) → has_bit row.new.items i ≡ (has_bit row.old.items i || has_bit more.now i)) }
    ensures err { OnErr result ((i : ℕ) → has_bit row.new.items i ≡ has_bit row.old.items i) }
{
    lengthen(row, more.len())?;
    rows_unite(row, more);
    Ok(())
}

/// Clears the bits of another row.
pub fn clear_bits<A: Allocator>(row: &mut Vec<u64, A>, less: &[u64])
    ensures { (i : ℕ) → has_bit row.new.items i ≡ (has_bit row.old.items i && not (has_bit less.now i)) }
{
    rows_subtract(row, less);
}
