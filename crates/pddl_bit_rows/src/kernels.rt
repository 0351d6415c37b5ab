//! The kernels on rows of words: eight words at a time, and then one by one what is left.
ghost use Rattle.std.specs.Prelude.{◌≡◌, ℕ, ◌≤◌, ◌↔◌, length, IsTrue, bit_and, bit_or};
ghost use Rattle.std.specs.Int.{bit_not, w64};
ghost use Rattle.pddl_bit_rows.specs.BitRows.{word_at};

use crate::lanes::{lanes_disjoint, lanes_subtract, lanes_unite};

/// Whether two rows have no bit in common. Takes no memory.
///
/// The rows may be of any lengths, and words that one lacks count as zero.
pub fn rows_disjoint(a: &[u64], b: &[u64]) -> bool
    ensures { IsTrue result ↔ ((k : ℕ) → bit_and (word_at a.now k) (word_at b.now k) ≡ 0) }
{
    let both = a.len().min(b.len());
    for block in 0..both / 8 {
        if !lanes_disjoint(a, b, 8 * block) {
            return false;
        }
    }
    for at in 8 * (both / 8)..both {
        if a[at] & b[at] != 0 {
            return false;
        }
    }
    true
}

/// Sets in a row the bits of another row, which is no longer than the first. Takes no memory.
///
/// Words that `more` lacks count as zero, and so the words of `row` past its end stay.
pub fn rows_unite(row: &mut [u64], more: &[u64])
    requires { length more.now ≤ length row.old }
    ensures { (k : ℕ) → word_at row.new k ≡ bit_or (word_at row.old k) (word_at more.now k) }
{
    for block in 0..more.len() / 8 {
        lanes_unite(row, more, 8 * block);
    }
    for at in 8 * (more.len() / 8)..more.len() {
        row[at] |= more[at];
    }
}

/// Clears in a row the bits of another row. Takes no memory.
///
/// The rows may be of any lengths, and words that one lacks count as zero: the row keeps its length, and its words past
/// the end of `less` stay.
pub fn rows_subtract(row: &mut [u64], less: &[u64])
    ensures { (k : ℕ) → word_at row.new k ≡ bit_and (word_at row.old k) (bit_not w64 (word_at less.now k)) }
{
    let shared = row.len().min(less.len());
    for block in 0..shared / 8 {
        lanes_subtract(row, less, 8 * block);
    }
    for at in 8 * (shared / 8)..shared {
        row[at] &= !less[at];
    }
}
