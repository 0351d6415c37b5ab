//! Eight words of a row at once, as eight lanes.
ghost use Rattle.std.specs.Prelude.{◌≡◌, ℕ, ◌+◌, ◌<◌, ◌≤◌, ◌↔◌, length, IsTrue, bit_and, bit_or};
ghost use Rattle.std.specs.Int.{bit_not, w64};
ghost use Rattle.pddl_bit_rows.specs.BitRows.{word_at};

use std::simd::prelude::*;

/// Whether the eight words from `at` on have no bit in common.
pub(crate) fn lanes_disjoint(a: &[u64], b: &[u64], at: usize) -> bool
    requires a_has { at + 8 ≤ length a.now }
    requires b_has { at + 8 ≤ length b.now }
    ensures { IsTrue result ↔ ((k : ℕ) → at ≤ k → k < at + 8 → bit_and (word_at a.now k) (word_at b.now k) ≡ 0) }
{
    let both = u64x8::from_slice(&a[at..]) & u64x8::from_slice(&b[at..]);
    both.simd_ne(u64x8::splat(0)).to_bitmask() == 0
}

/// Sets in the eight words from `at` on the bits of those of `more`.
pub(crate) fn lanes_unite(row: &mut [u64], more: &[u64], at: usize)
    requires row_has { at + 8 ≤ length row.old }
    requires more_has { at + 8 ≤ length more.now }
    ensures inside { (k : ℕ) → at ≤ k → k < at + 8 → word_at row.new k ≡ bit_or (word_at row.old k) (word_at more.now k) }
    ensures below { (k : ℕ) → k < at → word_at row.new k ≡ word_at row.old k }
    ensures above { (k : ℕ) → at + 8 ≤ k → word_at row.new k ≡ word_at row.old k }
{
    let all = u64x8::from_slice(&row[at..]) | u64x8::from_slice(&more[at..]);
    all.copy_to_slice(&mut row[at..]);
}

/// Clears in the eight words from `at` on the bits of those of `less`.
pub(crate) fn lanes_subtract(row: &mut [u64], less: &[u64], at: usize)
    requires row_has { at + 8 ≤ length row.old }
    requires less_has { at + 8 ≤ length less.now }
    ensures inside { (k : ℕ) → at ≤ k → k < at + 8 → word_at row.new k ≡ bit_and (word_at row.old k) (bit_not w64 (word_at less.now k)) }
    ensures below { (k : ℕ) → k < at → word_at row.new k ≡ word_at row.old k }
    ensures above { (k : ℕ) → at + 8 ≤ k → word_at row.new k ≡ word_at row.old k }
{
    let rest = u64x8::from_slice(&row[at..]) & !u64x8::from_slice(&less[at..]);
    rest.copy_to_slice(&mut row[at..]);
}
