//! Which steps happenings have.

ghost use Rattle.std.specs.Prelude.{◌≡◌, ◌<◌, ◌↔◌, ℕ, true, List, length, eqb, slice_index, Option};
ghost use Rattle.std.specs.List.{IsDistinct, concat, list_any};
ghost use Rattle.std.specs.List.Sorted.{IsStrictlySortedBy};
ghost use Rattle.std.specs.Ordering.{nat_cmp};
ghost use Rattle.pddl_happenings.specs.Happenings.{HaveEachOnce, AreOfTimed, AreOfPlain, steps_at};

/// The steps at a moment rise, and are exactly those that have it.
pub fn steps_at_moment()
    ensures rising { (ms : List ℕ) (m : ℕ) → IsStrictlySortedBy nat_cmp (steps_at ms m) }
    ensures has { (ms : List ℕ) (m k : ℕ) → list_any (eqb k) (steps_at ms m) ≡ true ↔ ((k < length ms) × (slice_index ms k ≡ m)) }
{}

/// The happenings of a timed plan and those of a plain plan have all numbers, each once; happenings that do have as many
/// numbers as there are, and no number twice.
pub fn each_once_is_distinct()
    ensures timed { (ms : List ℕ) (at : List (Option ℕ)) (gs : List (List ℕ)) → AreOfTimed ms at gs → HaveEachOnce (length ms) gs }
    ensures plain { (n : ℕ) (at : List (Option ℕ)) (gs : List (List ℕ)) → AreOfPlain n at gs → HaveEachOnce n gs }
    ensures length { (n : ℕ) (gs : List (List ℕ)) → HaveEachOnce n gs → length (concat gs) ≡ n }
    ensures distinct { (n : ℕ) (gs : List (List ℕ)) → HaveEachOnce n gs → IsDistinct eqb (concat gs) }
{}
