//! What holds of happenings that pass, whatever order their steps are executed in.

ghost use Rattle.std.specs.Prelude.{◌≡◌, ◌++◌, ℕ, Bool, List, Contains, IsPermutation, eqb};
ghost use Rattle.std.specs.List.{IsDistinct, concat};
ghost use Rattle.pddl_happenings.specs.Steps.{Step, IsFramed, Agree};
ghost use Rattle.pddl_happenings.specs.Accepted.{after, after_all, IsFine, AllFine, IsAcceptedRun};
ghost use Rattle.pddl_happenings.specs.Happenings.{singles};
ghost use Rattle.pddl_happenings.specs.Serialisations.{Converges};
ghost use Rattle.pddl_happenings.specs.Splits.{IsSplitOf};

/// Once some steps of a happening that passes are done, each alone and in any order, the state is the one after them at
/// once, and it agrees with the happening's first state on what each step still to come reads.
pub fn prefix_is_free<A>()
    ensures state { (p : ℕ → Step A) → ((k : ℕ) → IsFramed (p k)) → (s : A → Bool) (g done rest : List ℕ) → IsDistinct eqb g → IsFine p s g → IsPermutation g (done ++ rest) → after_all p s (singles done) ≡ after p s done }
    ensures reads { (p : ℕ → Step A) → ((k : ℕ) → IsFramed (p k)) → (s : A → Bool) (g done rest : List ℕ) → IsDistinct eqb g → IsFine p s g → IsPermutation g (done ++ rest) → (k : ℕ) → Contains rest k → Agree (p k).reads s (after p s done) }
{}

/// Happenings that pass converge: every serialisation of them runs, to their end and at their cost.
pub fn serialisations_converge<A>()
    ensures { (p : ℕ → Step A) → ((k : ℕ) → IsFramed (p k)) → (s : A → Bool) (hs : List (List ℕ)) → IsDistinct eqb (concat hs) → AllFine p s hs → Converges p s hs }
{}

/// The groups of a split of accepted happenings are accepted, with the same end and cost.
pub fn splits_converge<A>()
    ensures { (p : ℕ → Step A) → ((k : ℕ) → IsFramed (p k)) → (goal : (A → Bool) → Bool) (start end : A → Bool) (cost : ℕ) (hs gs : List (List ℕ)) → IsDistinct eqb (concat hs) → IsAcceptedRun p goal start hs end cost → IsSplitOf hs gs → IsAcceptedRun p goal start gs end cost }
{}
