//! Plans that have the steps of an accepted plan in another order.

ghost use Rattle.std.specs.Prelude.{◌≡◌, ℕ, Bool, List, Some, length, map, eqb};
ghost use Rattle.std.specs.List.{IsDistinct, concat};
ghost use Rattle.pddl_happenings.specs.Steps.{Step, IsFramed};
ghost use Rattle.pddl_happenings.specs.Accepted.{IsAcceptedRun};
ghost use Rattle.pddl_happenings.specs.Happenings.{numbers_to, plain_happenings, AreOfTimed};
ghost use Rattle.pddl_happenings.specs.Serialisations.{IsSerialOrder};
ghost use Rattle.pddl_happenings.specs.Splits.{IsSplitOf, AreStepsOf, numbered, split_moments};

/// The plain plan of the steps of accepted happenings, in the order of a serialisation, is accepted with the same end and cost.
pub fn serial_plan_accepted<A>()
    ensures { (p q : ℕ → Step A) → ((k : ℕ) → IsFramed (p k)) → (goal : (A → Bool) → Bool) (start end : A → Bool) (cost : ℕ) (hs : List (List ℕ)) (order : List ℕ) → IsDistinct eqb (concat hs) → IsAcceptedRun p goal start hs end cost → IsSerialOrder hs order → AreStepsOf p q order → IsAcceptedRun q goal start (plain_happenings (length order)) end cost }
{}

/// The plan of the steps of a split of accepted happenings, its groups in turn by their new numbers, is accepted with the
/// same end and cost.
pub fn split_plan_accepted<A>()
    ensures { (p q : ℕ → Step A) → ((k : ℕ) → IsFramed (p k)) → (goal : (A → Bool) → Bool) (start end : A → Bool) (cost : ℕ) (hs gs : List (List ℕ)) → IsDistinct eqb (concat hs) → IsAcceptedRun p goal start hs end cost → IsSplitOf hs gs → AreStepsOf p q (concat gs) → IsAcceptedRun q goal start (numbered 0 gs) end cost }
{}

/// The groups of a split, by their new numbers, are the happenings of the timed plan in which the k-th group has the moment
/// k, from 1.
pub fn split_plan_happenings()
    ensures { (hs gs : List (List ℕ)) → IsSplitOf hs gs → AreOfTimed (split_moments 1 gs) (map (λ m. Some m) (numbers_to 1 (length gs))) (numbered 0 gs) }
{}
