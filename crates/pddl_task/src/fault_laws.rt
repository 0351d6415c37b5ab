//! What holds of faults, and of the lowest that stands.

ghost use Rattle.std.specs.Prelude.{◌≡◌, ◌≤◌, ◌↔◌, ◌⊎◌, ◌||◌, [], ◌∷◌, ◌++◌, ℕ, List, Contains, map};
ghost use Rattle.std.specs.List.{flat_map, list_any};
ghost use Rattle.pddl_formula.specs.TypedLists.{TypedValue};
ghost use Rattle.pddl_domain.specs.Actions.{ActionValue};
ghost use Rattle.pddl_domain.specs.Domains.{DomainValue};
ghost use Rattle.pddl_problem.specs.Inits.{InitValue};
ghost use Rattle.pddl_problem.specs.Problems.{ProblemValue};
ghost use Rattle.pddl_task.specs.Names.{Name, is_in, item_of, repeated, IsWrongBehind};
ghost use Rattle.pddl_task.specs.Places.{action_places};
ghost use Rattle.pddl_task.specs.Faults.{has_other_type, retyped, repeated_at, repeated_in_actions, init_name, contradicts, clashing, starts_above_zero, revalues, wrong_values};
ghost use Rattle.pddl_task.specs.Linked.{Fault, faults, domain_faults, NoneStands, Stands, IsLowest, IsLinked, IsGood};

/// Of faults, at most one number is the lowest that stands.
pub fn one_lowest()
    ensures { (fs : List Fault) (n m : ℕ) (v w : Name) → IsLowest fs n v → IsLowest fs m w → n ≡ m }
{}

/// Where no fault stands, none is the lowest.
pub fn none_is_lowest()
    ensures { (fs : List Fault) (n : ℕ) (w : Name) → NoneStands fs → IsLowest fs n w → ⊥ }
{}

/// Either no fault stands, as in linked files and in a domain that is good alone, or one is the lowest.
pub fn linked_or_lowest()
    ensures { (fs : List Fault) → NoneStands fs ⊎ ((n : ℕ) × (w : Name) × IsLowest fs n w) }
{}

/// A fault of a domain alone is a fault of the domain with any problem.
pub fn domain_faults_are_faults()
    ensures { (d : DomainValue) (p : ProblemValue) (n : ℕ) (w : Name) → Stands (domain_faults d) n w → Stands (faults d p) n w }
{}

/// The domain of linked files is good alone.
pub fn linked_domain_is_good()
    ensures { (d : DomainValue) (p : ProblemValue) → IsLinked d p → IsGood d }
{}

/// Of faults by rising number, the first that stands is the lowest.
pub fn first_is_lowest()
    ensures { (before : List Fault) (f : Fault) (after : List Fault) (w : Name) → NoneStands before → Contains f.words w
        → ((g : Fault) → Contains after g → f.number ≤ g.number) → IsLowest (before ++ f ∷ after) f.number w }
{}

/// The words of items that are wrong behind those before them: a name that stands before it, another type, a contradiction, another value.
/// Each is that of an item at a place of the list which is wrong there, and each such item has its word among them.
///
/// `names`, `typed`, `contradictions` and `values` say so of the four, and `actions` that the words of actions are those of their names and of the
/// variables that stand twice in them.
pub fn words_of_later_items()
    ensures names { (names : List Name) (w : Name) → Contains (repeated [] names) w ↔ IsWrongBehind is_in (λ n. n) names w }
    ensures typed { (xs : List TypedValue) (w : Name) → Contains (retyped [] xs) w ↔ IsWrongBehind has_other_type item_of xs w }
    ensures contradictions { (is : List InitValue) (w : Name) → Contains (clashing contradicts [] is) w
        ↔ IsWrongBehind (λ before i. list_any (contradicts i) before) init_name is w }
    ensures values { (is : List InitValue) (w : Name) → Contains (wrong_values [] is) w
        ↔ IsWrongBehind (λ before i. starts_above_zero i || list_any (revalues i) before) init_name is w }
    ensures actions { (actions : List ActionValue) (w : Name) → Contains (repeated_in_actions [] actions) w
        ↔ (Contains (repeated [] (map (λ a. a.name) actions)) w ⊎ Contains (flat_map repeated_at (flat_map action_places actions)) w) }
{}
