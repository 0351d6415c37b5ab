//! Steps by numbers and steps by names are accepted alike.

ghost use Rattle.std.specs.Prelude.{◌≡◌, ◌↔◌, ℕ, Bool, List};
ghost use Rattle.pddl_happenings.specs.Steps.{Step};
ghost use Rattle.pddl_happenings.specs.Accepted.{AllFine, after_all, cost_of_all, IsAcceptedRun, NotAccepted};
ghost use Rattle.pddl_happenings.specs.Failures.{Has, IsFirstUnready, IsFirstClash, AtHappening};
ghost use Rattle.pddl_happenings.specs.NamedSteps.{by_name, DoAsNamed};

/// Happenings of steps over numbered atoms and of the same steps over named ones, `B`, pass alike, with the same end by names
/// and the same cost, and where the goal is the same by names they are accepted or refused alike.
pub fn accepted_alike<A, B>()
    ensures fine { (number : B → A) (p : ℕ → Step A) (q : ℕ → Step B) → DoAsNamed number p q → (s : A → Bool) (gs : List (List ℕ)) → AllFine p s gs ↔ AllFine q (by_name number s) gs }
    ensures end { (number : B → A) (p : ℕ → Step A) (q : ℕ → Step B) → DoAsNamed number p q → (s : A → Bool) (gs : List (List ℕ)) → by_name number (after_all p s gs) ≡ after_all q (by_name number s) gs }
    ensures cost { (number : B → A) (p : ℕ → Step A) (q : ℕ → Step B) → DoAsNamed number p q → (s : A → Bool) (gs : List (List ℕ)) → cost_of_all p s gs ≡ cost_of_all q (by_name number s) gs }
    ensures accepted { (number : B → A) (p : ℕ → Step A) (q : ℕ → Step B) → DoAsNamed number p q → (goal : (A → Bool) → Bool) (named_goal : (B → Bool) → Bool) → ((t : A → Bool) → goal t ≡ named_goal (by_name number t)) → (s end : A → Bool) (cost : ℕ) (gs : List (List ℕ)) → IsAcceptedRun p goal s gs end cost → IsAcceptedRun q named_goal (by_name number s) gs (by_name number end) cost }
    ensures refused { (number : B → A) (p : ℕ → Step A) (q : ℕ → Step B) → DoAsNamed number p q → (goal : (A → Bool) → Bool) (named_goal : (B → Bool) → Bool) → ((t : A → Bool) → goal t ≡ named_goal (by_name number t)) → (s : A → Bool) (gs : List (List ℕ)) → NotAccepted p goal s gs → NotAccepted q named_goal (by_name number s) gs }
{}

/// Where happenings of steps over numbered atoms fail first, those of the same steps over named ones do, for the same reason.
pub fn failures_alike<A, B>()
    ensures unready { (number : B → A) (p : ℕ → Step A) (q : ℕ → Step B) → DoAsNamed number p q → (s : A → Bool) (gs : List (List ℕ)) (n step : ℕ) → AtHappening p (λ t g. IsFirstUnready p t g step) s gs n → AtHappening q (λ t g. IsFirstUnready q t g step) (by_name number s) gs n }
    ensures clash { (number : B → A) (p : ℕ → Step A) (q : ℕ → Step B) → DoAsNamed number p q → (b : B) (s : A → Bool) (gs : List (List ℕ)) (n first second : ℕ) → AtHappening p (λ t g. IsFirstClash p (Has (number b)) t g first second) s gs n → AtHappening q (λ t g. IsFirstClash q (Has b) t g first second) (by_name number s) gs n }
{}
