//! What conditions and changes mean, whatever code compiles them.

ghost use Rattle.std.specs.Prelude.{◌≡◌, ℕ, Bool, true, List, [], map, length, reverse};
ghost use Rattle.std.specs.List.{list_any, list_all};
ghost use Rattle.pddl_formula.specs.TypedLists.{TypedValue};
ghost use Rattle.pddl_formula.specs.Formulas.{FormulaValue};
ghost use Rattle.pddl_effect.specs.Effects.{EffectValue};
ghost use Rattle.pddl_task.specs.Names.{Name, is_in, number_in};
ghost use Rattle.pddl_task.specs.Valuations.{Valuation, giving};
ghost use Rattle.pddl_task.specs.Known.{formula_atoms, tested, effect_atoms};
ghost use Rattle.pddl_state.specs.Atoms.{AtomValue};
ghost use Rattle.pddl_meaning.specs.Worlds.{no_atoms, World};
ghost use Rattle.pddl_meaning.specs.Truth.{truth};
ghost use Rattle.pddl_meaning.specs.Effects.{fired, effect_cost};
ghost use Rattle.pddl_compiled.specs.CompiledMeaning.{FrameValue, is_true, some_tested, some_spoken, some_changed, spent};
ghost use Rattle.pddl_compiled.specs.Tables.{Tables, named, IsOver};
ghost use Rattle.pddl_compiled.specs.Compiler.{ScopeValue, condition_of, change_of};
ghost use Rattle.pddl_compiled.specs.Frames.{Fits, parameter_slot};

/// A condition is true where its formula is, and reads what it reads, wherever scope and frame fit the valuation.
pub fn conditions_mean_formulas()
    ensures truth { (w : World) (t : Tables) (price : AtomValue → ℕ) → IsOver t w price → (s : AtomValue → Bool)
        → (f : FormulaValue) (v : Valuation) (scope : ScopeValue) (env : FrameValue) → Fits t v scope env
        → is_true s (condition_of t f scope) env ≡ truth w.fit (named t s) f v }
    ensures reads { (w : World) (t : Tables) (price : AtomValue → ℕ) → IsOver t w price → (test : AtomValue → Bool)
        → (f : FormulaValue) (v : Valuation) (scope : ScopeValue) (env : FrameValue) → Fits t v scope env
        → some_tested (condition_of t f scope) test env ≡ list_any (named t test) (formula_atoms w.fit f v) }
{}

/// A change reads, adds, deletes and costs what its effect does.
pub fn changes_mean_effects()
    ensures spoken { (w : World) (t : Tables) (price : AtomValue → ℕ) → IsOver t w price → (read added deleted : AtomValue → Bool)
        → (e : EffectValue) (v : Valuation) (scope : ScopeValue) (env : FrameValue) → Fits t v scope env
        → some_spoken (change_of t e scope) read added deleted env ≡ list_any (tested (named t read) (named t added) (named t deleted)) (effect_atoms w.fit e v) }
    ensures fired { (w : World) (t : Tables) (price : AtomValue → ℕ) → IsOver t w price → (s added deleted : AtomValue → Bool)
        → (e : EffectValue) (v : Valuation) (scope : ScopeValue) (env : FrameValue) → Fits t v scope env
        → some_changed s (change_of t e scope) added deleted env ≡ list_any (tested no_atoms (named t added) (named t deleted)) (fired w.fit (named t s) e v) }
    ensures cost { (w : World) (t : Tables) (price : AtomValue → ℕ) → IsOver t w price → (s : AtomValue → Bool)
        → (e : EffectValue) (v : Valuation) (scope : ScopeValue) (env : FrameValue) → Fits t v scope env
        → spent price s (change_of t e scope) env ≡ effect_cost w (named t s) e v }
{}

/// An action's parameters, each with a place in the frame, and the numbers of a step's objects, both turned round, fit what the step
/// gives them.
pub fn parameters_fit()
    ensures { (t : Tables) (xs : List TypedValue) (os : List Name) → length os ≡ length xs → list_all (is_in t.objects) os ≡ true
        → Fits t (giving xs os []) (reverse (map parameter_slot xs)) (reverse (map (number_in t.objects) os)) }
{}
