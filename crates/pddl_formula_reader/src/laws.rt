//! What holds of trees that spell terms, typed lists and formulas, whatever code reads them.

ghost use Rattle.std.specs.Prelude.{◌≡◌, ◌↔◌, ℕ, List, Some, true};
ghost use Rattle.pddl_token.specs.Trees.{Tree};
ghost use Rattle.pddl_items.specs.Inner.TreeReading.{name_at, variable_at, is_word_at, is_keyword_at, is_dash};
ghost use Rattle.pddl_token.specs.TreeWords.{IsWord, IsKeyword, IsDash, IsEqualSign, SpellsName, SpellsVariable};
ghost use Rattle.pddl_formula_reader.specs.declared.head.Head.TheVariants as heads;
ghost use Rattle.pddl_formula.specs.Terms.{TermValue, AtomValue, IsTerm, IsPredicate, IsAtom};
ghost use Rattle.pddl_formula.specs.TypedLists.{TypedValue, IsTypeName, IsType, AreTypedNames, AreTypedVariables, IsVariableList};
ghost use Rattle.pddl_formula.specs.Formulas.{FormulaValue, IsFormula, IsCondition};
ghost use Rattle.pddl_formula_reader.specs.Inner.Reading.{term_at, predicate_at, atom_at, type_name_at, type_at, typed_names, typed_variables, variables_at, head_at, word_head, formula_at, condition_at};

/// A tree spells at most one formula.
pub fn one_formula()
    ensures { (t : Tree) (f g : FormulaValue) → IsFormula f t → IsFormula g t → f ≡ g }
{}

/// What the readers of words compute of a tree is what the tree spells, and nothing where it spells none.
pub fn words_as_spelled()
    ensures names { (t : Tree) (name : List ℕ) → (name_at t ≡ Some name) ↔ SpellsName name t }
    ensures variables { (t : Tree) (name : List ℕ) → (variable_at t ≡ Some name) ↔ SpellsVariable name t }
    ensures words { (t : Tree) (word : List ℕ) → (is_word_at word t ≡ true) ↔ IsWord word t }
    ensures keywords { (t : Tree) (keyword : List ℕ) → (is_keyword_at keyword t ≡ true) ↔ IsKeyword keyword t }
    ensures dashes { (t : Tree) → (is_dash t ≡ true) ↔ IsDash t }
{}

/// What a tree is as the head of a list goes by the word that it is: the reserved ones have a head each, other names one for all.
pub fn heads_as_spelled()
    ensures words { (t : Tree) (word : List ℕ) → IsWord word t → head_at t ≡ word_head word }
    ensures equal { (t : Tree) → (head_at t ≡ heads.Equal) ↔ IsEqualSign t }
{}

/// The same of terms, atoms and types.
pub fn terms_as_spelled()
    ensures predicates { (t : Tree) (name : List ℕ) → (predicate_at t ≡ Some name) ↔ IsPredicate name t }
    ensures type_names { (t : Tree) (name : List ℕ) → (type_name_at t ≡ Some name) ↔ IsTypeName name t }
    ensures terms { (t : Tree) (x : TermValue) → (term_at t ≡ Some x) ↔ IsTerm x t }
    ensures atoms { (t : Tree) (a : AtomValue) → (atom_at t ≡ Some a) ↔ IsAtom a t }
    ensures types { (t : Tree) (names : List (List ℕ)) → (type_at t ≡ Some names) ↔ IsType names t }
{}

/// The same of typed lists.
pub fn typed_lists_as_spelled()
    ensures names { (ts : List Tree) (xs : List TypedValue) → (typed_names ts ≡ Some xs) ↔ AreTypedNames xs ts }
    ensures variables { (ts : List Tree) (xs : List TypedValue) → (typed_variables ts ≡ Some xs) ↔ AreTypedVariables xs ts }
    ensures variable_lists { (t : Tree) (xs : List TypedValue) → (variables_at t ≡ Some xs) ↔ IsVariableList xs t }
{}

/// The same of formulas, and of preconditions and goals.
pub fn formulas_as_spelled()
    ensures formulas { (t : Tree) (f : FormulaValue) → (formula_at t ≡ Some f) ↔ IsFormula f t }
    ensures conditions { (t : Tree) (f : FormulaValue) → (condition_at t ≡ Some f) ↔ IsCondition f t }
{}
