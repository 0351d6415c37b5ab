//! What holds of trees that spell declarations and actions, whatever code reads them.

ghost use Rattle.std.specs.Prelude.{◌≡◌, ◌↔◌, List, Some};
ghost use Rattle.pddl_token.specs.Trees.{Tree};
ghost use Rattle.pddl_domain.specs.Declarations.{TypeValue, Signature, FunctionValue, AreTypes, IsPredicateSignature, AreFunctions};
ghost use Rattle.pddl_domain.specs.Actions.{ActionValue, IsAction};
ghost use Rattle.pddl_declaration_reader.specs.Inner.DeclarationReading.{predicate_signature_at, types_of, functions_of};
ghost use Rattle.pddl_declaration_reader.specs.Inner.ActionReading.{action_of};

/// What the readers of declarations compute of trees is what the trees spell, and nothing where they spell none.
pub fn declarations_as_spelled()
    ensures types { (ts : List Tree) (xs : List TypeValue) → (types_of ts ≡ Some xs) ↔ AreTypes xs ts }
    ensures predicates { (t : Tree) (s : Signature) → (predicate_signature_at t ≡ Some s) ↔ IsPredicateSignature s t }
    ensures functions { (ts : List Tree) (xs : List FunctionValue) → (functions_of ts ≡ Some xs) ↔ AreFunctions xs ts }
{}

/// The same of actions.
pub fn actions_as_spelled()
    ensures { (ts : List Tree) (a : ActionValue) → (action_of ts ≡ Some a) ↔ IsAction a ts }
{}
