//! What holds of types, and of what fits them.

ghost use Rattle.std.specs.Prelude.{◌≡◌, ◌↔◌, List, [], map, true, bytes_eq, Contains, IsTrue};
ghost use Rattle.std.specs.List.{IsDistinct};
ghost use Rattle.pddl_formula.specs.TypedLists.{TypedValue};
ghost use Rattle.pddl_domain.specs.Declarations.{TypeValue};
ghost use Rattle.pddl_domain.specs.Domains.{DomainValue};
ghost use Rattle.pddl_task.specs.Names.{Name, item_of};
ghost use Rattle.pddl_task.specs.Types.{Under, Above, IsSubtype, pairs, is_under, is_cyclic, is_subtype, fits, fitting};
ghost use Rattle.pddl_task.specs.Faults.{type_cycles};
ghost use Rattle.pddl_task.specs.Linked.{IsGood};

/// A type is under itself.
pub fn under_is_reflexive()
    ensures { (ps : List TypeValue) (t : Name) → Under ps t t }
{}

/// A type under one that is under a third is under the third.
pub fn under_is_transitive()
    ensures { (ps : List TypeValue) (t u v : Name) → Under ps t u → Under ps u v → Under ps t v }
{}

/// A declared type is under its parent.
pub fn parents_are_above()
    ensures { (declared : List TypeValue) (e : TypeValue) → Contains declared e → Under (pairs declared) e.item e.of }
{}

/// The test finds exactly what is under a type: no way up that comes to no type twice has more steps than there are pairs.
pub fn is_under_decides()
    ensures { (ps : List TypeValue) (t u : Name) → (is_under ps t u ≡ true) ↔ Under ps t u }
{}

/// The test finds exactly the subtypes among a domain's types.
pub fn is_subtype_decides()
    ensures { (declared : List TypeValue) (t u : Name) → IsTrue (is_subtype declared t u) ↔ IsSubtype declared t u }
{}

/// The test finds exactly the types that are above themselves.
pub fn is_cyclic_decides()
    ensures { (ps : List TypeValue) (t : Name) → (is_cyclic ps t ≡ true) ↔ Above ps t t }
{}

/// Where any type is above itself, be it declared or not, the fault TypeCycle stands.
pub fn cycles_are_faults()
    ensures { (d : DomainValue) (t : Name) → Above (pairs d.types) t t → type_cycles d ≡ [] → ⊥ }
{}

/// What fits a slot is what has each of its primitive types under one of the slot's.
pub fn fits_decides()
    ensures { (ps : List TypeValue) (types slot : List Name)
        → (fits ps types slot ≡ true) ↔ ((t : Name) → Contains types t → (u : Name) × Contains slot u × Under ps t u) }
{}

/// The objects that fit are those of the objects that do, in whatever place.
pub fn fitting_decides()
    ensures { (ps : List TypeValue) (objects : List TypedValue) (slot : List Name) (x : TypedValue)
        → Contains (fitting ps objects slot) x ↔ (Contains objects x × (fits ps x.of slot ≡ true)) }
{}

/// In a domain that is good alone each type is declared once, and so has one parent.
pub fn types_stand_once()
    ensures { (d : DomainValue) → IsGood d → IsDistinct bytes_eq (map item_of d.types) }
{}
