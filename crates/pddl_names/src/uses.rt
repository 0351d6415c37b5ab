//! What is looked for at one place: names that are not known, other numbers of terms than declared, terms that do not fit their slots, and numbers that are
//! not whole, with one look-up of each name; and variables that are bound.

ghost use Rattle.std.specs.Prelude.{◌≡◌, [], ◌∷◌, map, drop, length, IfOk, MatchResult, flat_map};
ghost use Rattle.pddl_formula.specs.Terms.{term_view};
ghost use Rattle.pddl_formula.specs.TypedLists.{typed_view};
ghost use Rattle.pddl_task.specs.Names.{item_of, repeated};
ghost use Rattle.pddl_task.specs.Places.{at, binding};
ghost use Rattle.pddl_task.specs.Faults.{typed_term, unknown_term};
ghost use Rattle.pddl_faults.specs.Passes.{Passes};
ghost use Rattle.pddl_faults.specs.Found.{IsFound, numbered};
ghost use Rattle.pddl_names.specs.Parts.{term_in, terms_in, part_in};
ghost use Rattle.pddl_names.specs.Scopes.{bound_in};
ghost use Rattle.pddl_types.specs.KnownNames.{signature_in};
ghost use Rattle.pddl_types.specs.Told.{ToldValue, unknown_among};
ghost use Rattle.pddl_types.specs.Objects.{IsAtOf};
ghost use Rattle.pddl_types.specs.Signatures.{AreSlotsAt};
ghost use Rattle.pddl_names.specs.Uses.{setting_of, faults_by, faults_of_use, AreAllTold};

use crate::part::{LentTerm, Part, Terms};
use crate::scope::Scope;
use pddl_faults::{LinkFault, lower};
use pddl_formula::{Term, TypedList};
use pddl_types::{Known, Signatures, Told};
use std::alloc::Allocator;

/// The number at which the type of a term is told; `None` where the term is not known.
fn type_of<'m, 'a, A: Allocator, B: Allocator>(
    known: &Known<'m, 'a, A, B>,
    scope: &Scope<'m, 'a, A, B>,
    term: LentTerm<'_>,
) -> Option<usize>
    ensures { (told : ToldValue) → AreAllTold known.now told scope.now → IsAtOf told (typed_term (setting_of known.now) (bound_in scope.now) (term_in term.entry)) result }
{
    if term.is_variable {
        scope.number_of(term.name)
    } else {
        known.listed.type_of(term.name)
    }
}

/// The lowest of the faults of a predicate or a function with its terms. A term without a slot, or a slot without a term, is another fault than one that
/// does not fit.
pub(crate) fn look_at_use<'m, 'a, 'd, A: Allocator, B: Allocator>(
    known: &Known<'m, 'a, A, B>,
    told: &mut Told<'m, 'a, A, B>,
    scope: &Scope<'m, 'a, A, B>,
    declared: &Signatures<'m, 'a, A, B>,
    symbol: &'d [u8],
    terms: &Terms<'d, A>,
) -> Result<(), LinkFault<'d>>
    requires told { AreAllTold known.now told.old scope.now }
    requires slots { AreSlotsAt told.old declared.now.entries }
    ensures kept { told.new ≡ told.old }
    ensures found { IsFound (faults_of_use (setting_of known.now) (bound_in scope.now) (record { name = symbol.now; terms = terms_in terms.now; declared = map signature_in declared.now.entries })) result }
{
    let Some(slots) = declared.get(symbol) else {
        return Err(LinkFault::UnknownName(symbol));
    };
    let mut all_fit = true;
    for i in 0..terms.len() {
        let term = terms.at(i);
        let Some(number) = type_of(known, scope, term) else {
            return Err(LinkFault::UnknownName(term.name));
        };
        if let Some(slot) = slots.numbers.get(i) {
            all_fit &= told.fits(&known.types, number, *slot)?;
        }
    }
    if terms.len() != slots.parameters.len() {
        Err(LinkFault::Arity(symbol))
    } else if all_fit {
        Ok(())
    } else {
        Err(LinkFault::ArgumentType(symbol))
    }
}

/// A term is known.
#[tactic(auto, using(crate::proofs::TermSlots::known_term, crate::proofs::TermSlots::unknown_word))]
fn look_at_term<'m, 'a, 'd, A: Allocator, B: Allocator>(
    known: &Known<'m, 'a, A, B>,
    scope: &Scope<'m, 'a, A, B>,
    term: &'d Term<A>,
) -> Result<(), LinkFault<'d>>
    ensures { (told : ToldValue) → AreAllTold known.now told scope.now → Passes 26 (unknown_term (setting_of known.now) (bound_in scope.now) (term_view term.now)) result }
{
    let term = LentTerm::of(term);
    match type_of(known, scope, term) {
        Some(_) => Ok(()),
        None => Err(LinkFault::UnknownName(term.name)),
    }
}

/// The lowest of the faults that stand at a place.
pub(crate) fn look<'m, 'a, 'd, A: Allocator, B: Allocator>(
    known: &Known<'m, 'a, A, B>,
    told: &mut Told<'m, 'a, A, B>,
    scope: &Scope<'m, 'a, A, B>,
    part: &Part<'d, A>,
) -> Result<(), LinkFault<'d>>
    requires { AreAllTold known.now told.old scope.now }
    ensures kept { told.new ≡ told.old }
    ensures found { IsFound (flat_map (faults_by known.now) (at (bound_in scope.now) (part_in part.now) ∷ [])) result }
{
    match part {
        Part::Says(predicate, terms) => {
            let terms = Terms::Any(*terms);
            look_at_use(known, told, scope, &known.predicates, *predicate, &terms)
        }
        Part::Calls(function, terms) => {
            let terms = Terms::Any(*terms);
            look_at_use(known, told, scope, &known.functions, *function, &terms)
        }
        Part::Equates(first, second) => {
            let first = look_at_term(known, scope, *first);
            lower(first, look_at_term(known, scope, *second))
        }
        Part::Counts(function, amount) => if amount.billionths() % 1_000_000_000 == 0 {
            Ok(())
        } else {
            Err(LinkFault::FractionalCost(*function))
        },
    }
}

/// Binds the variables of a list. Answers the fault of one that stands twice in it.
///
/// # Errors
///
/// `LinkFault::UnknownType`; `Memory` where memory is refused. Then none of them is bound.
pub(crate) fn enter<'m, 'a, A: Allocator, B: Allocator>(
    known: &Known<'m, 'a, A, B>,
    told: &mut Told<'m, 'a, A, B>,
    scope: &mut Scope<'m, 'a, A, B>,
    variables: &'m TypedList<A>,
) -> Result<Result<(), LinkFault<'m>>, LinkFault<'m>>
    requires { AreAllTold known.now told.old scope.old }
    ensures told { AreAllTold known.now told.new scope.new }
    ensures passes { Passes 23 (unknown_among known.now.types.declared (map typed_view variables.now.items)) result }
    ensures found { IfOk result (IsFound (numbered 24 (repeated [] (map item_of (map typed_view variables.now.items))))) }
    ensures bound { MatchResult result (λ _. bound_in scope.new ≡ binding (map typed_view variables.now.items) (bound_in scope.old)) (λ _. scope.new ≡ scope.old) }
    ensures left { IfOk result (λ _. drop (length variables.now.items) scope.new ≡ scope.old) }
{
    let numbers = told.tell_all(known.types.allocator(), &known.types, variables)?;
    let repeated = scope.enter(variables, &numbers)?;
    Ok(repeated)
}
