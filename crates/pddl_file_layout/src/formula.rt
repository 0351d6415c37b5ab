//! The canonical texts of terms, typed lists and formulas.

ghost use Rattle.std.specs.Prelude.{◌++◌, IsTrue, map, codes};
ghost use Rattle.std.specs.List.{list_all};
ghost use Rattle.pddl_token.specs.Names.{is_name};
ghost use Rattle.pddl_formula.specs.Reserved.{is_type};
ghost use Rattle.pddl_formula.specs.Terms.{term_view, atom_view};
ghost use Rattle.pddl_formula.specs.TypedLists.{typed_view};
ghost use Rattle.pddl_formula.specs.Formulas.{formula_view};
ghost use Rattle.pddl_file_layout.specs.FormulaValues.{is_term, is_atom, is_typed, is_formula};
ghost use Rattle.pddl_file_layout.specs.Inner.Printing.{Puts};
ghost use Rattle.pddl_file_layout.specs.Inner.Texts.{spaced_by, word_text, term_text, atom_text, type_text, typed_text, variables_text, formula_text};

use crate::printing::{put, put_both};
use pddl_device::Sink;
use pddl_formula::{Atom, Formula, Term, TypeName, TypeNames, Typed};
use pddl_token::Name;
use std::alloc::Allocator;

/// Writes names, each behind a space.
pub fn put_names<A: Allocator, W: Sink>(out: &mut W, failed: &mut bool, names: &[Name<A>])
    ensures printed { Puts (W.contents out.old) (W.contents out.new) (W.failures out.old) (W.failures out.new) failed.old failed.new (spaced_by word_text names.now) }
    ensures good { IsTrue (list_all is_name names.now) }
{
    for name in names {
        put_both(out, failed, b" ", name.as_bytes());
    }
}

/// Writes a term: a name, or `?` and a name.
fn put_term<A: Allocator, W: Sink>(out: &mut W, failed: &mut bool, term: &Term<A>)
    ensures printed { Puts (W.contents out.old) (W.contents out.new) (W.failures out.old) (W.failures out.new) failed.old failed.new (term_text (term_view term.now)) }
    ensures good { IsTrue (is_term (term_view term.now)) }
{
    match term {
        Term::Name(name) => put(out, failed, name.as_bytes()),
        Term::Variable(name) => {
            put(out, failed, b"?");
            put(out, failed, name.as_bytes());
        }
    }
}

/// Writes terms, each behind a space.
pub fn put_terms<A: Allocator, W: Sink>(out: &mut W, failed: &mut bool, terms: &[Term<A>])
    ensures printed { Puts (W.contents out.old) (W.contents out.new) (W.failures out.old) (W.failures out.new) failed.old failed.new (spaced_by term_text (map term_view terms.now)) }
    ensures good { IsTrue (list_all is_term (map term_view terms.now)) }
{
    for term in terms {
        put(out, failed, b" ");
        put_term(out, failed, term);
    }
}

/// Writes an atom.
pub fn put_atom<A: Allocator, W: Sink>(out: &mut W, failed: &mut bool, atom: &Atom<A>)
    ensures printed { Puts (W.contents out.old) (W.contents out.new) (W.failures out.old) (W.failures out.new) failed.old failed.new (atom_text (atom_view atom.now)) }
    ensures good { IsTrue (is_atom (atom_view atom.now)) }
{
    put_both(out, failed, b"(", atom.predicate.as_bytes());
    put_terms(out, failed, &atom.terms);
    put(out, failed, b")");
}

/// Writes primitive types, each behind a space.
fn put_type_names<A: Allocator, W: Sink>(out: &mut W, failed: &mut bool, names: &[TypeName<A>])
    ensures { Puts (W.contents out.old) (W.contents out.new) (W.failures out.old) (W.failures out.new) failed.old failed.new (spaced_by word_text names.now) }
{
    for name in names {
        put_both(out, failed, b" ", name.as_bytes());
    }
}

/// Writes a type: one primitive type as its name, several behind `either`.
pub fn put_type<A: Allocator, W: Sink>(out: &mut W, failed: &mut bool, types: &TypeNames<A>)
    ensures printed { Puts (W.contents out.old) (W.contents out.new) (W.failures out.old) (W.failures out.new) failed.old failed.new (type_text types.now) }
    ensures good { IsTrue (is_type types.now) }
{
    let names = types.as_slice();
    if names.len() == 1 {
        put(out, failed, names[0].as_bytes());
    } else {
        put(out, failed, b"(either");
        put_type_names(out, failed, names);
        put(out, failed, b")");
    }
}

/// Writes an item of a typed list behind a sign: `?` before a variable, nothing before a name.
fn put_typed<A: Allocator, W: Sink>(out: &mut W, failed: &mut bool, sign: &[u8], item: &Typed<A>)
    ensures printed { Puts (W.contents out.old) (W.contents out.new) (W.failures out.old) (W.failures out.new) failed.old failed.new (typed_text sign.now (typed_view item.now)) }
    ensures good { IsTrue (is_typed (typed_view item.now)) }
{
    put(out, failed, sign);
    put(out, failed, item.name.as_bytes());
    put(out, failed, b" - ");
    put_type(out, failed, &item.types);
}

/// Writes the items of a typed list, each behind a space and a sign.
pub fn put_typed_list<A: Allocator, W: Sink>(
    out: &mut W,
    failed: &mut bool,
    sign: &[u8],
    items: &[Typed<A>],
)
    ensures printed { Puts (W.contents out.old) (W.contents out.new) (W.failures out.old) (W.failures out.new) failed.old failed.new (spaced_by (typed_text sign.now) (map typed_view items.now)) }
    ensures good { IsTrue (list_all is_typed (map typed_view items.now)) }
{
    for item in items {
        put(out, failed, b" ");
        put_typed(out, failed, sign, item);
    }
}

/// Writes a list of typed variables, in parentheses.
pub fn put_variables<A: Allocator, W: Sink>(out: &mut W, failed: &mut bool, variables: &[Typed<A>])
    ensures printed { Puts (W.contents out.old) (W.contents out.new) (W.failures out.old) (W.failures out.new) failed.old failed.new (variables_text (map typed_view variables.now)) }
    ensures good { IsTrue (list_all is_typed (map typed_view variables.now)) }
{
    match variables {
        [] => put(out, failed, b"()"),
        [first, rest @ ..] => {
            put(out, failed, b"(");
            put_typed(out, failed, b"?", first);
            put_typed_list(out, failed, b"?", rest);
            put(out, failed, b")");
        }
    }
}

/// Writes what stands before the part of a quantified formula or effect, of which this is the opening.
pub fn put_quantifier<A: Allocator, W: Sink>(
    out: &mut W,
    failed: &mut bool,
    opening: &[u8],
    variables: &[Typed<A>],
)
    ensures printed { Puts (W.contents out.old) (W.contents out.new) (W.failures out.old) (W.failures out.new) failed.old failed.new (opening.now ++ (variables_text (map typed_view variables.now) ++ codes " ")) }
    ensures good { IsTrue (list_all is_typed (map typed_view variables.now)) }
{
    put(out, failed, opening);
    put_variables(out, failed, variables);
    put(out, failed, b" ");
}

/// Writes a formula.
#[cycle(formula)]
pub fn put_formula<A: Allocator, W: Sink>(out: &mut W, failed: &mut bool, formula: &Formula<A>)
    ensures printed { Puts (W.contents out.old) (W.contents out.new) (W.failures out.old) (W.failures out.new) failed.old failed.new (formula_text (formula_view formula.now)) }
    ensures good { IsTrue (is_formula (formula_view formula.now)) }
{
    match formula {
        Formula::Atom(atom) => put_atom(out, failed, atom),
        Formula::Equal(left, right) => {
            put(out, failed, b"(= ");
            put_term(out, failed, left);
            put(out, failed, b" ");
            put_term(out, failed, right);
            put(out, failed, b")");
        }
        Formula::Not(part) => {
            put(out, failed, b"(not ");
            put_formula(out, failed, part);
            put(out, failed, b")");
        }
        Formula::Imply(left, right) => {
            put(out, failed, b"(imply ");
            put_formula(out, failed, left);
            put(out, failed, b" ");
            put_formula(out, failed, right);
            put(out, failed, b")");
        }
        Formula::And(parts) => put_joined(out, failed, b"(and", parts),
        Formula::Or(parts) => put_joined(out, failed, b"(or", parts),
        Formula::Exists(variables, part) => {
            put_quantified(out, failed, b"(exists ", variables, part);
        }
        Formula::Forall(variables, part) => {
            put_quantified(out, failed, b"(forall ", variables, part);
        }
    }
}

/// Writes formulas behind an opening, which says how they are joined.
#[cycle(formula)]
fn put_joined<A: Allocator, W: Sink>(
    out: &mut W,
    failed: &mut bool,
    opening: &[u8],
    parts: &[Formula<A>],
)
    ensures printed { Puts (W.contents out.old) (W.contents out.new) (W.failures out.old) (W.failures out.new) failed.old failed.new (opening.now ++ (spaced_by formula_text (map formula_view parts.now) ++ codes ")")) }
    ensures good { IsTrue (list_all is_formula (map formula_view parts.now)) }
{
    put(out, failed, opening);
    put_formulas(out, failed, parts);
    put(out, failed, b")");
}

/// Writes a quantified formula behind its opening.
#[cycle(formula)]
fn put_quantified<A: Allocator, W: Sink>(
    out: &mut W,
    failed: &mut bool,
    opening: &[u8],
    variables: &[Typed<A>],
    part: &Formula<A>,
)
    ensures printed { Puts (W.contents out.old) (W.contents out.new) (W.failures out.old) (W.failures out.new) failed.old failed.new ((opening.now ++ (variables_text (map typed_view variables.now) ++ codes " ")) ++ (formula_text (formula_view part.now) ++ codes ")")) }
    ensures variables_good { IsTrue (list_all is_typed (map typed_view variables.now)) }
    ensures part_good { IsTrue (is_formula (formula_view part.now)) }
{
    put_quantifier(out, failed, opening, variables);
    put_formula(out, failed, part);
    put(out, failed, b")");
}

/// Writes formulas, each behind a space.
#[cycle(formula)]
fn put_formulas<A: Allocator, W: Sink>(out: &mut W, failed: &mut bool, formulas: &[Formula<A>])
    ensures printed { Puts (W.contents out.old) (W.contents out.new) (W.failures out.old) (W.failures out.new) failed.old failed.new (spaced_by formula_text (map formula_view formulas.now)) }
    ensures good { IsTrue (list_all is_formula (map formula_view formulas.now)) }
{
    for formula in formulas {
        put(out, failed, b" ");
        put_formula(out, failed, formula);
    }
}
