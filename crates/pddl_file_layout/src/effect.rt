//! The canonical texts of amounts and effects.

ghost use Rattle.std.specs.Prelude.{IsTrue, map};
ghost use Rattle.std.specs.List.{list_all};
ghost use Rattle.pddl_effect.specs.Effects.{amount_view, function_term_view, effect_view};
ghost use Rattle.pddl_file_layout.specs.FormulaValues.{is_function_term, is_amount, is_effect};
ghost use Rattle.pddl_file_layout.specs.Inner.Printing.{Puts};
ghost use Rattle.pddl_file_layout.specs.Inner.Texts.{spaced_by, function_term_text, amount_text, effect_text};

use crate::formula::{put_atom, put_formula, put_quantifier, put_terms};
use crate::printing::{put, put_both, put_number};
use pddl_device::Sink;
use pddl_effect::{Amount, Effect, FunctionTerm};
use std::alloc::Allocator;

/// Writes a function of terms, in parentheses also where it has none.
fn put_function_term<A: Allocator, W: Sink>(
    out: &mut W,
    failed: &mut bool,
    function: &FunctionTerm<A>,
)
    ensures printed { Puts (W.contents out.old) (W.contents out.new) (W.failures out.old) (W.failures out.new) failed.old failed.new (function_term_text (function_term_view function.now)) }
    ensures good { IsTrue (is_function_term (function_term_view function.now)) }
{
    put_both(out, failed, b"(", function.function.as_bytes());
    put_terms(out, failed, &function.terms);
    put(out, failed, b")");
}

/// Writes what an increase adds.
fn put_amount<A: Allocator, W: Sink>(out: &mut W, failed: &mut bool, amount: &Amount<A>)
    ensures printed { Puts (W.contents out.old) (W.contents out.new) (W.failures out.old) (W.failures out.new) failed.old failed.new (amount_text (amount_view amount.now)) }
    ensures good { IsTrue (is_amount (amount_view amount.now)) }
{
    match amount {
        Amount::Number(number) => put_number(out, failed, *number),
        Amount::Function(function) => put_function_term(out, failed, function),
    }
}

/// Writes an effect.
#[cycle(effect)]
pub fn put_effect<A: Allocator, W: Sink>(out: &mut W, failed: &mut bool, effect: &Effect<A>)
    ensures printed { Puts (W.contents out.old) (W.contents out.new) (W.failures out.old) (W.failures out.new) failed.old failed.new (effect_text (effect_view effect.now)) }
    ensures good { IsTrue (is_effect (effect_view effect.now)) }
{
    match effect {
        Effect::Forall(variables, part) => {
            put_quantifier(out, failed, b"(forall ", variables);
            put_effect(out, failed, part);
            put(out, failed, b")");
        }
        Effect::When(condition, part) => {
            put(out, failed, b"(when ");
            put_formula(out, failed, condition);
            put(out, failed, b" ");
            put_effect(out, failed, part);
            put(out, failed, b")");
        }
        Effect::Add(atom) => put_atom(out, failed, atom),
        Effect::Del(atom) => {
            put(out, failed, b"(not ");
            put_atom(out, failed, atom);
            put(out, failed, b")");
        }
        Effect::Increase(amount) => {
            put(out, failed, b"(increase (total-cost) ");
            put_amount(out, failed, amount);
            put(out, failed, b")");
        }
        Effect::And(parts) => {
            put(out, failed, b"(and");
            put_effects(out, failed, parts);
            put(out, failed, b")");
        }
    }
}

/// Writes effects, each behind a space.
#[cycle(effect)]
fn put_effects<A: Allocator, W: Sink>(out: &mut W, failed: &mut bool, effects: &Vec<Effect<A>, A>)
    ensures printed { Puts (W.contents out.old) (W.contents out.new) (W.failures out.old) (W.failures out.new) failed.old failed.new (spaced_by effect_text (map effect_view effects.now.items)) }
    ensures good { IsTrue (list_all is_effect (map effect_view effects.now.items)) }
{
    for effect in effects {
        put(out, failed, b" ");
        put_effect(out, failed, effect);
    }
}
