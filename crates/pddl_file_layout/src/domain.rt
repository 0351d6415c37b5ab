//! The canonical text of domains.

ghost use Rattle.std.specs.Prelude.{◌≡◌, ◌≤◌, IsTrue, IfOk, OnOk, OnErr, map, vec_len, codes};
ghost use Rattle.std.specs.List.{list_all, flat_map};
ghost use Rattle.std.specs.Io.KnownBytes.{Appends};
ghost use Rattle.pddl_device.specs.Device.{AppendsBeginning, HasFailed};
ghost use Rattle.pddl_text.specs.Lists.{deepest};
ghost use Rattle.pddl_text.specs.Pieces.{IsWithin};
ghost use Rattle.pddl_domain.specs.Declarations.{type_view, predicate_view, function_view};
ghost use Rattle.pddl_domain.specs.Actions.{action_view};
ghost use Rattle.pddl_domain.specs.Domains.{domain_view};
ghost use Rattle.pddl_domain_reader.specs.DomainTexts.{SpellsDomain};
ghost use Rattle.pddl_file_layout.specs.DomainLayout.{is_declared_type, is_declared_predicate, is_declared_function, is_action, is_domain, domain_tree, domain_text};
ghost use Rattle.pddl_file_layout.specs.Inner.Printing.{Puts};
ghost use Rattle.pddl_file_layout.specs.Inner.Texts.{spaced_by, section_text, declared_type_text, signature_text, function_text, action_lines};

use crate::effect::put_effect;
use crate::formula::{put_formula, put_type, put_typed_list, put_variables};
use crate::printing::{put, put_both};
use crate::section::{put_objects, put_requirements};
use pddl_device::{Sink, ToWrite, WriteFault};
use pddl_domain::{Action, DeclaredFunction, DeclaredPredicate, DeclaredType, Domain};
use pddl_scan::LONGEST;
use std::alloc::{AllocError, Allocator};

/// Writes declared types, each behind a space and with its parent.
fn put_type_list<A: Allocator, W: Sink>(out: &mut W, failed: &mut bool, types: &[DeclaredType<A>])
    ensures printed { Puts (W.contents out.old) (W.contents out.new) (W.failures out.old) (W.failures out.new) failed.old failed.new (spaced_by declared_type_text (map type_view types.now)) }
    ensures good { IsTrue (list_all is_declared_type (map type_view types.now)) }
{
    for declared in types {
        put(out, failed, b" ");
        put(out, failed, declared.name.as_bytes());
        put(out, failed, b" - ");
        put(out, failed, declared.parent.as_bytes());
    }
}

/// Writes the section of types, where there are some.
fn put_types<A: Allocator, W: Sink>(out: &mut W, failed: &mut bool, types: &[DeclaredType<A>])
    ensures printed { Puts (W.contents out.old) (W.contents out.new) (W.failures out.old) (W.failures out.new) failed.old failed.new (section_text (codes "  (:types") declared_type_text (map type_view types.now)) }
    ensures good { IsTrue (list_all is_declared_type (map type_view types.now)) }
{
    if types.len() == 0 {
        return;
    }
    put(out, failed, b"  (:types");
    put_type_list(out, failed, types);
    put(out, failed, b")\n");
}

/// Writes a declared predicate.
fn put_predicate<A: Allocator, W: Sink>(
    out: &mut W,
    failed: &mut bool,
    declared: &DeclaredPredicate<A>,
)
    ensures printed { Puts (W.contents out.old) (W.contents out.new) (W.failures out.old) (W.failures out.new) failed.old failed.new (signature_text (predicate_view declared.now)) }
    ensures good { IsTrue (is_declared_predicate (predicate_view declared.now)) }
{
    put_both(out, failed, b"(", declared.predicate.as_bytes());
    put_typed_list(out, failed, b"?", &declared.parameters);
    put(out, failed, b")");
}

/// Writes declared predicates, each behind a space.
fn put_predicate_list<A: Allocator, W: Sink>(
    out: &mut W,
    failed: &mut bool,
    predicates: &[DeclaredPredicate<A>],
)
    ensures printed { Puts (W.contents out.old) (W.contents out.new) (W.failures out.old) (W.failures out.new) failed.old failed.new (spaced_by signature_text (map predicate_view predicates.now)) }
    ensures good { IsTrue (list_all is_declared_predicate (map predicate_view predicates.now)) }
{
    for declared in predicates {
        put(out, failed, b" ");
        put_predicate(out, failed, declared);
    }
}

/// Writes the section of predicates, where there are some.
fn put_predicates<A: Allocator, W: Sink>(
    out: &mut W,
    failed: &mut bool,
    predicates: &[DeclaredPredicate<A>],
)
    ensures printed { Puts (W.contents out.old) (W.contents out.new) (W.failures out.old) (W.failures out.new) failed.old failed.new (section_text (codes "  (:predicates") signature_text (map predicate_view predicates.now)) }
    ensures good { IsTrue (list_all is_declared_predicate (map predicate_view predicates.now)) }
{
    if predicates.len() == 0 {
        return;
    }
    put(out, failed, b"  (:predicates");
    put_predicate_list(out, failed, predicates);
    put(out, failed, b")\n");
}

/// Writes a declared function and the type of its result.
fn put_function<A: Allocator, W: Sink>(
    out: &mut W,
    failed: &mut bool,
    declared: &DeclaredFunction<A>,
)
    ensures printed { Puts (W.contents out.old) (W.contents out.new) (W.failures out.old) (W.failures out.new) failed.old failed.new (function_text (function_view declared.now)) }
    ensures good { IsTrue (is_declared_function (function_view declared.now)) }
{
    put_both(out, failed, b"(", declared.name.as_bytes());
    put_typed_list(out, failed, b"?", &declared.parameters);
    put(out, failed, b") - ");
    put_type(out, failed, &declared.result);
}

/// Writes declared functions, each behind a space.
fn put_function_list<A: Allocator, W: Sink>(
    out: &mut W,
    failed: &mut bool,
    functions: &[DeclaredFunction<A>],
)
    ensures printed { Puts (W.contents out.old) (W.contents out.new) (W.failures out.old) (W.failures out.new) failed.old failed.new (spaced_by function_text (map function_view functions.now)) }
    ensures good { IsTrue (list_all is_declared_function (map function_view functions.now)) }
{
    for declared in functions {
        put(out, failed, b" ");
        put_function(out, failed, declared);
    }
}

/// Writes the section of functions, where there are some.
fn put_functions<A: Allocator, W: Sink>(
    out: &mut W,
    failed: &mut bool,
    functions: &[DeclaredFunction<A>],
)
    ensures printed { Puts (W.contents out.old) (W.contents out.new) (W.failures out.old) (W.failures out.new) failed.old failed.new (section_text (codes "  (:functions") function_text (map function_view functions.now)) }
    ensures good { IsTrue (list_all is_declared_function (map function_view functions.now)) }
{
    if functions.len() == 0 {
        return;
    }
    put(out, failed, b"  (:functions");
    put_function_list(out, failed, functions);
    put(out, failed, b")\n");
}

/// Writes an action on four lines.
fn put_action<A: Allocator, W: Sink>(out: &mut W, failed: &mut bool, action: &Action<A>)
    ensures printed { Puts (W.contents out.old) (W.contents out.new) (W.failures out.old) (W.failures out.new) failed.old failed.new (action_lines (action_view action.now)) }
    ensures good { IsTrue (is_action (action_view action.now)) }
{
    put_both(out, failed, b"  (:action ", action.name.as_bytes());
    put(out, failed, b"\n    :parameters ");
    put_variables(out, failed, &action.parameters);
    put(out, failed, b"\n    :precondition ");
    put_formula(out, failed, &action.precondition);
    put(out, failed, b"\n    :effect ");
    put_effect(out, failed, &action.effect);
    put(out, failed, b")\n");
}

/// Writes actions, each on four lines.
fn put_actions<A: Allocator, W: Sink>(out: &mut W, failed: &mut bool, actions: &[Action<A>])
    ensures printed { Puts (W.contents out.old) (W.contents out.new) (W.failures out.old) (W.failures out.new) failed.old failed.new (flat_map action_lines (map action_view actions.now)) }
    ensures good { IsTrue (list_all is_action (map action_view actions.now)) }
{
    for action in actions {
        put_action(out, failed, action);
    }
}

/// Writes the canonical text of a domain. Each domain of the program is one of the values that texts spell.
fn put_domain<A: Allocator, W: Sink>(out: &mut W, failed: &mut bool, domain: &Domain<A>)
    ensures printed { Puts (W.contents out.old) (W.contents out.new) (W.failures out.old) (W.failures out.new) failed.old failed.new (domain_text (domain_view domain.now)) }
    ensures good { IsTrue (is_domain (domain_view domain.now)) }
{
    put_both(out, failed, b"(define (domain ", domain.name.as_bytes());
    put(out, failed, b")\n");
    put_requirements(out, failed, &domain.requirements);
    put_types(out, failed, &domain.types);
    put_objects(out, failed, b"  (:constants", &domain.constants);
    put_predicates(out, failed, &domain.predicates);
    put_functions(out, failed, &domain.functions);
    put_actions(out, failed, &domain.actions);
    put(out, failed, b")\n");
}

/// Writes the canonical text of a domain: in lower case, one space between two words or lists, a line for each section and
/// four for each action (the layout is own).
///
/// It takes no memory. It writes in pieces of a few bytes, so a writer that is slow for each write wants a buffer round it.
///
/// # Errors
///
/// [`WriteFault::WriteFailed`] where a write failed in this call; a beginning of the text was then written.
pub fn write_domain<A: Allocator, W: Sink>(
    domain: &Domain<A>,
    out: &mut W,
) -> Result<(), WriteFault>
    // The canonical text was written, and no write failed.
    ensures written { OnOk result (Appends (W.contents out.old) (W.contents out.new) (domain_text (domain_view domain.now))) }
    ensures none_failed { OnOk result (W.failures out.new ≡ W.failures out.old) }

    // A beginning of it was written, and a write of this call failed.
    ensures beginning { OnErr result (AppendsBeginning (W.contents out.old) (W.contents out.new) (domain_text (domain_view domain.now))) }
    ensures write_failed { OnErr result (HasFailed (W.failures out.old) (W.failures out.new)) }
{
    let mut failed = false;
    put_domain(out, &mut failed, domain);
    if failed {
        Err(WriteFault::WriteFailed)
    } else {
        Ok(())
    }
}

/// The canonical text of a domain. Within the limits of length and levels it reads back as the domain.
///
/// Fails where memory for the text is refused.
pub fn domain_text<A: Allocator, B: Allocator>(
    alloc: B,
    domain: &Domain<A>,
) -> Result<Vec<u8, B>, AllocError>
    ensures text { IfOk result (λ text. text.items ≡ domain_text (domain_view domain.now)) }
    ensures reads_back { IfOk result (λ text. IsWithin deepest (domain_tree (domain_view domain.now)) → vec_len text ≤ LONGEST
        → SpellsDomain (domain_view domain.now) text.items) }
{
    let mut out = ToWrite::new(Vec::new(alloc));
    let mut failed = false;
    put_domain(&mut out, &mut failed, domain);
    if failed {
        Err(AllocError)
    } else {
        Ok(out.into_inner())
    }
}
