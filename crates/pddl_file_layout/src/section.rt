//! What the sections of domains and of problems share.

ghost use Rattle.std.specs.Prelude.{IsTrue, map, codes};
ghost use Rattle.std.specs.List.{list_all};
ghost use Rattle.pddl_token.specs.Names.{is_name};
ghost use Rattle.pddl_formula.specs.TypedLists.{typed_view};
ghost use Rattle.pddl_file_layout.specs.FormulaValues.{is_typed};
ghost use Rattle.pddl_file_layout.specs.Inner.Printing.{Puts};
ghost use Rattle.pddl_file_layout.specs.Inner.Texts.{spaced_by, section_text, flag_text, object_text};

use crate::formula::put_typed_list;
use crate::printing::{put, put_both};
use pddl_device::Sink;
use pddl_formula::Typed;
use pddl_token::Name;
use std::alloc::Allocator;

/// Writes flags, each behind a space.
fn put_flags<A: Allocator, W: Sink>(out: &mut W, failed: &mut bool, flags: &[Name<A>])
    ensures printed { Puts (W.contents out.old) (W.contents out.new) (W.failures out.old) (W.failures out.new) failed.old failed.new (spaced_by flag_text flags.now) }
    ensures good { IsTrue (list_all is_name flags.now) }
{
    for flag in flags {
        put_both(out, failed, b" :", flag.as_bytes());
    }
}

/// Writes the section of requirements, where there are some.
pub fn put_requirements<A: Allocator, W: Sink>(out: &mut W, failed: &mut bool, flags: &[Name<A>])
    ensures printed { Puts (W.contents out.old) (W.contents out.new) (W.failures out.old) (W.failures out.new) failed.old failed.new (section_text (codes "  (:requirements") flag_text flags.now) }
    ensures good { IsTrue (list_all is_name flags.now) }
{
    if flags.len() == 0 {
        return;
    }
    put(out, failed, b"  (:requirements");
    put_flags(out, failed, flags);
    put(out, failed, b")\n");
}

/// Writes a section of objects or constants, where there are some, behind its opening.
pub fn put_objects<A: Allocator, W: Sink>(
    out: &mut W,
    failed: &mut bool,
    opening: &[u8],
    objects: &[Typed<A>],
)
    ensures printed { Puts (W.contents out.old) (W.contents out.new) (W.failures out.old) (W.failures out.new) failed.old failed.new (section_text opening.now object_text (map typed_view objects.now)) }
    ensures good { IsTrue (list_all is_typed (map typed_view objects.now)) }
{
    if objects.len() == 0 {
        return;
    }
    put(out, failed, opening);
    put_typed_list(out, failed, b"", objects);
    put(out, failed, b")\n");
}
