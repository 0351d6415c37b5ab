//! Sections that fit no rule.

ghost use Rattle.std.specs.Prelude.{◌≡◌, ◌≢◌};
ghost use Rattle.pddl_scan.specs.declared.fault.TextFault.TheVariants.{Memory};
ghost use Rattle.pddl_items.specs.Items.{item_view, span_of};
ghost use Rattle.pddl_items.specs.ItemTrees.{item_tree};
ghost use Rattle.pddl_sections.specs.Sections.{lists_in};
ghost use Rattle.pddl_sections.specs.Inner.Verdicts.{first_mark, refusal};
ghost use Rattle.pddl_file.specs.declared.fault.FileFault.TheVariants.{Text};
ghost use Rattle.pddl_file.specs.Inner.WordReading.{key_at, types_key, mark_at};
ghost use Rattle.pddl_file.specs.Inner.FileReading.{IsFaultAt};

use crate::fault::FileFault;
use crate::keyword::{SectionKeyword, keyword_of};
use crate::mark::first_marked;
use pddl_items::Item;
use pddl_sections::span_of;
use std::alloc::Allocator;

/// What a section that fits no rule is refused as (own): where a list in it is refused by name, the word and the span of the
/// first such list; else its own span, `near` being where that starts.
pub fn refusal<A: Allocator>(item: &Item<'_, A>) -> FileFault
    ensures fault { IsFaultAt result (refusal
        (first_mark (mark_at (item_tree item.now)) (lists_in (item_view item.now)))
        (span_of (item_view item.now))) }
    // It takes no memory, and so wants none.
    ensures no_memory { result ≢ Text Memory }
{
    match first_marked(item, is_of_types(item)) {
        Some((word, span)) => FileFault::Unsupported { word, span },
        None => {
            let span = span_of(item);
            FileFault::Section {
                span,
                near: span.start,
            }
        }
    }
}

/// Whether a section is of types.
fn is_of_types<A: Allocator>(item: &Item<'_, A>) -> bool
    ensures { result ≡ types_key (key_at (item_tree item.now)) }
{
    match keyword_of(item) {
        Some(SectionKeyword::Types) => true,
        _ => false,
    }
}
