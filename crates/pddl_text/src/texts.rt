//! The items of a text.

ghost use Rattle.std.specs.Prelude.{◌≡◌, ◌≢◌, List, ℕ, None, Ok, IfOk, IfErr, MatchResult};
ghost use Rattle.pddl_scan.specs.declared.fault.TextFault.{TextFault};
ghost use Rattle.pddl_scan.specs.declared.fault.TextFault.TheVariants.{Memory};
ghost use Rattle.pddl_token.specs.Trees.{Tree, Placed};
ghost use Rattle.pddl_items.specs.Items.{items_view};
ghost use Rattle.pddl_text.specs.Texts.{HasItems, ReadsAs, TextStands};

use crate::in_turn::add_items;
use crate::lexer::lex;
use crate::nesting::{DEEPEST, lists};
use pddl_items::Item;
use pddl_scan::{LONGEST, TextFault};
use std::alloc::Allocator;

/// Items, where they were read up to the text's end.
fn if_whole<'t, A: Allocator>(
    items: Vec<Item<'t, A>, A>,
    end: Result<Option<u32>, TextFault>,
) -> Result<Vec<Item<'t, A>, A>, TextFault>
    ensures { IfOk result (λ whole. (items_view whole.items ≡ items_view items.entry.items) × (end ≡ Ok None)) }
{
    match end? {
        Some(end) => Err(TextFault::Unopened {
            at: end.saturating_sub(1),
        }),
        None => Ok(items),
    }
}

/// The items of a text, in one pass over it. Of a text that has none, what it answers need not be the first fault.
fn read_items<'t, 'a, B: Allocator>(
    alloc: &'a B,
    text: &'t [u8],
) -> Result<Vec<Item<'t, &'a B>, &'a B>, TextFault>
    ensures { IfOk result (λ items. HasItems text.now (items_view items.items)) }
{
    if text.len() > LONGEST {
        return Err(TextFault::TooLong);
    }
    let mut items = Vec::new(alloc);
    let mut at = 0;
    let end = add_items(alloc, text, &mut at, DEEPEST, &mut items);
    if_whole(items, end)
}

/// The same in two passes, words before lists, which answers the first fault.
fn reread_items<'t, 'a, B: Allocator>(
    alloc: &'a B,
    text: &'t [u8],
) -> Result<Vec<Item<'t, &'a B>, &'a B>, TextFault>
    ensures items { IfOk result (λ items. HasItems text.now (items_view items.items)) }
    ensures fault { IfErr result (λ fault. TextStands fault text.now) }
{
    let tokens = lex(alloc, text)?;
    lists(alloc, &tokens)
}

/// The items of a text: its words, and the lists that they form.
///
/// # Errors
///
/// Those of [`lex`]; where the text has words, those of [`lists`].
pub fn items_of<'t, 'a, B: Allocator>(
    alloc: &'a B,
    text: &'t [u8],
) -> Result<Vec<Item<'t, &'a B>, &'a B>, TextFault>
    // What is answered is the text's items.
    ensures items { IfOk result (λ items. HasItems text.now (items_view items.items)) }
    // A text that has items is answered so.
    ensures only { (items : List Placed) → HasItems text.now items
        → MatchResult result (λ found. items_view found.items ≡ items) (λ fault. fault ≡ Memory) }
    // What is wrong stands in the text.
    ensures fault { IfErr result (λ fault. TextStands fault text.now) }
{
    match read_items(alloc, text) {
        Ok(items) => Ok(items),
        Err(TextFault::Memory) => Err(TextFault::Memory),
        Err(_) => reread_items(alloc, text),
    }
}

/// A text has at most one list of items.
pub fn one_items()
    ensures { (text : List ℕ) (items others : List Placed) → HasItems text items → HasItems text others → items ≡ others }
{}

/// A text reads as at most one list of trees.
pub fn one_reading()
    ensures { (text : List ℕ) (trees others : List Tree) → ReadsAs text trees → ReadsAs text others → trees ≡ others }
{}

/// A text has at most one fault: of two that stand in it, neither of them want of memory, the one is the other.
pub fn one_text_fault()
    ensures { (text : List ℕ) (fault other : TextFault) → TextStands fault text → TextStands other text
        → fault ≢ Memory → other ≢ Memory → fault ≡ other }
{}

/// A text that has items has no fault: what may be answered of it is want of memory alone.
pub fn no_fault_in_items()
    ensures { (text : List ℕ) (fault : TextFault) (items : List Placed) → TextStands fault text → HasItems text items → fault ≡ Memory }
{}
