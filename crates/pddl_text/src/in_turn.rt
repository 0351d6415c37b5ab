//! The items of a text one by one, for who reads a long list and keeps no more of it than one item at a time.

ghost use Rattle.std.specs.Prelude.{◌≡◌, ◌<◌, ◌≤◌, ◌++◌, ◌∷◌, [], List, drop, length, take, IfOk, OnOk};
ghost use Rattle.pddl_token.specs.declared.token.TokenKind.{TokenKind};
ghost use Rattle.pddl_token.specs.Spelling.{PlacedWord};
ghost use Rattle.pddl_scan.specs.Scanning.{LexedTo};
ghost use Rattle.pddl_items.specs.Items.{item_view, items_view};
ghost use Rattle.pddl_text.specs.Inner.NextItems.{ReadsItem, ReadsOn, ReadsItems, ReadsList, IfRead, IfClosed};

use crate::lexer::next_token;
use pddl_items::Item;
use pddl_scan::{LONGEST, TextFault};
use pddl_token::{Span, TokenKind};
use std::alloc::Allocator;

/// What stands next in a list of a text, or in the text outside all lists.
#[derive(Drop)]
pub enum NextItem<'t, A: Allocator> {
    /// A word, or a whole list.
    Item(Item<'t, A>),
    /// The end: of the list, with the place behind its `)`, or of the text.
    End(Option<u32>),
}

/// What stands next in a text behind a place, where lists may stand so many levels deep. The place moves behind it.
///
/// Items of lists whose end has not come stand behind those of `lists`, which has the same items again when the next one is answered. So a list
/// takes just the memory that it needs, and a buffer that serves for one item after the other grows no more than once.
///
/// # Errors
///
/// Some fault of the text that stands in what is read, which need not be the first; [`TextFault::Memory`] where memory is refused.
pub fn next_item<'t, 'a, B: Allocator>(
    alloc: &'a B,
    text: &'t [u8],
    at: &mut usize,
    levels: usize,
    lists: &mut Vec<Item<'t, &'a B>, &'a B>,
) -> Result<NextItem<'t, &'a B>, TextFault>
    requires short { length text.now ≤ LONGEST }
    ensures next { (words : List PlacedWord) → LexedTo text.now words at.old → IfOk result (ReadsOn text.now words levels at.new) }
    ensures further { IfOk result (IfRead ((at.old < at.new) × (at.new ≤ length text.now))) }
    ensures lists { OnOk result (lists.new.items ≡ lists.old.items) }
{
    let Some(token) = next_token(text, *at)? else {
        return Ok(NextItem::End(None));
    };
    *at = token.span.end as usize;
    match token.kind {
        TokenKind::Open => {
            let list = list_behind(alloc, text, at, levels, lists, token.span.start)?;
            Ok(NextItem::Item(list))
        }
        TokenKind::Close => Ok(NextItem::End(Some(token.span.end))),
        _ => Ok(NextItem::Item(Item::Word(token))),
    }
}

/// The list whose `(` stands before a place, and began at another.
#[cycle(items)]
fn list_behind<'t, 'a, B: Allocator>(
    alloc: &'a B,
    text: &'t [u8],
    at: &mut usize,
    levels: usize,
    lists: &mut Vec<Item<'t, &'a B>, &'a B>,
    start: u32,
) -> Result<Item<'t, &'a B>, TextFault>
    requires short { length text.now ≤ LONGEST }
    ensures list { (words : List PlacedWord) (opening : PlacedWord) → opening.kind ≡ TokenKind.Open → opening.span.start ≡ start
        → LexedTo text.now (words ++ opening ∷ []) at.old → IfOk result (λ item. ReadsItem text.now words levels at.new (item_view item)) }
    ensures further { OnOk result ((at.old < at.new) × (at.new ≤ length text.now)) }
    ensures lists { OnOk result (lists.new.items ≡ lists.old.items) }
{
    let begins = lists.len();
    let end = add_list(alloc, text, at, levels, lists, start)?;
    let items = lists.split_off(begins)?;
    Ok(Item::List(items, Span { start, end }))
}

/// Puts the items of the list whose `(` stands before a place, and began at another, behind those of `items`. Answers where its `)` ends, and the place moves there.
#[cycle(items)]
fn add_list<'t, 'a, B: Allocator>(
    alloc: &'a B,
    text: &'t [u8],
    at: &mut usize,
    levels: usize,
    items: &mut Vec<Item<'t, &'a B>, &'a B>,
    start: u32,
) -> Result<u32, TextFault>
    requires short { length text.now ≤ LONGEST }
    ensures list { (words : List PlacedWord) → LexedTo text.now words at.old
        → IfOk result (ReadsList text.now words levels (items_view (drop (length items.old.items) items.new.items)) at.new) }
    ensures before { OnOk result (take (length items.old.items) items.new.items ≡ items.old.items) }
    ensures further { OnOk result ((at.old < at.new) × (at.new ≤ length text.now)) }
{
    if levels == 0 {
        return Err(TextFault::TooDeep { at: start });
    }
    match add_items(alloc, text, at, levels - 1, items)? {
        Some(end) => Ok(end),
        None => Err(TextFault::Unclosed { at: start }),
    }
}

/// Puts the items up to the next end behind those of a list, and answers the end.
#[cycle(items)]
pub(crate) fn add_items<'t, 'a, B: Allocator>(
    alloc: &'a B,
    text: &'t [u8],
    at: &mut usize,
    levels: usize,
    items: &mut Vec<Item<'t, &'a B>, &'a B>,
) -> Result<Option<u32>, TextFault>
    requires short { length text.now ≤ LONGEST }
    ensures items { (words : List PlacedWord) → LexedTo text.now words at.old
        → IfOk result (ReadsItems text.now words levels (items_view (drop (length items.old.items) items.new.items)) at.new) }
    ensures before { OnOk result (take (length items.old.items) items.new.items ≡ items.old.items) }
    ensures further { IfOk result (IfClosed ((at.old < at.new) × (at.new ≤ length text.now))) }
{
    loop {
        let Some(token) = next_token(text, *at)? else {
            return Ok(None);
        };
        *at = token.span.end as usize;
        match token.kind {
            TokenKind::Open => {
                let list = list_behind(alloc, text, at, levels, items, token.span.start)?;
                items.push(list)?
            }
            TokenKind::Close => return Ok(Some(token.span.end)),
            _ => items.push(Item::Word(token))?,
        }
    }
}
