//! The lists of a text.

ghost use Rattle.std.specs.Prelude.{◌≡◌, List, [], ◌++◌, length, reverse, Some, map, IfOk, IfErr, OnOk, MatchResult};
ghost use Rattle.pddl_scan.specs.declared.fault.TextFault.{TextFault};
ghost use Rattle.pddl_scan.specs.declared.fault.TextFault.TheVariants.{Memory};
ghost use Rattle.pddl_token.specs.Spelling.{PlacedWord, view};
ghost use Rattle.pddl_token.specs.Trees.{Placed, placed_leaf};
ghost use Rattle.pddl_items.specs.Items.{items_view};
ghost use Rattle.pddl_text.specs.Lists.{AreItems, deepest, ListStands};
ghost use Rattle.pddl_text.specs.Inner.Nesting.{BeginWithin, BeginWithin-prop, nest_of, empty, with_item, next_nest, IsRefused, IsLeftOpen};

use pddl_items::Item;
use pddl_scan::TextFault;
use pddl_token::{Span, Token, TokenKind};
use std::alloc::Allocator;

/// A list whose end has not come: where its items begin in the buffer, and the place of its `(`.
#[derive(Clone, Copy)]
pub struct OpenList {
    pub begins: usize,
    pub start: u32,
}

/// What words form: the open lists, the innermost last, and in one buffer the items outside and of them all.
#[derive(Drop)]
pub struct OpenLists<'t, A: Allocator> {
    opened: Vec<OpenList, A>,
    items: Vec<Item<'t, A>, A>,
    ghost begin_within: { BeginWithin (reverse opened.items) (length items.items) } by { BeginWithin-prop (reverse opened.items) (length items.items) },
}

/// The deepest level of a list; an outermost list has level 1. Own.
pub const DEEPEST: usize = 128;

impl<'t, 'a, B: Allocator> OpenLists<'t, &'a B> {
    /// No words. It takes no memory.
    pub fn new(alloc: &'a B) -> OpenLists<'t, &'a B>
        ensures { nest_of result.opened.items result.items.items ≡ empty }
    {
        OpenLists {
            opened: Vec::new(alloc),
            items: Vec::new(alloc),
        }
    }

    fn open(&mut self, token: &Token<'t>) -> Result<(), TextFault>
        requires { token.now.kind ≡ TokenKind.Open }
        ensures next { OnOk result (next_nest (view token.now) (nest_of self.old.opened.items self.old.items.items) ≡ Some (nest_of self.new.opened.items self.new.items.items)) }
        ensures refused { IfErr result (λ fault. IsRefused fault (view token.now) (nest_of self.old.opened.items self.old.items.items)) }
    {
        if self.opened.len() >= DEEPEST {
            return Err(TextFault::TooDeep {
                at: token.span.start,
            });
        }
        self.opened.push(OpenList {
            begins: self.items.len(),
            start: token.span.start,
        })?;
        Ok(())
    }

    /// Closes a list, whose items leave the buffer into memory for as much.
    fn close(&mut self, token: &Token<'t>) -> Result<(), TextFault>
        requires { token.now.kind ≡ TokenKind.Close }
        ensures next { OnOk result (next_nest (view token.now) (nest_of self.old.opened.items self.old.items.items) ≡ Some (nest_of self.new.opened.items self.new.items.items)) }
        ensures refused { IfErr result (λ fault. IsRefused fault (view token.now) (nest_of self.old.opened.items self.old.items.items)) }
    {
        let Some(list) = self.opened.pop() else {
            return Err(TextFault::Unopened {
                at: token.span.start,
            });
        };
        let inner = self.items.split_off(list.begins)?;
        self.items.push(Item::List(
            inner,
            Span {
                start: list.start,
                end: token.span.end,
            },
        ))?;
        Ok(())
    }

    fn add_word(&mut self, token: &Token<'t>) -> Result<(), TextFault>
        ensures added { OnOk result (nest_of self.new.opened.items self.new.items.items ≡ with_item (nest_of self.old.opened.items self.old.items.items) (placed_leaf (view token.now))) }
        ensures memory { IfErr result (λ fault. fault ≡ Memory) }
    {
        self.items.push(Item::Word(*token))?;
        Ok(())
    }

    /// Adds one more word.
    pub fn add(&mut self, token: &Token<'t>) -> Result<(), TextFault>
        ensures next { OnOk result (next_nest (view token.now) (nest_of self.old.opened.items self.old.items.items) ≡ Some (nest_of self.new.opened.items self.new.items.items)) }
        ensures refused { IfErr result (λ fault. IsRefused fault (view token.now) (nest_of self.old.opened.items self.old.items.items)) }
    {
        match token.kind {
            TokenKind::Open => self.open(token),
            TokenKind::Close => self.close(token),
            _ => self.add_word(token),
        }
    }

    /// The items, where no list is open. They keep no more memory than they need.
    pub fn into_items(self) -> Result<Vec<Item<'t, &'a B>, &'a B>, TextFault>
        ensures items { IfOk result (λ items. nest_of self.entry.opened.items self.entry.items.items ≡ record { opened = []; items = items_view items.items }) }
        ensures unclosed { IfErr result (λ fault. IsLeftOpen fault (nest_of self.entry.opened.items self.entry.items.items)) }
    {
        match self.opened.first() {
            None => {
                let mut items = self.items;
                items.shrink_to_fit();
                Ok(items)
            }
            Some(list) => Err(TextFault::Unclosed { at: list.start }),
        }
    }
}

/// The items that tokens form: each is a token that is no parenthesis, or a list from an opening to its closing, with
/// the items between. Lists are those of Kovacs' definition of PDDL 3.1; the limit of levels is own.
///
/// # Errors
///
/// The leftmost of [`TextFault::Unopened`], at a closing before which all tokens form items, and
/// [`TextFault::TooDeep`], at an opening before which [`DEEPEST`] are open. Where there is none,
/// [`TextFault::Unclosed`], at the leftmost opening that has no closing. [`TextFault::Memory`] only where a growth was
/// refused. "Leftmost" is the order of the slice; the place is that of the token's span.
pub fn lists<'t, 'a, B: Allocator>(
    alloc: &'a B,
    tokens: &[Token<'t>],
) -> Result<Vec<Item<'t, &'a B>, &'a B>, TextFault>
    // What is answered is the words' items.
    ensures items { IfOk result (λ items. AreItems deepest (map view tokens.now) (items_view items.items)) }
    // Words that form items are answered so.
    ensures only { (trees : List Placed) → AreItems deepest (map view tokens.now) trees
        → MatchResult result (λ items. items_view items.items ≡ trees) (λ fault. fault ≡ Memory) }
    // What is wrong is the first fault.
    ensures fault { IfErr result (λ fault. ListStands fault (map view tokens.now)) }
{
    let mut open = OpenLists::new(alloc);
    for token in tokens {
        open.add(token)?;
    }
    open.into_items()
}

/// Words form at most one list of items.
pub fn one_nesting()
    ensures { (words : List PlacedWord) (items others : List Placed) → AreItems deepest words items → AreItems deepest words others → items ≡ others }
{}

/// The fault of the words behind whole items is the fault of all.
pub fn list_fault_behind()
    ensures { (done words : List PlacedWord) (items : List Placed) (fault : TextFault) → AreItems deepest done items → ListStands fault words
        → ListStands fault (done ++ words) }
{}
