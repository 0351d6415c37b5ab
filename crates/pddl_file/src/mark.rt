//! Words by which lists are refused.

ghost use Rattle.std.specs.Prelude.{◌≡◌, flat_map};
ghost use Rattle.pddl_items.specs.Items.{item_view, items_view};
ghost use Rattle.pddl_token.specs.Names.{folded};
ghost use Rattle.pddl_items.specs.ItemTrees.{item_trees};
ghost use Rattle.pddl_sections.specs.Sections.{lists_in};
ghost use Rattle.pddl_sections.specs.Inner.Verdicts.{first_mark};
ghost use Rattle.pddl_file.specs.Marks.{mark_word};
ghost use Rattle.pddl_file.specs.Inner.WordReading.{plain_mark, is_number_first, list_mark, mark_in};

use pddl_effect_reader::is_increase;
use pddl_items::{Item, is_word, is_word_item};
use pddl_token::{Span, TokenKind};
use std::alloc::Allocator;

/// A word that marks a list as a feature of PDDL that is left out.
#[derive(Clone, Copy, Debug)]
pub enum Mark {
    DurativeAction,
    Derived,
    Constraints,
    Length,
    Preference,
    Less,
    Greater,
    LessEqual,
    GreaterEqual,
    Plus,
    Times,
    Divide,
    Minus,
    Assign,
    Decrease,
    ScaleUp,
    ScaleDown,
    Increase,
    Either,
    At,
}

impl Mark {
    /// The word, in lower case.
    pub fn word(self) -> &'static [u8]
        ensures { result.now ≡ mark_word self }
    {
        match self {
            Mark::DurativeAction => b":durative-action",
            Mark::Derived => b":derived",
            Mark::Constraints => b":constraints",
            Mark::Length => b":length",
            Mark::Preference => b"preference",
            Mark::Less => b"<",
            Mark::Greater => b">",
            Mark::LessEqual => b"<=",
            Mark::GreaterEqual => b">=",
            Mark::Plus => b"+",
            Mark::Times => b"*",
            Mark::Divide => b"/",
            Mark::Minus => b"-",
            Mark::Assign => b"assign",
            Mark::Decrease => b"decrease",
            Mark::ScaleUp => b"scale-up",
            Mark::ScaleDown => b"scale-down",
            Mark::Increase => b"increase",
            Mark::Either => b"either",
            Mark::At => b"at",
        }
    }
}

/// Of the lists in an item, itself included, in the order of their openings, the first that is refused by name: the word and
/// the list's span. `in_types` says whether the lists stand in `:types`, where `either` is refused (own).
#[cycle(marks)]
pub fn first_marked<A: Allocator>(item: &Item<'_, A>, in_types: bool) -> Option<(Mark, Span)>
    ensures { result ≡ first_mark (mark_in in_types) (lists_in (item_view item.now)) }
{
    match item {
        Item::Word(_) => None,
        Item::List(items, span) => match list_mark(items, in_types) {
            Some(mark) => Some((mark, *span)),
            None => first_marked_in(items, in_types),
        },
    }
}

#[cycle(marks)]
fn first_marked_in<A: Allocator>(items: &[Item<'_, A>], in_types: bool) -> Option<(Mark, Span)>
    ensures { result ≡ first_mark (mark_in in_types) (flat_map lists_in (items_view items.now)) }
{
    for item in items {
        if let Some(found) = first_marked(item, in_types) {
            return Some(found);
        }
    }
    None
}

/// The word by which a list of these items is refused.
fn list_mark<A: Allocator>(items: &[Item<'_, A>], in_types: bool) -> Option<Mark>
    ensures { result ≡ list_mark in_types (item_trees items.now) }
{
    let [head, rest @ ..] = items else {
        return None;
    };
    let Item::Word(token) = head else {
        return None;
    };
    if let Some(mark) = plain_mark(token.text) {
        return Some(mark);
    }
    if is_word_item(head, b"increase") {
        (!is_increase(items)).then_some(Mark::Increase)
    } else if is_word_item(head, b"either") {
        in_types.then_some(Mark::Either)
    } else if is_word_item(head, b"at") {
        is_number_first(rest).then_some(Mark::At)
    } else {
        None
    }
}

/// Whether a number stands first.
fn is_number_first<A: Allocator>(items: &[Item<'_, A>]) -> bool
    ensures { result ≡ is_number_first (item_trees items.now) }
{
    let [first, ..] = items else {
        return false;
    };
    match first {
        Item::Word(token) => matches!(token.kind, TokenKind::Number),
        Item::List(_, _) => false,
    }
}

/// The word that a text is, of those that refuse each list that they begin.
fn plain_mark(text: &[u8]) -> Option<Mark>
    ensures { result ≡ plain_mark (folded text.now) }
{
    if is_word(text, b":durative-action") {
        Some(Mark::DurativeAction)
    } else if is_word(text, b":derived") {
        Some(Mark::Derived)
    } else if is_word(text, b":constraints") {
        Some(Mark::Constraints)
    } else if is_word(text, b":length") {
        Some(Mark::Length)
    } else if is_word(text, b"preference") {
        Some(Mark::Preference)
    } else if is_word(text, b"<") {
        Some(Mark::Less)
    } else if is_word(text, b">") {
        Some(Mark::Greater)
    } else if is_word(text, b"<=") {
        Some(Mark::LessEqual)
    } else if is_word(text, b">=") {
        Some(Mark::GreaterEqual)
    } else if is_word(text, b"+") {
        Some(Mark::Plus)
    } else if is_word(text, b"*") {
        Some(Mark::Times)
    } else if is_word(text, b"/") {
        Some(Mark::Divide)
    } else if is_word(text, b"-") {
        Some(Mark::Minus)
    } else if is_word(text, b"assign") {
        Some(Mark::Assign)
    } else if is_word(text, b"decrease") {
        Some(Mark::Decrease)
    } else if is_word(text, b"scale-up") {
        Some(Mark::ScaleUp)
    } else if is_word(text, b"scale-down") {
        Some(Mark::ScaleDown)
    } else {
        None
    }
}
