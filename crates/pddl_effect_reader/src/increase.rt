//! Whether items spell increases, told without memory.

ghost use Rattle.std.specs.Prelude.{◌≡◌, ◌↔◌, IsTrue};
ghost use Rattle.std.specs.Char.{to_ascii_lowercase};
ghost use Rattle.std.specs.List.{list_all};
ghost use Rattle.pddl_token.specs.Names.{is_first_byte, is_later_byte};
ghost use Rattle.pddl_token.specs.TreeWords.{list};
ghost use Rattle.pddl_items.specs.ItemTrees.{item_tree, item_trees};
ghost use Rattle.pddl_effect.specs.Effects.{AmountValue, IsTotalCost, IsIncrease};
ghost use Rattle.pddl_effect_reader.specs.Inner.EffectReading.{is_cost_list, is_total_cost_at};
ghost use Rattle.pddl_effect_reader.specs.Inner.IncreaseTests.{is_name_text, is_variable_text, is_static_text, is_term_at, is_static_at, is_call_list, is_amount_at, is_cost_and_amount, is_increase_at};

use pddl_items::{Item, is_word, is_word_item};
use pddl_token::{TokenKind, value_of};
use std::alloc::Allocator;

/// Whether an item spells the total cost: `total-cost` or `(total-cost)` (Kovacs, `<f-head>`).
pub fn is_total_cost<A: Allocator>(item: &Item<'_, A>) -> bool
    ensures spelled { IsTrue result ↔ IsTotalCost (item_tree item.now) }
    ensures read { result ≡ is_total_cost_at (item_tree item.now) }
{
    is_cost(item)
}

fn is_cost<A: Allocator>(item: &Item<'_, A>) -> bool
    ensures { result ≡ is_total_cost_at (item_tree item.now) }
{
    match item {
        Item::Word(_) => is_word_item(item, b"total-cost"),
        Item::List(items, _) => is_cost_list(items),
    }
}

fn is_cost_list<A: Allocator>(items: &[Item<'_, A>]) -> bool
    ensures { result ≡ is_cost_list (item_trees items.now) }
{
    match items {
        [item] => is_word_item(item, b"total-cost"),
        _ => false,
    }
}

/// Whether a list of these items spells an increase: `(increase C A)`, where C is the total cost and A an amount.
pub fn is_increase<A: Allocator>(items: &[Item<'_, A>]) -> bool
    ensures spelled { IsTrue result ↔ ((a : AmountValue) × IsIncrease a (list (item_trees items.now))) }
    ensures read { result ≡ is_increase_at (item_trees items.now) }
{
    is_increase_list(items)
}

fn is_increase_list<A: Allocator>(items: &[Item<'_, A>]) -> bool
    ensures { result ≡ is_increase_at (item_trees items.now) }
{
    match items {
        [head, rest @ ..] => is_word_item(head, b"increase") && is_cost_and_amount(rest),
        [] => false,
    }
}

fn is_cost_and_amount<A: Allocator>(items: &[Item<'_, A>]) -> bool
    ensures { result ≡ is_cost_and_amount (item_trees items.now) }
{
    match items {
        [cost, amount] => is_cost(cost) && is_amount(amount),
        _ => false,
    }
}

fn is_amount<A: Allocator>(item: &Item<'_, A>) -> bool
    ensures { result ≡ is_amount_at (item_tree item.now) }
{
    match item {
        Item::Word(token) => match token.kind {
            TokenKind::Number => value_of(token.text).is_some(),
            TokenKind::Name => is_static_text(token.text),
            _ => false,
        },
        Item::List(items, _) => is_call_list(items),
    }
}

fn is_call_list<A: Allocator>(items: &[Item<'_, A>]) -> bool
    ensures { result ≡ is_call_list (item_trees items.now) }
{
    match items {
        [head, terms @ ..] => is_static(head) && are_terms(terms),
        [] => false,
    }
}

fn is_static<A: Allocator>(item: &Item<'_, A>) -> bool
    ensures { result ≡ is_static_at (item_tree item.now) }
{
    match item {
        Item::Word(token) => match token.kind {
            TokenKind::Name => is_static_text(token.text),
            _ => false,
        },
        Item::List(_, _) => false,
    }
}

fn is_static_text(text: &[u8]) -> bool
    ensures { result ≡ is_static_text text.now }
{
    is_name_text(text) && !is_word(text, b"total-cost")
}

fn are_terms<A: Allocator>(items: &[Item<'_, A>]) -> bool
    ensures { result ≡ list_all is_term_at (item_trees items.now) }
{
    for item in items {
        if !is_term(item) {
            return false;
        }
    }
    true
}

fn is_term<A: Allocator>(item: &Item<'_, A>) -> bool
    ensures { result ≡ is_term_at (item_tree item.now) }
{
    match item {
        Item::Word(token) => match token.kind {
            TokenKind::Name => is_name_text(token.text),
            TokenKind::Variable => is_variable_text(token.text),
            _ => false,
        },
        Item::List(_, _) => false,
    }
}

fn is_variable_text(text: &[u8]) -> bool
    ensures { result ≡ is_variable_text text.now }
{
    match text {
        [b'?', name @ ..] => is_name_text(name),
        _ => false,
    }
}

/// Whether a text is a name, letter case aside.
fn is_name_text(text: &[u8]) -> bool
    ensures { result ≡ is_name_text text.now }
{
    match text {
        [] => false,
        [first, rest @ ..] => is_first_byte(*first) && are_later_bytes(rest),
    }
}

fn is_first_byte(byte: u8) -> bool
    ensures { result ≡ is_first_byte (to_ascii_lowercase byte) }
{
    byte.is_ascii_alphabetic()
}

fn are_later_bytes(text: &[u8]) -> bool
    ensures { result ≡ list_all (λ b. is_later_byte (to_ascii_lowercase b)) text.now }
{
    text.iter().all(|byte| is_later_byte(*byte))
}

fn is_later_byte(byte: u8) -> bool
    ensures { result ≡ is_later_byte (to_ascii_lowercase byte) }
{
    byte.is_ascii_alphanumeric() || byte == b'-' || byte == b'_'
}
