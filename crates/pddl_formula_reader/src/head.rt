//! What the first item of a list says of the list.

ghost use Rattle.std.specs.Prelude.{◌≡◌};
ghost use Rattle.pddl_token.specs.Names.{folded};
ghost use Rattle.pddl_items.specs.ItemTrees.{item_tree};
ghost use Rattle.pddl_formula_reader.specs.Inner.Reading.{head_at, word_head};

use pddl_items::{Item, is_word};
use pddl_token::TokenKind;
use std::alloc::Allocator;

/// A word that is reserved for formulas and effects, another name, `=`, or none of these.
#[derive(Clone, Copy)]
pub enum Head {
    And,
    Or,
    Not,
    Imply,
    Exists,
    Forall,
    When,
    Increase,
    Name,
    Equal,
    Nothing,
}

/// What an item is as the head of a list.
pub fn head_of<A: Allocator>(item: &Item<'_, A>) -> Head
    ensures { result ≡ head_at (item_tree item.now) }
{
    match item {
        Item::Word(token) => match token.kind {
            TokenKind::Name => word_head(token.text),
            TokenKind::Equal => Head::Equal,
            _ => Head::Nothing,
        },
        Item::List(_, _) => Head::Nothing,
    }
}

fn word_head(text: &[u8]) -> Head
    ensures { result ≡ word_head (folded text.now) }
{
    if is_word(text, b"and") {
        Head::And
    } else if is_word(text, b"or") {
        Head::Or
    } else if is_word(text, b"not") {
        Head::Not
    } else if is_word(text, b"imply") {
        Head::Imply
    } else if is_word(text, b"exists") {
        Head::Exists
    } else if is_word(text, b"forall") {
        Head::Forall
    } else if is_word(text, b"when") {
        Head::When
    } else if is_word(text, b"increase") {
        Head::Increase
    } else {
        Head::Name
    }
}
