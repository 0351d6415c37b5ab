//! Words of the grammar among items, and the names that items are.

ghost use Rattle.std.specs.Prelude.{◌≡◌, IfOk};
ghost use Rattle.std.specs.Str.{bytes_eq};
ghost use Rattle.pddl_token.specs.Names.{folded};
ghost use Rattle.pddl_items.specs.ItemTrees.{item_tree};
ghost use Rattle.pddl_items.specs.Inner.TreeReading.{name_at, is_word_at, is_keyword_at, is_dash};

use crate::item::Item;
use pddl_token::{Name, TokenKind};
use std::alloc::{AllocError, Allocator};

/// Whether a text is the word, letter case aside.
pub fn is_word(text: &[u8], word: &[u8]) -> bool
    requires { folded word.now ≡ word.now }
    ensures { result ≡ bytes_eq (folded text.now) word.now }
{
    text.eq_ignore_ascii_case(word)
}

/// Whether an item is a word of the grammar, letter case aside.
pub fn is_word_item<A: Allocator>(item: &Item<'_, A>, word: &[u8]) -> bool
    requires { folded word.now ≡ word.now }
    ensures { result ≡ is_word_at word.now (item_tree item.now) }
{
    match item {
        Item::Word(token) => match token.kind {
            TokenKind::Name => is_word(token.text, word),
            _ => false,
        },
        Item::List(_, _) => false,
    }
}

/// Whether an item is a keyword, which begins with `:`, letter case aside.
pub fn is_keyword_item<A: Allocator>(item: &Item<'_, A>, keyword: &[u8]) -> bool
    requires { folded keyword.now ≡ keyword.now }
    ensures { result ≡ is_keyword_at keyword.now (item_tree item.now) }
{
    match item {
        Item::Word(token) => match token.kind {
            TokenKind::Keyword => is_word(token.text, keyword),
            _ => false,
        },
        Item::List(_, _) => false,
    }
}

/// Whether an item is `-`.
pub fn is_dash<A: Allocator>(item: &Item<'_, A>) -> bool
    ensures { result ≡ is_dash (item_tree item.now) }
{
    match item {
        Item::Word(token) => matches!(token.kind, TokenKind::Dash),
        Item::List(_, _) => false,
    }
}

/// The name that an item spells, or `None` where it spells none (Kovacs, `<name>`).
///
/// Fails where memory for the name is refused.
pub fn name_of<'a, A: Allocator, B: Allocator>(
    alloc: &'a B,
    item: &Item<'_, A>,
) -> Result<Option<Name<&'a B>>, AllocError>
    ensures { IfOk result (λ name. name ≡ name_at (item_tree item.now)) }
{
    match item {
        Item::Word(token) => match token.kind {
            TokenKind::Name => Name::new(alloc, token.text),
            _ => Ok(None),
        },
        Item::List(_, _) => Ok(None),
    }
}
