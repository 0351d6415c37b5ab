//! The head of a file: its name, and where its sections begin.

ghost use Rattle.std.specs.Prelude.{◌≡◌, List, IfOk, MatchResult, option_map};
ghost use Rattle.pddl_items.specs.Items.{item_view, items_view, span_of};
ghost use Rattle.pddl_token.specs.Names.{folded};
ghost use Rattle.pddl_items.specs.ItemTrees.{item_tree, item_trees};
ghost use Rattle.pddl_sections.specs.Files.{IsOpened, HeadFault};
ghost use Rattle.pddl_sections.specs.Inner.Answers.{title_of, title_at, opening_of, opening_at};
ghost use Rattle.pddl_sections.specs.Openings.{opening_view};

use pddl_items::{Item, is_word_item, name_of};
use pddl_token::{Name, Span};
use std::alloc::{AllocError, Allocator};

/// What a file opens with: its name, and the items of its sections.
#[derive(Drop)]
pub struct Opening<'i, 't, A: Allocator, B: Allocator> {
    pub name: Name<B>,
    pub sections: &'i [Item<'t, A>],
}

/// From an item's first byte to its last.
pub fn span_of<A: Allocator>(item: &Item<'_, A>) -> Span
    ensures { result ≡ span_of (item_view item.now) }
{
    match item {
        Item::Word(token) => token.span,
        Item::List(_, span) => *span,
    }
}

/// The name and the sections of the file that some items are, `(define (WORD NAME) section*)`, or the place where they are no
/// such file: 0 to 0 where there is no item; the first item, where that is no list that begins `define` and `(WORD NAME)`;
/// else the second (own). `word` is in lower case; the case of letters in the file does not count.
///
/// Fails where memory for the name's bytes is refused.
pub fn open_file<'i, 't, 'a, A: Allocator, B: Allocator>(
    alloc: &'a B,
    word: &[u8],
    items: &'i [Item<'t, A>],
) -> Result<Result<Opening<'i, 't, A, &'a B>, Span>, AllocError>
    requires { folded word.now ≡ word.now }
    ensures { IfOk result (λ head. MatchResult head
        (λ opening. IsOpened word.now opening.name (items_view opening.sections.now) (items_view items.now))
        (λ span. HeadFault word.now (items_view items.now) span)) }
{
    let [first, rest @ ..] = items else {
        return Ok(Err(Span { start: 0, end: 0 }));
    };
    let Some(opening) = opening_at(alloc, word, first)? else {
        return Ok(Err(span_of(first)));
    };
    match rest {
        [] => Ok(Ok(opening)),
        [second, ..] => Ok(Err(span_of(second))),
    }
}

/// The name and the sections of the file that an item is.
fn opening_at<'i, 't, 'a, A: Allocator, B: Allocator>(
    alloc: &'a B,
    word: &[u8],
    item: &'i Item<'t, A>,
) -> Result<Option<Opening<'i, 't, A, &'a B>>, AllocError>
    requires { folded word.now ≡ word.now }
    ensures { IfOk result (λ found. option_map opening_view found ≡ opening_at word.now (item_view item.now)) }
{
    match item {
        Item::Word(_) => Ok(None),
        Item::List(items, _) => opening_of(alloc, word, items),
    }
}

/// The name and the sections of the file whose items, inside its parentheses, these are.
fn opening_of<'i, 't, 'a, A: Allocator, B: Allocator>(
    alloc: &'a B,
    word: &[u8],
    items: &'i [Item<'t, A>],
) -> Result<Option<Opening<'i, 't, A, &'a B>>, AllocError>
    requires { folded word.now ≡ word.now }
    ensures { IfOk result (λ found. option_map opening_view found ≡ opening_of word.now (items_view items.now)) }
{
    let [first, title, sections @ ..] = items else {
        return Ok(None);
    };
    if !is_word_item(first, b"define") {
        return Ok(None);
    }
    let Some(name) = title_at(alloc, word, title)? else {
        return Ok(None);
    };
    Ok(Some(Opening { name, sections }))
}

/// The name in `(WORD NAME)`.
fn title_at<'a, A: Allocator, B: Allocator>(
    alloc: &'a B,
    word: &[u8],
    item: &Item<'_, A>,
) -> Result<Option<Name<&'a B>>, AllocError>
    requires { folded word.now ≡ word.now }
    ensures { IfOk result (λ name. name ≡ title_at word.now (item_tree item.now)) }
{
    match item {
        Item::Word(_) => Ok(None),
        Item::List(items, _) => title_of(alloc, word, items),
    }
}

/// The name in `WORD NAME`.
fn title_of<'a, A: Allocator, B: Allocator>(
    alloc: &'a B,
    word: &[u8],
    items: &[Item<'_, A>],
) -> Result<Option<Name<&'a B>>, AllocError>
    requires { folded word.now ≡ word.now }
    ensures { IfOk result (λ name. name ≡ title_of word.now (item_trees items.now)) }
{
    let [first, second] = items else {
        return Ok(None);
    };
    if !is_word_item(first, word) {
        return Ok(None);
    }
    name_of(alloc, second)
}
