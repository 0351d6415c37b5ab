//! Flags of `:requirements`.

ghost use Rattle.std.specs.Prelude.{◌≡◌, IfOk, map, option_map};
ghost use Rattle.pddl_items.specs.ItemTrees.{item_tree, item_trees};
ghost use Rattle.pddl_items.specs.Inner.TreeReading.{all_of};
ghost use Rattle.pddl_file.specs.Inner.WordReading.{flag_name, flag_at};

use pddl_items::Item;
use pddl_token::{Name, TokenKind};
use std::alloc::{AllocError, Allocator};

/// The flag that an item spells, by its name without `:`, or `None` where it spells none (Kovacs, `<require-key>`; that any
/// keyword is a flag is own).
///
/// Fails where memory for the name is refused.
pub fn flag_of<'a, B: Allocator>(
    alloc: &'a B,
    item: &Item<'_, &'a B>,
) -> Result<Option<Name<&'a B>>, AllocError>
    ensures { IfOk result (λ flag. flag ≡ flag_at (item_tree item.now)) }
{
    match item {
        Item::Word(token) => match token.kind {
            TokenKind::Keyword => flag_name(alloc, token.text),
            _ => Ok(None),
        },
        Item::List(_, _) => Ok(None),
    }
}

/// The name behind `:`.
fn flag_name<'a, B: Allocator>(alloc: &'a B, text: &[u8]) -> Result<Option<Name<&'a B>>, AllocError>
    ensures { IfOk result (λ flag. flag ≡ flag_name text.now) }
{
    match text {
        [b':', name @ ..] => Name::new(alloc, name),
        _ => Ok(None),
    }
}

/// The flags that some items spell, one each, or `None` where one of them spells none.
///
/// Fails where memory for the flags is refused.
pub fn flags_of<'a, B: Allocator>(
    alloc: &'a B,
    items: &[Item<'_, &'a B>],
) -> Result<Option<Vec<Name<&'a B>, &'a B>>, AllocError>
    ensures { IfOk result (λ flags. option_map (λ v. v.items) flags ≡ all_of (map flag_at (item_trees items.now))) }
{
    let mut flags = Vec::with_capacity(alloc, items.len())?;
    for item in items {
        let Some(flag) = flag_of(alloc, item)? else {
            return Ok(None);
        };
        flags.push(flag)?;
    }
    Ok(Some(flags))
}
