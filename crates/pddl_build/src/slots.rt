//! Values that are filled in place.

ghost use Rattle.std.specs.Prelude.{◌≡◌, Some, is_none};
ghost use Rattle.std.specs.Option.{option_or};
ghost use Rattle.pddl_build.specs.Results.{PushesFound, Pushed};

use crate::results::list_if_right;
use std::alloc::{AllocError, Allocator};

/// Puts a value into an empty slot; true exactly where it was empty. What stands in it already stays.
pub fn fill<T: Drop>(slot: &mut Option<T>, value: T) -> bool
    ensures filled { slot.new ≡ option_or slot.old (Some value) }
    ensures empty { result ≡ is_none slot.old }
{
    if slot.is_some() {
        return false;
    }
    *slot = Some(value);
    true
}

/// Puts a value behind those of the list, if there is one; true exactly where there is one.
///
/// Fails as the value failed, and where memory for the list is refused; the list is then as it was.
pub fn push_found<T: Drop, A: Allocator>(
    list: &mut Vec<T, A>,
    value: Result<Option<T>, AllocError>,
) -> Result<bool, AllocError>
    ensures { PushesFound list.old.items value list.new.items result }
{
    let Some(value) = value? else {
        return Ok(false);
    };
    list.push(value)?;
    Ok(true)
}

/// The list with the value behind it, or `None` where one of them is missing.
///
/// Fails as the list failed; where there is one, as the value did, and where memory for the list is refused.
pub fn pushed<T: Drop, A: Allocator>(
    list: Result<Option<Vec<T, A>>, AllocError>,
    value: Result<Option<T>, AllocError>,
) -> Result<Option<Vec<T, A>>, AllocError>
    ensures { Pushed list value result }
{
    let Some(mut list) = list? else {
        return Ok(None);
    };
    let right = push_found(&mut list, value);
    list_if_right(list, right)
}
