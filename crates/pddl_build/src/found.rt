//! Values that are put where they belong as soon as they are read.

ghost use Rattle.pddl_build.specs.Found.{FillsFound, SetsFound, AppendsFound};

use crate::slots::fill;
use std::alloc::{AllocError, Allocator};

/// Puts a value into an empty slot, if there is one; true exactly where there is one and the slot was empty. What stands in
/// it already stays.
///
/// Fails as the value failed.
pub fn fill_found<T: Drop>(
    slot: &mut Option<T>,
    value: Result<Option<T>, AllocError>,
) -> Result<bool, AllocError>
    ensures { FillsFound slot.old value slot.new result }
{
    let Some(value) = value? else {
        return Ok(false);
    };
    Ok(fill(slot, value))
}

/// Makes a slot what was found; true exactly where there is a value.
///
/// Fails as the value failed; the slot is then as it was.
pub fn set_found<T: Drop>(
    slot: &mut Option<T>,
    value: Result<Option<T>, AllocError>,
) -> Result<bool, AllocError>
    ensures { SetsFound slot.old value slot.new result }
{
    *slot = value?;
    Ok(slot.is_some())
}

/// [`set_found`] of a list. (A call at `Vec<T, A>`, both of which hold references, has no proof today.)
///
/// Fails as the list failed; the slot is then as it was.
pub fn set_list<T: Drop, A: Allocator>(
    slot: &mut Option<Vec<T, A>>,
    list: Result<Option<Vec<T, A>>, AllocError>,
) -> Result<bool, AllocError>
    ensures { SetsFound slot.old list slot.new result }
{
    set_found(slot, list)
}

/// Puts a list of values behind those of another, if there is one; true exactly where there is one.
///
/// Fails as the values failed, and where memory for the list is refused; the list is then as it was.
pub fn append_found<T: Drop, A: Allocator>(
    list: &mut Vec<T, A>,
    values: Result<Option<Vec<T, A>>, AllocError>,
) -> Result<bool, AllocError>
    ensures { AppendsFound list.old.items values list.new.items result }
{
    let Some(mut values) = values? else {
        return Ok(false);
    };
    list.append(&mut values)?;
    Ok(true)
}
