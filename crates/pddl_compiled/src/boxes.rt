//! Values that are put together as they were made.
//!
//! Here an owned value is of a type of which nothing is known, so that the functions that compile keep one way out while they own one.

ghost use Rattle.std.specs.Prelude.{◌≡◌, cond, [], ◌∷◌, ◌++◌, Ok, IfOk, IsOkAnd, OnOk};

use std::alloc::{AllocError, Allocator};

/// The value in a box.
///
/// Fails as the value failed, and where memory for the box is refused.
pub(crate) fn boxed<'b, T: Drop, B: Allocator>(
    alloc: &'b B,
    value: Result<T, AllocError>,
) -> Result<Box<T, &'b B>, AllocError>
    ensures { IfOk result (λ made. value ≡ Ok made.value) }
{
    Ok(Box::new(alloc, value?)?)
}

/// Two values, the second in a box.
///
/// Fails as the first failed, or else as the second did, and where memory for the box is refused.
pub(crate) fn both_boxed<'b, T: Drop, U: Drop, B: Allocator>(
    alloc: &'b B,
    first: Result<T, AllocError>,
    second: Result<U, AllocError>,
) -> Result<(T, Box<U, &'b B>), AllocError>
    ensures first { IfOk result (λ made. first ≡ Ok made.0) }
    ensures second { IfOk result (λ made. second ≡ Ok made.1.value) }
{
    let first = first?;
    let second = boxed(alloc, second)?;
    Ok((first, second))
}

/// Two values, each in a box.
///
/// Fails as the first failed, or else as the second did, and where memory for a box is refused.
pub(crate) fn both_in_boxes<'b, T: Drop, U: Drop, B: Allocator>(
    alloc: &'b B,
    first: Result<T, AllocError>,
    second: Result<U, AllocError>,
) -> Result<(Box<T, &'b B>, Box<U, &'b B>), AllocError>
    ensures first { IfOk result (λ made. first ≡ Ok made.0.value) }
    ensures second { IfOk result (λ made. second ≡ Ok made.1.value) }
{
    let first = boxed(alloc, first)?;
    let second = boxed(alloc, second)?;
    Ok((first, second))
}

/// Puts a value behind those of a list.
///
/// Fails as the value failed, and where memory for the list is refused.
pub(crate) fn push_made<T: Drop, A: Allocator>(
    list: &mut Vec<T, A>,
    value: Result<T, AllocError>,
) -> Result<(), AllocError>
    ensures { OnOk result (IsOkAnd value (λ v. list.new.items ≡ list.old.items ++ v ∷ [])) }
{
    list.push(value?)?;
    Ok(())
}

/// Puts a value behind those of a list, where it is wanted.
///
/// Fails where memory for the list is refused.
pub(crate) fn push_where<T: Drop, A: Allocator>(
    list: &mut Vec<T, A>,
    wanted: bool,
    value: T,
) -> Result<(), AllocError>
    ensures { OnOk result (list.new.items ≡ cond wanted (list.old.items ++ value ∷ []) list.old.items) }
{
    if wanted {
        list.push(value)?;
    }
    Ok(())
}
