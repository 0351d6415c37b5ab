//! Parts as they were read, put together.

ghost use Rattle.std.specs.Prelude.{◌≡◌, Ok, IfOk};
ghost use Rattle.pddl_build.specs.Results.{right_of, both_of, both_made, Boxes, BothBoxed, BothInBoxes};

use std::alloc::{AllocError, Allocator};

/// The value, where what was done with it went right; `None` where it went wrong.
///
/// Fails as what was done with it failed.
pub fn if_right<T: Drop, E: Drop>(value: T, right: Result<bool, E>) -> Result<Option<T>, E>
    ensures { result ≡ right_of value right }
{
    if right? { Ok(Some(value)) } else { Ok(None) }
}

/// [`if_right`] of a list. (A call at `Vec<T, A>`, both of which hold references, has no proof today.)
///
/// Fails as what was done with the list failed.
pub fn list_if_right<T: Drop, A: Allocator>(
    list: Vec<T, A>,
    right: Result<bool, AllocError>,
) -> Result<Option<Vec<T, A>>, AllocError>
    ensures { result ≡ right_of list right }
{
    if_right(list, right)
}

/// Two values, or `None` where one of them is missing.
///
/// Fails as the first failed, or else as the second did.
pub fn both<T: Drop, U: Drop, E: Drop>(
    first: Result<Option<T>, E>,
    second: Result<Option<U>, E>,
) -> Result<Option<(T, U)>, E>
    ensures { result ≡ both_of first second }
{
    Ok(first?.zip(second?))
}

/// Two values, where both were made.
///
/// Fails as the first failed, or else as the second did.
pub fn both_made<T: Drop, U: Drop, E: Drop>(
    first: Result<T, E>,
    second: Result<U, E>,
) -> Result<(T, U), E>
    ensures { result ≡ both_made first second }
{
    let first = first?;
    let second = second?;
    Ok((first, second))
}

/// A list and two values, where all of them were made.
///
/// Fails as the first of them that failed.
pub fn all_made<T: Drop, A: Allocator, U: Drop, V: Drop>(
    list: Result<Vec<T, A>, AllocError>,
    first: Result<U, AllocError>,
    second: Result<V, AllocError>,
) -> Result<(Vec<T, A>, U, V), AllocError>
    ensures list { IfOk result (λ made. list ≡ Ok made.0) }
    ensures first { IfOk result (λ made. first ≡ Ok made.1) }
    ensures second { IfOk result (λ made. second ≡ Ok made.2) }
{
    let list = list?;
    let first = first?;
    let second = second?;
    Ok((list, first, second))
}

/// The value in a box, or `None` where it is missing.
///
/// Fails as the value failed, and where memory for the box is refused.
pub fn boxed<'a, T: Drop, B: Allocator>(
    alloc: &'a B,
    value: Result<Option<T>, AllocError>,
) -> Result<Option<Box<T, &'a B>>, AllocError>
    ensures { Boxes value result }
{
    let Some(value) = value? else {
        return Ok(None);
    };
    Ok(Some(Box::new(alloc, value)?))
}

/// Two values, each in a box, or `None` where one of them is missing.
///
/// Fails as the first failed, or else as the second did, and where memory for a box is refused.
pub fn both_in_boxes<'a, T: Drop, U: Drop, B: Allocator>(
    alloc: &'a B,
    first: Result<Option<T>, AllocError>,
    second: Result<Option<U>, AllocError>,
) -> Result<Option<(Box<T, &'a B>, Box<U, &'a B>)>, AllocError>
    ensures { BothInBoxes first second result }
{
    let first = boxed(alloc, first);
    both_boxed(alloc, first, second)
}

/// Two values, the second in a box, or `None` where one of them is missing.
///
/// Fails as the first failed, or else as the second did, and where memory for the box is refused.
pub fn both_boxed<'a, T: Drop, U: Drop, B: Allocator>(
    alloc: &'a B,
    first: Result<Option<T>, AllocError>,
    second: Result<Option<U>, AllocError>,
) -> Result<Option<(T, Box<U, &'a B>)>, AllocError>
    ensures { BothBoxed first second result }
{
    both(first, boxed(alloc, second))
}
