//! The line of a refused file.

ghost use Rattle.std.specs.Prelude.{◌≡◌, ◌≤◌, ◌++◌, [], ℕ, List, Option, Some, codes, length, IfOk, OnOk};
ghost use Rattle.std.specs.Fmt.{decimal};
ghost use Rattle.pddl_text.specs.LineStarts.{line_starts};
ghost use Rattle.pddl_file_lines.specs.Inner.Faults.{whole_name, shown_position};
ghost use Rattle.pddl_file_lines.specs.Lines.{IsPosition, IsFaultLine};

use crate::fault_names::FaultName;
use itoa::Buffer;
use pddl_scan::LONGEST;
use pddl_text::{Places, Pos, position};
use std::alloc::{AllocError, Allocator};

/// Adds a whole number.
///
/// Fails where memory for it is refused.
pub fn push_number<A: Allocator>(line: &mut Vec<u8, A>, number: u128) -> Result<(), AllocError>
    ensures { OnOk result (line.new.items ≡ line.old.items ++ decimal number) }
{
    let mut buffer = Buffer::new();
    line.extend_from_slice(buffer.format(number).as_bytes())?;
    Ok(())
}

/// Adds the name of a fault.
fn push_name<A: Allocator>(line: &mut Vec<u8, A>, name: FaultName) -> Result<(), AllocError>
    ensures { OnOk result (line.new.items ≡ line.old.items ++ whole_name name.entry) }
{
    line.extend_from_slice(name.numbered.as_bytes())?;
    line.extend_from_slice(name.about)?;
    Ok(())
}

/// Adds where a fault stands: the line and the column of its place.
fn push_position<A: Allocator>(line: &mut Vec<u8, A>, pos: Pos) -> Result<(), AllocError>
    ensures { OnOk result (line.new.items ≡ line.old.items ++ (codes " at " ++ (decimal pos.line ++ (codes ":" ++ decimal pos.col)))) }
{
    line.extend_from_slice(b" at ")?;
    push_number(line, u128::from(pos.line))?;
    line.push(b':')?;
    push_number(line, u128::from(pos.col))?;
    Ok(())
}

/// Adds where a fault stands, if it has a place.
fn push_place<A: Allocator>(line: &mut Vec<u8, A>, pos: Option<Pos>) -> Result<(), AllocError>
    ensures { OnOk result (line.new.items ≡ line.old.items ++ shown_position pos) }
{
    match pos {
        None => Ok(()),
        Some(pos) => push_position(line, pos),
    }
}

/// The position of a place in a text, if there is one.
pub(crate) fn position_of(text: &[u8], place: Option<u32>) -> Option<Pos>
    requires { (at : ℕ) → place ≡ Some at → (at ≤ length text.now) × (at ≤ LONGEST) }
    ensures { IsPosition text.now place result }
{
    match place {
        None => None,
        Some(at) => position(text, at),
    }
}

/// The position of a place in a text that came in pieces, if there is one.
pub(crate) fn position_in<A: Allocator>(places: &Places<A>, place: Option<u32>) -> Option<Pos>
    ensures { (text : List ℕ) → places.now ≡ line_starts text → ((at : ℕ) → place ≡ Some at → (at ≤ length text) × (at ≤ LONGEST))
        → IsPosition text place result }
{
    match place {
        None => None,
        Some(at) => places.position(at),
    }
}

/// The line of a file that is refused: `word` says what the file is, `name` which fault it has, and `pos` where in the file
/// that stands.
///
/// Fails where memory for the line is refused.
pub(crate) fn fault_line_at<A: Allocator>(
    alloc: A,
    word: &[u8],
    name: FaultName,
    pos: Option<Pos>,
) -> Result<Vec<u8, A>, AllocError>
    // It is the line for each text and each place in it that have this position.
    ensures { (text : List ℕ) (place : Option ℕ) → IsPosition text place pos → IfOk result (λ line. IsFaultLine word.now text (whole_name name.entry) place line.items) }
{
    let mut line = Vec::new(alloc);
    line.extend_from_slice(word)?;
    line.extend_from_slice(b": fault ")?;
    push_name(&mut line, name)?;
    push_place(&mut line, pos)?;
    line.push(b'\n')?;
    Ok(line)
}

/// The line of a file that is refused for a fault without a place: `word` says what the file is, and `name` which fault it has.
///
/// Fails where memory for the line is refused.
pub fn fault_line<A: Allocator>(
    alloc: A,
    word: &[u8],
    name: FaultName,
) -> Result<Vec<u8, A>, AllocError>
    ensures { IfOk result (λ line. IsFaultLine word.now [] (whole_name name.entry) None line.items) }
{
    fault_line_at(alloc, word, name, None)
}
