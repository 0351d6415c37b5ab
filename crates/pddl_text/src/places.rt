//! Lines and columns of a text that comes in pieces.

ghost use Rattle.std.specs.Prelude.{◌≡◌, ◌≤◌, ◌<◌, ◌+◌, ◌++◌, ◌∷◌, [], ◌⊎◌, ◌↔◌, ℕ, List, length, take, leb, slice_index_or, IfErr, OnOk, OnErr, IfSome, IsSome, Err};
ghost use Rattle.std.specs.List.{prefix_len};
ghost use Rattle.std.specs.List.Sorted.{IsNonDecreasing};
ghost use Rattle.pddl_scan.specs.declared.fault.TextFault.TheVariants.{Memory, TooLong};
ghost use Rattle.pddl_text.specs.Positions.{IsBehind};
ghost use Rattle.pddl_text.specs.LineStarts.{starts_from, line_starts, AreStarts};

use crate::place::Pos;
use pddl_scan::{LONGEST, TextFault};
use std::alloc::Allocator;
use std::marker::Model;

/// The lines of a text that comes in pieces: the positions that [`position`](crate::position) answers for the whole,
/// however it is cut.
///
/// It keeps no byte of the text, and a place for each LF. Contracts see it as the places where lines begin, but the first,
/// and the length. Own.
#[derive(Drop)]
pub struct Places<A: Allocator> {
    /// The place behind each LF.
    starts: Vec<u32, A>,
    /// How many bytes have come.
    len: usize,
}

impl<A: Allocator> Model for Places<A> {
    ghost use Rattle.pddl_text.specs.LineStarts.{LineStarts, AreStarts};

    ghost Value = { LineStarts };

    ghost view = { λ p. record { starts = p.starts.items; len = p.len } };

    ghost invariant = { λ p. AreStarts p.starts.items p.len };
}

/// Adds the places behind the LFs of a piece.
fn add_starts<A: Allocator>(
    starts: &mut Vec<u32, A>,
    start: usize,
    piece: &[u8],
) -> Result<(), TextFault>
    requires { start + length piece.now ≤ LONGEST }
    ensures added { OnOk result (starts.new.items ≡ starts.old.items ++ starts_from start piece.now) }
    ensures kept { take (length starts.old.items) starts.new.items ≡ starts.old.items }
    ensures memory { IfErr result (λ fault. fault ≡ Memory) }
{
    let mut at = start;
    for byte in piece {
        at += 1;
        if *byte == b'\n' {
            starts.push(at as u32)?;
        }
    }
    Ok(())
}

/// Adds the places behind the LFs of a piece, or none.
fn add_all_starts<A: Allocator>(
    starts: &mut Vec<u32, A>,
    start: usize,
    piece: &[u8],
) -> Result<(), TextFault>
    requires { start + length piece.now ≤ LONGEST }
    ensures added { OnOk result (starts.new.items ≡ starts.old.items ++ starts_from start piece.now) }
    ensures unchanged { OnErr result (starts.new.items ≡ starts.old.items) }
    ensures memory { IfErr result (λ fault. fault ≡ Memory) }
{
    let count = starts.len();
    let added = add_starts(starts, start, piece);
    if added.is_err() {
        starts.truncate(count);
    }
    added
}

/// How many lines, but the first, begin at the place at the latest.
fn begun(starts: &[u32], place: u32) -> usize
    requires { IsNonDecreasing starts.now }
    ensures { result ≡ prefix_len (λ s. leb s place) starts.now }
{
    starts.partition_point(|start| *start <= place)
}

/// Where the line begins that so many others stand before.
fn line_start(starts: &[u32], count: usize) -> u32
    requires { count ≤ length starts.now }
    ensures { result ≡ slice_index_or (0 ∷ starts.now) count 0 }
{
    if count == 0 { 0 } else { starts[count - 1] }
}

/// The position of a place, by where the lines begin.
fn position_among(starts: &[u32], place: u32) -> Pos
    requires starts { (len : ℕ) × AreStarts starts.now len }
    requires short { place ≤ LONGEST }
    ensures { (text : List ℕ) → starts.now ≡ starts_from 0 text → place ≤ length text → IsBehind (take place text) result }
{
    let count = begun(starts, place);
    let start = line_start(starts, count);
    Pos {
        line: count as u32 + 1,
        col: place - start + 1,
    }
}

impl<A: Allocator> Places<A> {
    /// The places of the empty text. It takes no memory.
    pub fn new(alloc: A) -> Places<A>
        ensures { result ≡ line_starts [] }
    {
        Places {
            starts: Vec::new(alloc),
            len: 0,
        }
    }

    /// Takes the next piece of the text.
    ///
    /// # Errors
    ///
    /// [`TextFault::TooLong`] where the text has more than [`LONGEST`] bytes with the piece, and else
    /// [`TextFault::Memory`] where a growth was refused. Either leaves it unchanged.
    pub fn feed(&mut self, piece: &[u8]) -> Result<(), TextFault>
        // It has the lines of the text with the piece added.
        ensures lines { (text : List ℕ) → self.old ≡ line_starts text → OnOk result (self.new ≡ line_starts (text ++ piece.now)) }
        ensures unchanged { OnErr result (self.new ≡ self.old) }
        // The length alone decides whether the text is too long, whatever memory does.
        ensures too_long { (result ≡ Err TooLong) ↔ (LONGEST < self.old.len + length piece.now) }
        ensures refusals { IfErr result (λ fault. (fault ≡ TooLong) ⊎ (fault ≡ Memory)) }
    {
        if piece.len() > LONGEST - self.len {
            return Err(TextFault::TooLong);
        }
        add_all_starts(&mut self.starts, self.len, piece)?;
        self.len += piece.len();
        Ok(())
    }

    /// The position of a place of the text, as [`position`](crate::position) answers it. It takes no memory.
    ///
    /// None past the text's end, which itself has a position, and past [`LONGEST`].
    pub fn position(&self, place: u32) -> Option<Pos>
        ensures some { (text : List ℕ) → self.now ≡ line_starts text → IsSome result ↔ ((place ≤ length text) × (place ≤ LONGEST)) }
        ensures behind { (text : List ℕ) → self.now ≡ line_starts text → IfSome result (λ pos. IsBehind (take place text) pos) }
    {
        if place as usize > self.len {
            return None;
        }
        Some(position_among(&self.starts, place))
    }
}
