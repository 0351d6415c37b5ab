//! Reads a text piece by piece. What may be a word's beginning at a piece's end is held back.

ghost use Rattle.std.specs.Prelude.{◌≡◌, ◌≢◌, ◌≤◌, ◌<◌, ◌+◌, ◌++◌, [], ◌⊎◌, ℕ, List, length, take, drop, IfOk, IfErr, MatchOption, MatchResult};
ghost use Rattle.std.specs.List.{AllPass, prefix_len};
ghost use Rattle.pddl_token.specs.Bytes.{is_inner_byte};
ghost use Rattle.pddl_scan.specs.declared.parts.Progress.TheVariants as progress;
ghost use Rattle.pddl_scan.specs.declared.fault.TextFault.TheVariants.{Memory, TooLong, AlreadyFailed};
ghost use Rattle.pddl_token.specs.Spelling.{PlacedWord, Spells};
ghost use Rattle.pddl_scan.specs.Faults.{AreValued, Stands};
ghost use Rattle.pddl_scan.specs.Inner.Parts.{IsEnded, AnswersAt};
ghost use Rattle.pddl_scan.specs.InPieces.{HasRead};

use crate::bytes::is_inner_byte;
use crate::fault::{LONGEST, TextFault};
use crate::next::line_len;
use crate::parts::{Progress, read_parts};
use crate::word_list::WordList;
use std::alloc::Allocator;

fn inner_len(text: &[u8]) -> usize
    ensures value { result ≡ prefix_len is_inner_byte text.now }
    ensures in_range { result ≤ length text.now }
{
    text.iter().take_while(|b| is_inner_byte(**b)).count()
}

/// How many bytes there are through the first that is not held back.
fn first_end(text: &[u8]) -> Option<usize>
    ensures { MatchOption result (AllPass is_inner_byte text.now) (λ len. (len ≤ length text.now) × IsEnded (take len text.now)) }
{
    let len = inner_len(text);
    if len < text.len() {
        Some(len + 1)
    } else {
        None
    }
}

/// How many bytes there are through the last that is not held back.
fn last_end(text: &[u8]) -> usize
    ensures in_range { result ≤ length text.now }
    ensures ended { (result ≡ 0) ⊎ IsEnded (take result text.now) }
    ensures held { AllPass is_inner_byte (drop result text.now) }
{
    let mut len = text.len();
    while len > 0 && is_inner_byte(text[len - 1]) {
        len -= 1;
    }
    len
}

/// Reads what follows a place where no word is cut.
fn read_words<A: Allocator>(
    start: usize,
    held: &mut Vec<u8, A>,
    piece: &[u8],
    words: &mut WordList<A>,
) -> Result<Progress, TextFault>
    requires short { start + length piece.now ≤ LONGEST }
    requires empty { held.old.items ≡ [] }
    ensures read { (before : List ℕ) (given : List PlacedWord) → length before ≡ start
        → HasRead progress.Words [] before (given ++ words.old)
        → IfOk result (λ progress. HasRead progress held.new.items (before ++ piece.now) (given ++ words.new)) }
    ensures memory { IfErr result (λ fault. fault ≡ Memory) }
    ensures held_short { length held.new.items ≤ length piece.now }
{
    let len = last_end(piece);
    let (ended, rest) = piece.split_at(len);
    let stop = read_parts(start, ended, words)?;
    if let Progress::Words = stop.progress {
        held.extend_from_slice(rest)?;
    }
    Ok(stop.progress)
}

/// Reads what follows a place where no word is cut, or a comment, or a fault.
fn read_on<A: Allocator>(
    start: usize,
    progress: Progress,
    held: &mut Vec<u8, A>,
    piece: &[u8],
    words: &mut WordList<A>,
) -> Result<Progress, TextFault>
    requires short { start + length piece.now ≤ LONGEST }
    requires empty { held.old.items ≡ [] }
    ensures read { (before : List ℕ) (given : List PlacedWord) → length before ≡ start
        → HasRead progress [] before (given ++ words.old)
        → IfOk result (λ next. HasRead next held.new.items (before ++ piece.now) (given ++ words.new)) }
    ensures memory { IfErr result (λ fault. fault ≡ Memory) }
    ensures held_short { length held.new.items ≤ length piece.now }
{
    match progress {
        Progress::Words => read_words(start, held, piece, words),
        Progress::Comment => {
            let len = line_len(piece);
            if len < piece.len() {
                let rest = piece.split_at(len + 1).1;
                read_words(start + len + 1, held, rest, words)
            } else {
                Ok(progress)
            }
        }
        _ => Ok(progress),
    }
}

/// Reads what follows a word's beginning.
fn read_held<A: Allocator>(
    start: usize,
    held: &mut Vec<u8, A>,
    piece: &[u8],
    words: &mut WordList<A>,
) -> Result<Progress, TextFault>
    requires short { start + length piece.now ≤ LONGEST }
    requires held_short { length held.old.items ≤ start }
    ensures read { (before : List ℕ) (given : List PlacedWord) → length before ≡ start
        → HasRead progress.Words held.old.items before (given ++ words.old)
        → IfOk result (λ next. HasRead next held.new.items (before ++ piece.now) (given ++ words.new)) }
    ensures memory { IfErr result (λ fault. fault ≡ Memory) }
    ensures held_short { length held.new.items ≤ start + length piece.now }
{
    let begun = start - held.len();
    let Some(len) = first_end(piece) else {
        held.extend_from_slice(piece)?;
        return Ok(Progress::Words);
    };
    let (end, rest) = piece.split_at(len);
    held.extend_from_slice(end)?;
    let stop = read_parts(begun, held.as_slice(), words)?;
    held.clear();
    read_on(start + len, stop.progress, held, rest, words)
}

/// Reads one more piece.
pub fn read_piece<A: Allocator>(
    start: usize,
    progress: Progress,
    held: &mut Vec<u8, A>,
    piece: &[u8],
    words: &mut WordList<A>,
) -> Result<Progress, TextFault>
    requires short { start + length piece.now ≤ LONGEST }
    requires held_short { length held.old.items ≤ start }
    ensures read { (before : List ℕ) (given : List PlacedWord) → length before ≡ start
        → HasRead progress held.old.items before (given ++ words.old)
        → IfOk result (λ next. HasRead next held.new.items (before ++ piece.now) (given ++ words.new)) }
    ensures memory { IfErr result (λ fault. fault ≡ Memory) }
    ensures held_short { length held.new.items ≤ start + length piece.now }
{
    if held.is_empty() {
        return read_on(start, progress, held, piece, words);
    }
    match progress {
        Progress::Words => read_held(start, held, piece, words),
        _ => Ok(progress),
    }
}

/// Reads what is left at the text's end.
pub fn read_last<A: Allocator>(
    start: usize,
    progress: Progress,
    held: &[u8],
    words: &mut WordList<A>,
) -> Result<Progress, TextFault>
    requires short { start ≤ LONGEST }
    requires held_short { length held.now ≤ start }
    ensures read { (text : List ℕ) (given : List PlacedWord) → length text ≡ start
        → HasRead progress held.now text (given ++ words.old)
        → IfOk result (λ last. AnswersAt last text (given ++ words.new)) }
    ensures memory { IfErr result (λ fault. fault ≡ Memory) }
{
    match progress {
        Progress::Words => {
            let stop = read_parts(start - held.len(), held, words)?;
            Ok(stop.progress)
        }
        _ => Ok(progress),
    }
}

/// What reading up to the text's end answers.
pub fn answer(progress: Progress) -> Result<(), TextFault>
    ensures answers { (text : List ℕ) (words : List PlacedWord) → length text ≤ LONGEST → AnswersAt progress text words
        → MatchResult result (λ _. Spells words text × AreValued words) (λ fault. Stands fault text) }
    ensures faults { IfErr result (λ fault. (fault ≢ TooLong) × (fault ≢ AlreadyFailed)) }
{
    match progress {
        Progress::Words | Progress::Comment => Ok(()),
        Progress::Stray { at } => Err(TextFault::Stray { at }),
        Progress::Glued { at } => Err(TextFault::Glued { at }),
        Progress::NumberRange { at } => Err(TextFault::NumberRange { at }),
    }
}
