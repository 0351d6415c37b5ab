//! The words of a text.

ghost use Rattle.std.specs.Prelude.{◌≡◌, ◌≢◌, ◌<◌, ◌≤◌, ◌↔◌, ◌++◌, ◌∷◌, [], ℕ, List, length, map, All, AllPairs, IfOk, IfErr, IfSome, MatchOption, MatchResult, Err};
ghost use Rattle.pddl_scan.specs.declared.fault.TextFault.TheVariants.{Memory, TooLong};
ghost use Rattle.pddl_token.specs.Spelling.{PlacedWord, Spells, view};
ghost use Rattle.pddl_text.specs.Spans.{IsSlice, EndsBefore};
ghost use Rattle.pddl_scan.specs.Faults.{AreValued, Stands};
ghost use Rattle.pddl_scan.specs.Scanning.{LexedTo};

use pddl_scan::{LONGEST, Next, TextFault, begins_with_blank, next_part};
use pddl_token::{Span, Token};
use std::alloc::Allocator;

/// The next word of a text whose words up to a place are read, or `None` where the text has no more.
///
/// Its errors are those of [`lex`] behind the place.
pub fn next_token<'a>(text: &'a [u8], from: usize) -> Result<Option<Token<'a>>, TextFault>
    requires short { length text.now ≤ LONGEST }
    ensures next { (words : List PlacedWord) → LexedTo text.now words from → MatchResult result
        (λ found. MatchOption found (Spells words text.now) (λ token. LexedTo text.now (words ++ view token ∷ []) token.span.end))
        (λ fault. Stands fault text.now) }
    ensures further { IfOk result (λ found. IfSome found (λ token. from < token.span.end)) }
    ensures within { IfOk result (λ found. IfSome found (λ token. token.span.end ≤ length text.now)) }
    ensures no_memory { IfErr result (λ fault. fault ≢ Memory) }
{
    let mut at = from;
    while at < text.len() {
        let rest = text.split_at(at).1;
        if begins_with_blank(rest) {
            at += 1;
            continue;
        }
        match next_part(rest) {
            Next::Gap { len } => at += len,
            Next::Word { kind, len } => {
                let span = Span {
                    start: at as u32,
                    end: (at + len) as u32,
                };
                return Ok(Some(Token {
                    kind,
                    text: rest.split_at(len).0,
                    span,
                }));
            }
            Next::OpenComment => return Ok(None),
            Next::Stray => return Err(TextFault::Stray { at: at as u32 }),
            Next::Glued => return Err(TextFault::Glued { at: at as u32 }),
            Next::OutOfRange => return Err(TextFault::NumberRange { at: at as u32 }),
        }
    }
    Ok(None)
}

/// The words of a text, in order.
///
/// A text is blanks (space, tab, LF, CR, FF), comments (from `;` to the next LF or the end) and words in turn; at most one
/// list of words spells it. Kovacs, BNF definition of PDDL 3.1; what may stand directly after a word is own.
///
/// # Errors
///
/// [`TextFault::TooLong`] where the text has more than [`LONGEST`] bytes, and else the leftmost of
/// [`Stray`](TextFault::Stray), [`Glued`](TextFault::Glued) and [`NumberRange`](TextFault::NumberRange), each with the
/// place where its word would begin. [`TextFault::Memory`] only where a growth was refused.
pub fn lex<'a, A: Allocator>(alloc: A, text: &'a [u8]) -> Result<Vec<Token<'a>, A>, TextFault>
    // What is answered is the text's words, and each number has a value.
    ensures words { IfOk result (λ tokens. Spells (map view tokens.items) text.now) }
    ensures valued { IfOk result (λ tokens. AreValued (map view tokens.items)) }
    // They are slices of the text, in order.
    ensures slices { IfOk result (λ tokens. All (IsSlice text.now) (map view tokens.items)) }
    ensures in_order { IfOk result (λ tokens. AllPairs EndsBefore (map view tokens.items)) }
    ensures within { IfOk result (λ _. length text.now ≤ LONGEST) }
    // Words that spell a text within the limit are answered.
    ensures only { (words : List PlacedWord) → Spells words text.now → AreValued words → length text.now ≤ LONGEST
        → MatchResult result (λ tokens. map view tokens.items ≡ words) (λ fault. fault ≡ Memory) }
    // What is wrong is the leftmost fault.
    ensures fault { IfErr result (λ fault. Stands fault text.now) }
    // The length alone decides the first fault, whatever memory does.
    ensures too_long { (result ≡ Err TooLong) ↔ (LONGEST < length text.now) }
{
    if text.len() > LONGEST {
        return Err(TextFault::TooLong);
    }
    let mut tokens = Vec::new(alloc);
    let mut at = 0;
    while let Some(token) = next_token(text, at)? {
        tokens.push(token)?;
        at = token.span.end as usize;
    }
    Ok(tokens)
}

/// At most one list of words spells a text.
pub fn one_spelling()
    ensures { (words others : List PlacedWord) (text : List ℕ) → Spells words text → Spells others text → words ≡ others }
{}
