//! Parts of a text, read one after the other.

ghost use Rattle.std.specs.Prelude.{◌≡◌, ◌≤◌, ◌+◌, ◌++◌, ◌∷◌, [], ℕ, List, length, IfOk, IfErr};
ghost use Rattle.pddl_scan.specs.declared.fault.TextFault.TheVariants.{Memory};
ghost use Rattle.pddl_token.specs.Spelling.{PlacedWord};
ghost use Rattle.pddl_scan.specs.Scanning.{LexedTo};
ghost use Rattle.pddl_scan.specs.Inner.Parts.{Settles, StoppedAt};

use crate::fault::{LONGEST, TextFault};
use crate::next::{Next, next_part};
use crate::word_list::WordList;
use pddl_token::{Span, Token, TokenKind};
use std::alloc::Allocator;

/// What stands behind the parts that were read.
#[derive(Clone, Copy)]
pub enum Progress {
    /// Nothing, or a word's beginning.
    Words,
    /// A comment that no LF has ended yet.
    Comment,
    /// The fault of this name.
    Stray { at: u32 },
    Glued { at: u32 },
    NumberRange { at: u32 },
}

/// Why reading stopped, and at which place.
#[derive(Clone, Copy)]
pub struct Stop {
    pub progress: Progress,
    pub at: usize,
}

fn add_word<A: Allocator>(
    words: &mut WordList<A>,
    kind: TokenKind,
    text: &[u8],
    start: usize,
) -> Result<(), TextFault>
    requires { start + length text.now ≤ LONGEST }
    ensures memory { IfErr result (λ fault. fault ≡ Memory) }
    ensures pushed { IfOk result (λ _. words.new ≡ words.old
        ++ record { kind = kind; text = text.now; span = record { start = start; end = start + length text.now } } ∷ []) }
{
    let span = Span {
        start: start as u32,
        end: (start + text.len()) as u32,
    };
    words.push(&Token { kind, text, span })?;
    Ok(())
}

/// Reads the parts of a text of which the bytes before it were read, and adds their words.
pub fn read_parts<A: Allocator>(
    start: usize,
    text: &[u8],
    words: &mut WordList<A>,
) -> Result<Stop, TextFault>
    requires { start + length text.now ≤ LONGEST }
    ensures memory { IfErr result (λ fault. fault ≡ Memory) }
    ensures read { (before more : List ℕ) (given : List PlacedWord) → length before ≡ start → Settles text.now more
        → LexedTo (before ++ (text.now ++ more)) (given ++ words.old) start
        → IfOk result (λ stop. StoppedAt stop.progress (before ++ (text.now ++ more)) (before ++ text.now)
        (given ++ words.new) stop.at) }
{
    let mut at = 0;
    while at < text.len() {
        let rest = text.split_at(at).1;
        let place = start + at;
        match next_part(rest) {
            Next::Gap { len } => at += len,
            Next::Word { kind, len } => {
                add_word(words, kind, rest.split_at(len).0, place)?;
                at += len;
            }
            Next::OpenComment => {
                return Ok(Stop {
                    progress: Progress::Comment,
                    at: place,
                });
            }
            Next::Stray => {
                return Ok(Stop {
                    progress: Progress::Stray { at: place as u32 },
                    at: place,
                });
            }
            Next::Glued => {
                return Ok(Stop {
                    progress: Progress::Glued { at: place as u32 },
                    at: place,
                });
            }
            Next::OutOfRange => {
                return Ok(Stop {
                    progress: Progress::NumberRange { at: place as u32 },
                    at: place,
                });
            }
        }
    }
    Ok(Stop {
        progress: Progress::Words,
        at: start + text.len(),
    })
}
