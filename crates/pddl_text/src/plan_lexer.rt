//! The words of a text that comes in pieces.

ghost use Rattle.std.specs.Prelude.{◌≡◌, ◌≢◌, ◌≤◌, ◌<◌, ◌++◌, [], ◌⊎◌, ℕ, List, length, map, IfOk, IfErr, OnOk, OnErr, MatchResult, ◌↔◌, Err};
ghost use Rattle.pddl_scan.specs.declared.fault.TextFault.TheVariants.{Memory, TooLong, AlreadyFailed};
ghost use Rattle.pddl_token.specs.Spelling.{PlacedWord, Spells};
ghost use Rattle.pddl_scan.specs.Faults.{AreValued, Stands};
ghost use Rattle.pddl_scan.specs.InPieces.{SpellsPartly, EndsLine, word_view};

use pddl_scan::{LONGEST, Progress, TextFault, WordList, answer, read_last, read_piece};
use pddl_token::Word;
use std::alloc::Allocator;

/// The words of a text that comes in pieces: those that [`lex`](crate::lex) answers for the whole, however it is cut.
///
/// It keeps no more of the text than the beginning of the word that may go on in the next piece; of blanks and comments it
/// keeps nothing. Own.
#[derive(Drop)]
pub struct PlanLexer<A: Allocator> {
    alloc: A,
    /// How many bytes have come.
    len: usize,
    progress: Progress,
    /// The last bytes, where a word may go on with the next piece.
    held: Vec<u8, A>,
    /// Whether a piece was refused.
    failed: bool,
    ghost short: { len ≤ 16777216 },
    ghost held_short: { length held.items ≤ len },
}

impl<'a, B: Allocator> PlanLexer<&'a B> {
    ghost use Rattle.pddl_text.specs.StandsFor.{StandsFor, HasRefused};

    /// A lexer to which no piece has come. It takes no memory.
    pub fn new(alloc: &'a B) -> PlanLexer<&'a B>
        ensures { StandsFor result [] [] }
    {
        PlanLexer {
            alloc,
            len: 0,
            progress: Progress::Words,
            held: Vec::new(alloc),
            failed: false,
        }
    }

    /// Takes the next piece, and answers the words that it settles: all of the text so far where that ends with LF and has
    /// no fault, and else all up to some place. Each word is given once.
    ///
    /// Where the text has a fault, no words are given of what stands behind it, and [`finish`](PlanLexer::finish)
    /// answers the fault.
    ///
    /// # Errors
    ///
    /// [`TextFault::TooLong`] where the text so far has more than [`LONGEST`] bytes with the piece, and
    /// [`TextFault::Memory`] where a growth was refused. After either each call answers [`TextFault::AlreadyFailed`].
    pub fn feed(&mut self, piece: &[u8]) -> Result<Vec<Word<&'a B>, &'a B>, TextFault>
        // What it stood for, it stands for with the piece and its words added.
        ensures stands { (text : List ℕ) (words : List PlacedWord) → StandsFor self.old text words
            → IfOk result (λ given. StandsFor self.new (text ++ piece.now) (words ++ map word_view given.items)) }
        // The words given so far spell the text up to some place.
        ensures partly { (text : List ℕ) (words : List PlacedWord) → StandsFor self.old text words
            → IfOk result (λ given. SpellsPartly (words ++ map word_view given.items) (text ++ piece.now)) }
        // Where the text ends with LF, its words are all given.
        ensures lines { (text : List ℕ) (words all : List PlacedWord) → StandsFor self.old text words → EndsLine (text ++ piece.now)
            → Spells all (text ++ piece.now) → AreValued all → IfOk result (λ given. words ++ map word_view given.items ≡ all) }
        // The length alone decides whether the text is too long, whatever memory does.
        ensures too_long { (text : List ℕ) (words : List PlacedWord) → StandsFor self.old text words
            → (result ≡ Err TooLong) ↔ (LONGEST < length (text ++ piece.now)) }
        ensures refusals { IfErr result (λ fault. (fault ≡ AlreadyFailed) ⊎ ((fault ≡ TooLong) ⊎ (fault ≡ Memory))) }
        // A piece that is refused is the last.
        ensures failed { (result ≡ Err AlreadyFailed) ↔ HasRefused self.old }
        ensures refused { OnErr result (HasRefused self.new) }
    {
        let mut words = WordList::new(self.alloc);
        if let Err(fault) = self.feed_into(piece, &mut words) {
            return Err(fault);
        }
        match words.to_words(self.alloc) {
            Ok(words) => Ok(words),
            Err(_) => {
                self.failed = true;
                Err(TextFault::Memory)
            }
        }
    }

    /// The words that no piece has settled, at the text's end. With those given before they are what
    /// [`lex`](crate::lex) answers for the text.
    ///
    /// # Errors
    ///
    /// Those of `lex`, but that a text that is too long was refused by [`feed`](PlanLexer::feed): the leftmost fault, or
    /// [`TextFault::Memory`] where a growth was refused. [`TextFault::AlreadyFailed`] after a piece that was refused.
    pub fn finish(self) -> Result<Vec<Word<&'a B>, &'a B>, TextFault>
        // With those given before, they are the text's words, and each number has a value.
        ensures words { (text : List ℕ) (words : List PlacedWord) → StandsFor self.entry text words
            → IfOk result (λ rest. Spells (words ++ map word_view rest.items) text × AreValued (words ++ map word_view rest.items)) }
        // Words that spell the text are answered.
        ensures only { (text : List ℕ) (words all : List PlacedWord) → StandsFor self.entry text words → Spells all text → AreValued all
            → MatchResult result (λ rest. words ++ map word_view rest.items ≡ all) (λ fault. fault ≡ Memory) }
        // What is wrong is the leftmost fault.
        ensures fault { (text : List ℕ) (words : List PlacedWord) → StandsFor self.entry text words
            → IfErr result (λ fault. Stands fault text) }
        ensures never_too_long { result ≢ Err TooLong }
        // A refused piece, and nothing else, is answered so.
        ensures failed { (result ≡ Err AlreadyFailed) ↔ HasRefused self.entry }
    {
        let alloc = self.alloc;
        let mut words = WordList::new(alloc);
        if let Err(fault) = self.finish_into(&mut words) {
            return Err(fault);
        }
        match words.to_words(alloc) {
            Ok(words) => Ok(words),
            Err(_) => Err(TextFault::Memory),
        }
    }
}

impl<A: Allocator> PlanLexer<A> {
    ghost use Rattle.pddl_text.specs.StandsFor.{StandsFor, IsGoing, HasRefused};

    /// [`feed`](PlanLexer::feed), which adds the words to a list.
    pub fn feed_into(&mut self, piece: &[u8], words: &mut WordList<A>) -> Result<(), TextFault>
        ensures stands { (text : List ℕ) (given : List PlacedWord) → StandsFor self.old text (given ++ words.old)
            → OnOk result (StandsFor self.new (text ++ piece.now) (given ++ words.new)) }
        ensures too_long { (text : List ℕ) (given : List PlacedWord) → StandsFor self.old text given
            → (result ≡ Err TooLong) ↔ (LONGEST < length (text ++ piece.now)) }
        ensures refusals { IfErr result (λ fault. (fault ≡ AlreadyFailed) ⊎ ((fault ≡ TooLong) ⊎ (fault ≡ Memory))) }
        ensures failed { (result ≡ Err AlreadyFailed) ↔ HasRefused self.old }
        ensures taken { OnOk result (IsGoing self.new) }
        ensures refused { OnErr result (HasRefused self.new) }
    {
        if self.failed {
            return Err(TextFault::AlreadyFailed);
        }
        if piece.len() > LONGEST - self.len {
            self.failed = true;
            return Err(TextFault::TooLong);
        }
        let read = read_piece(self.len, self.progress, &mut self.held, piece, words);
        self.len += piece.len();
        match read {
            Ok(progress) => {
                self.progress = progress;
                Ok(())
            }
            Err(fault) => {
                self.failed = true;
                Err(fault)
            }
        }
    }

    /// [`finish`](PlanLexer::finish), which adds the words to a list.
    pub fn finish_into(self, words: &mut WordList<A>) -> Result<(), TextFault>
        ensures words { (text : List ℕ) (given : List PlacedWord) → StandsFor self text (given ++ words.old)
            → OnOk result (Spells (given ++ words.new) text × AreValued (given ++ words.new)) }
        ensures fault { (text : List ℕ) (given : List PlacedWord) → StandsFor self text (given ++ words.old)
            → IfErr result (λ fault. Stands fault text) }
        ensures never_too_long { result ≢ Err TooLong }
        ensures failed { (result ≡ Err AlreadyFailed) ↔ HasRefused self }
    {
        if self.failed {
            return Err(TextFault::AlreadyFailed);
        }
        let held = self.held;
        let last = read_last(self.len, self.progress, held.as_slice(), words)?;
        answer(last)
    }
}
