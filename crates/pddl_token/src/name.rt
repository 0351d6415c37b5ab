//! Names, folded to lower case.

ghost use Rattle.std.proofs.Common.{ap};
ghost use Rattle.std.specs.Prelude.{◌≡◌, ◌≤◌, ◌+◌, List, ℕ, true, false, length, take, drop, bytes_eq, is_some, IfOk, IfSome, IsTrue, MatchOption};
ghost use Rattle.std.specs.Cmp.{partial_equiv_from_equiv};
ghost use Rattle.std.specs.Cmp.Lexicographic.{bytes_decides, nat_list_eq_equiv};
ghost use Rattle.std.specs.Char.{is_ascii_alphabetic};
ghost use Rattle.std.specs.Int.{w64, to_le_bytes};
ghost use Rattle.std.specs.List.{list_all, prefix_len};
ghost use Rattle.pddl_token.specs.Bytes.{begins, is_word_byte};
ghost use Rattle.pddl_token.specs.Names.{folded, name_of, name_byte, is_name, is_first_byte, is_later_byte, IsFrontName, fed_name};
ghost use Rattle.pddl_token.specs.NameTexts.{letters_of};

use crate::lent_name::LentName;
use std::alloc::{AllocError, Allocator};
use std::hash::{Hash, Hasher};
use std::marker::Model;

/// The most bytes of a name that lie in the value itself.
pub(crate) const FEW: usize = 22;

/// The bytes of a name: in the value itself where they are few, as those of most names are, and else where it points to.
#[derive(Drop)]
pub(crate) enum NameText<T> {
    /// So many of the bytes; zeros are behind them.
    Few(u8, [u8; FEW]),
    Many(T),
}

/// Eight of the bytes, as a number.
fn word_at(bytes: &[u8; FEW], place: usize) -> u64
    requires { place + 8 ≤ FEW }
    ensures { to_le_bytes w64 result ≡ take 8 (drop place bytes.now) }
{
    let mut word = [0; 8];
    word.copy_from_slice(&bytes[place..place + 8]);
    u64::from_le_bytes(word)
}

/// Whether the bytes are the same; the last eight overlap those before them.
#[tactic(auto, using(crate::proofs::NameWords::same_words))]
fn are_same(some: &[u8; FEW], others: &[u8; FEW]) -> bool
    ensures { result ≡ true → some.now ≡ others.now }
{
    word_at(some, 0) == word_at(others, 0)
        && word_at(some, 8) == word_at(others, 8)
        && word_at(some, 14) == word_at(others, 14)
}

impl<T> NameText<T> {
    /// Whether both texts lie in the values themselves, and these are the same, which is found by fewer steps than by going over the bytes in turn.
    pub(crate) fn is_same_few(&self, other: &NameText<T>) -> bool
        ensures { (bytes_of : T → List ℕ) → result ≡ true → letters_of bytes_of self.now ≡ letters_of bytes_of other.now }
    {
        match (self, other) {
            (NameText::Few(n, a), NameText::Few(m, b)) => *n == *m && are_same(a, b),
            _ => false,
        }
    }
}

/// A name: an ASCII letter, then letters, digits, `-` and `_`, its letters in lower case
/// (Kovacs, BNF definition of PDDL 3.1, `<name>`; that case does not count is PDDL's rule).
///
/// Contracts see it as its bytes.
#[derive(Drop)]
pub struct Name<A: Allocator> {
    text: NameText<Box<Vec<u8, A>, A>>,
}

impl<A: Allocator> Model for Name<A> {
    ghost use Rattle.std.specs.Prelude.{List, ℕ, IsTrue};
    ghost use Rattle.pddl_token.specs.Names.{is_name};
    ghost use Rattle.pddl_token.specs.NameTexts.{letters_of, HasRoom};

    ghost Value = { List ℕ };

    ghost view = { λ n. letters_of (λ t. t.value.items) n.text };

    ghost invariant = { λ n. HasRoom n.text × IsTrue (is_name (letters_of (λ t. t.value.items) n.text)) };
}

/// Of each byte that may stand in a name, the one that stands for it in lower case; of any other, 0.
const NAME_BYTES: [u8; 256] = [
    0, 0, 0, 0, 0, 0, 0, 0, 0, 0, 0, 0, 0, 0, 0, 0, 0, 0, 0, 0, 0, 0, 0, 0, 0, 0, 0, 0, 0, 0, 0, 0,
    0, 0, 0, 0, 0, 0, 0, 0, 0, 0, 0, 0, 0, 45, 0, 0, 48, 49, 50, 51, 52, 53, 54, 55, 56, 57, 0, 0,
    0, 0, 0, 0, 0, 97, 98, 99, 100, 101, 102, 103, 104, 105, 106, 107, 108, 109, 110, 111, 112,
    113, 114, 115, 116, 117, 118, 119, 120, 121, 122, 0, 0, 0, 0, 95, 0, 97, 98, 99, 100, 101, 102,
    103, 104, 105, 106, 107, 108, 109, 110, 111, 112, 113, 114, 115, 116, 117, 118, 119, 120, 121,
    122, 0, 0, 0, 0, 0, 0, 0, 0, 0, 0, 0, 0, 0, 0, 0, 0, 0, 0, 0, 0, 0, 0, 0, 0, 0, 0, 0, 0, 0, 0,
    0, 0, 0, 0, 0, 0, 0, 0, 0, 0, 0, 0, 0, 0, 0, 0, 0, 0, 0, 0, 0, 0, 0, 0, 0, 0, 0, 0, 0, 0, 0, 0,
    0, 0, 0, 0, 0, 0, 0, 0, 0, 0, 0, 0, 0, 0, 0, 0, 0, 0, 0, 0, 0, 0, 0, 0, 0, 0, 0, 0, 0, 0, 0, 0,
    0, 0, 0, 0, 0, 0, 0, 0, 0, 0, 0, 0, 0, 0, 0, 0, 0, 0, 0, 0, 0, 0, 0, 0, 0, 0, 0, 0, 0, 0, 0, 0,
    0, 0, 0, 0, 0, 0, 0,
];

/// A byte of a name in lower case, or 0 of one that stands in no name.
pub fn name_byte(byte: u8) -> u8
    ensures { result ≡ name_byte byte }
{
    NAME_BYTES[byte as usize]
}

/// A short text folded to lower case, with zeros behind it, or `None` where a byte of it stands in no name.
fn folded(text: &[u8]) -> Option<[u8; FEW]>
    requires { length text.now ≤ FEW }
    ensures letters { IfSome result (λ bytes. take (length text.now) bytes ≡ folded text.now) }
    ensures room { IfSome result (λ bytes. length bytes ≡ FEW) }
    ensures later { list_all is_later_byte (folded text.now) ≡ is_some result }
{
    let mut bytes = [0; FEW];
    for i in 0..text.len() {
        let byte = name_byte(text[i]);
        if byte == 0 {
            return None;
        }
        bytes[i] = byte;
    }
    Some(bytes)
}

/// The name that a short text spells, with zeros behind it, or `None` where it spells none.
fn short_name(text: &[u8]) -> Option<[u8; FEW]>
    requires { length text.now ≤ FEW }
    ensures letters { IfSome result (λ bytes. take (length text.now) bytes ≡ folded text.now) }
    ensures room { IfSome result (λ bytes. length bytes ≡ FEW) }
    ensures name { is_name (folded text.now) ≡ is_some result }
{
    match text {
        [first, ..] if first.is_ascii_alphabetic() => folded(text),
        _ => None,
    }
}

/// Whether a letter is first, which begins a name.
pub fn begins_name(text: &[u8]) -> bool
    ensures { result ≡ begins is_ascii_alphabetic text.now }
{
    match text {
        [] => false,
        [first, ..] => first.is_ascii_alphabetic(),
    }
}

/// How many bytes that may stand in names are at the front.
pub fn word_len(text: &[u8]) -> usize
    ensures value { result ≡ prefix_len is_word_byte text.now }
    ensures in_range { result ≤ length text.now }
{
    text.iter().take_while(|b| name_byte(**b) != 0).count()
}

/// The bytes of names at the front of a text, folded to lower case with zeros behind them where they are at most 22, and how many they are.
fn folded_front(text: &[u8]) -> ([u8; FEW], usize)
    ensures letters { result.1 ≤ FEW → take result.1 result.0 ≡ folded (take result.1 text.now) }
    ensures room { length result.0 ≡ FEW }
    ensures len { result.1 ≡ prefix_len is_word_byte text.now }
{
    let mut bytes = [0; FEW];
    let few = text.len().min(FEW);
    for i in 0..few {
        let byte = name_byte(text[i]);
        if byte == 0 {
            return (bytes, i);
        }
        bytes[i] = byte;
    }
    (bytes, few + word_len(text.split_at(few).1))
}

impl<'a, B: Allocator> Name<&'a B> {
    /// The name that a text spells, in any case of its letters, or `None` for what is no name.
    ///
    /// Fails where memory for the name's bytes is refused; of a name of up to 22 bytes none is asked for.
    pub fn new(alloc: &'a B, text: &[u8]) -> Result<Option<Name<&'a B>>, AllocError>
        ensures { IfOk result (λ name. name ≡ name_of text.now) }
    {
        let len = text.len();
        if len <= FEW {
            match short_name(text) {
                Some(bytes) => Ok(Some(Name {
                    text: NameText::Few(len as u8, bytes),
                })),
                None => Ok(None),
            }
        } else {
            let folded = text.to_ascii_lowercase(alloc)?;
            if is_name(&folded) {
                Ok(Some(Name {
                    text: NameText::Many(Box::new(alloc, folded)?),
                }))
            } else {
                Ok(None)
            }
        }
    }

    /// The name that a text spells, of which these are the bytes where they are few.
    fn of(alloc: &'a B, bytes: [u8; FEW], text: &[u8]) -> Result<Name<&'a B>, AllocError>
        requires name { is_name (folded text.now) ≡ true }
        requires letters { length text.now ≤ FEW → take (length text.now) bytes ≡ folded text.now }
        ensures { IfOk result (λ name. name ≡ folded text.now) }
    {
        let len = text.len();
        if len <= FEW {
            Ok(Name {
                text: NameText::Few(len as u8, bytes),
            })
        } else {
            let lower = text.to_ascii_lowercase(alloc)?;
            Ok(Name {
                text: NameText::Many(Box::new(alloc, lower)?),
            })
        }
    }

    /// The longest name at the front of a text, in any case of its letters, and its length; or `None` where no letter is first.
    ///
    /// Fails where memory for the name's bytes is refused, as [`Name::new`] does.
    #[tactic(auto, using(crate::proofs::FrontNames::front_is_name))]
    pub fn at_front(alloc: &'a B, text: &[u8]) -> Result<Option<(Name<&'a B>, usize)>, AllocError>
        ensures { IfOk result (λ found. MatchOption found (begins is_ascii_alphabetic text.now ≡ false) (λ front. IsFrontName text.now front.0 front.1)) }
    {
        if !begins_name(text) {
            return Ok(None);
        }
        let (bytes, len) = folded_front(text);
        Ok(Some((Name::of(alloc, bytes, text.split_at(len).0)?, len)))
    }
}

impl<A: Allocator> Name<A> {
    /// The name's bytes, in lower case.
    pub fn as_bytes(&self) -> &[u8]
        ensures value { result.now ≡ self.now }
        ensures name { IsTrue (is_name self.now) }
    {
        match &self.text {
            NameText::Few(len, bytes) => &bytes[..*len as usize],
            NameText::Many(bytes) => bytes.as_slice(),
        }
    }

    /// The name, lent: the bytes of a short one are copied.
    pub fn lent(&self) -> LentName<'_>
        ensures { result ≡ self.now }
    {
        match &self.text {
            NameText::Few(len, bytes) => LentName::few(*len, *bytes),
            NameText::Many(bytes) => LentName::of(bytes.as_slice()),
        }
    }
}

/// Names are equal where their bytes are.
impl<A: Allocator> PartialEq for Name<A> {
    ghost eq = { bytes_eq };

    ghost laws = { partial_equiv_from_equiv nat_list_eq_equiv };

    fn eq(&self, other: &Name<A>) -> bool {
        self.text.is_same_few(&other.text) || self.as_bytes() == other.as_bytes()
    }
}

impl<A: Allocator> Eq for Name<A> {
    ghost laws = { nat_list_eq_equiv };
}

impl<A: Allocator> Hash for Name<A> {
    ghost hash_input = { fed_name };

    ghost respects_eq = { λ m n same. ap fed_name ((bytes_decides m n).0 same) };

    fn hash<H: Hasher>(&self, state: &mut H) {
        state.write(self.as_bytes());
    }
}

fn is_first_byte(byte: u8) -> bool
    ensures { result ≡ is_first_byte byte }
{
    byte.is_ascii_lowercase()
}

fn is_later_byte(byte: u8) -> bool
    ensures { result ≡ is_later_byte byte }
{
    is_first_byte(byte) || byte.is_ascii_digit() || byte == b'-' || byte == b'_'
}

fn are_later_bytes(text: &[u8]) -> bool
    ensures { result ≡ list_all is_later_byte text.now }
{
    text.iter().all(|byte| is_later_byte(*byte))
}

/// Whether a text is a name in lower case.
pub fn is_name(text: &[u8]) -> bool
    ensures { result ≡ is_name text.now }
{
    match text {
        [] => false,
        [first, rest @ ..] => is_first_byte(*first) && are_later_bytes(rest),
    }
}
