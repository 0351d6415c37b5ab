//! Readers, writers and memory, where no row of a text can say what they do.

use pddl_device::{FromRead, Sink, SourceFault, ToWrite, WriteFault, read_all, write_text};
use pddl_fakes::{FakeSource, Refusing};
use pddl_items::Item;
use pddl_scan::TextFault;
use pddl_text::{lex, lists};
use pddl_token::{Span, Token, TokenKind};
use std::alloc::{Allocator, Global};
use std::test::Fail;

/// Twenty bytes.
static TEXT: &[u8] = b"(light a)\n(light b)\n";

/// How many bytes are left of the text, so many of which are read at a time, where it is longer than the limit.
fn left_past(alloc: Global, size: usize, limit: usize) -> Option<usize> {
    let mut source = FakeSource::new(TEXT, size.max(1), 0);
    match read_all(alloc, &mut source, limit) {
        Err(SourceFault::TooLong) => Some(source.left().len()),
        _ => None,
    }
}

/// Sizes of pieces, limits, and how many of the twenty bytes are then left.
static PAST: [(usize, usize, usize); 5] = [
    (1, 7, 12),
    (3, 7, 11),
    (5, 10, 5),
    (4096, 0, 0),
    (3, 0, 17),
];

/// Whether so many bytes are left past each limit.
fn are_left_past(alloc: Global) -> bool {
    for (size, limit, left) in PAST.iter() {
        if left_past(alloc, *size, *limit) != Some(*left) {
            return false;
        }
    }
    true
}

/// How many bytes are read behind a read that fails, of so many bytes at a time.
fn read_behind(alloc: Global, size: usize, number: u64) -> Option<usize> {
    let mut source = FakeSource::new(TEXT, size.max(1), number);
    match read_all(alloc, &mut source, 100) {
        Err(SourceFault::ReadFailed) => {}
        _ => return None,
    }
    match read_all(alloc, &mut source, 100) {
        Ok(text) => Some(text.len()),
        Err(_) => None,
    }
}

/// Sizes of pieces, which read fails, and how many of the twenty bytes can still be read; none where no read fails.
static BEHIND: [(usize, u64, Option<usize>); 12] = [
    (1, 1, Some(20)),
    (1, 8, Some(13)),
    (1, 21, Some(0)),
    (1, 22, None),
    (3, 2, Some(17)),
    (3, 7, Some(2)),
    (3, 8, Some(0)),
    (3, 9, None),
    (5, 4, Some(5)),
    (5, 6, None),
    (4096, 2, Some(0)),
    (4096, 3, None),
];

/// Whether so many bytes are read behind each read that fails.
fn are_read_behind(alloc: Global) -> bool {
    for (size, number, left) in BEHIND.iter() {
        if read_behind(alloc, *size, *number) != *left {
            return false;
        }
    }
    true
}

/// Whether nothing but the empty text is read where each growth is refused.
fn reads_nothing_without_memory(alloc: Global) -> bool {
    let none = Refusing::each(alloc);
    let text = read_all(&none, &mut FakeSource::new(TEXT, 3, 0), 100).err();
    let empty = read_all(&none, &mut FakeSource::new(b"", 3, 0), 100).err();
    matches!(text, Some(SourceFault::Memory)) && empty.is_none()
}

/// Whether a stray byte, and that there is no word, are found where each growth is refused.
fn finds_words_without_memory(alloc: Global) -> bool {
    let none = Refusing::each(alloc);
    let stray = lex(&none, b"&").err();
    let nothing = lex(&none, b" ; nothing").err();
    stray == Some(TextFault::Stray { at: 0 }) && nothing.is_none() && !none.has_refused()
}

/// Whether twenty bytes cannot be written, or a hundred behind them.
fn fails_to_write<W: Sink>(out: &mut W) -> bool {
    let first = write_text(out, TEXT).is_err();
    let second = write_text(out, &[b'x'; 100]).is_err();
    first || second
}

/// Whether these are twenty and a hundred bytes.
fn is_whole(text: &[u8]) -> bool {
    text.starts_with(TEXT) && text.len() == 120
}

/// Whether twenty and then a hundred bytes are written into memory, or a growth was refused and a write then failed.
fn writes_into_memory(alloc: &Refusing<Global>) -> bool {
    let mut out = ToWrite::new(Vec::new(alloc));
    let fails = fails_to_write(&mut out);
    let is_whole = is_whole(&out.into_inner());
    if alloc.has_refused() { fails } else { is_whole }
}

/// Whether that is so where the growth of this number is refused, and whether it was.
fn writes_without(alloc: Global, number: u64) -> (bool, bool) {
    let alloc = Refusing::nth(alloc, number);
    let holds = writes_into_memory(&alloc);
    (holds, alloc.has_refused())
}

/// Whether that is so with each growth refused in turn, up to a run in which none is, of which there are two at least.
fn writes_with_each_refused(alloc: Global) -> bool {
    for number in 1..1000 {
        match writes_without(alloc, number) {
            (true, true) => {}
            (holds, _) => return holds && number > 2,
        }
    }
    false
}

/// Whether a reader of std gives the whole text, and nothing is left.
fn reads_by_std(alloc: Global) -> bool {
    let mut source = FromRead::new(TEXT);
    let is_whole = match read_all(alloc, &mut source, 20) {
        Ok(text) => text.as_slice() == TEXT,
        Err(_) => false,
    };
    is_whole && source.into_inner().is_empty()
}

/// Whether a writer of std with room for five bytes takes these, and then fails.
fn writes_by_std() -> bool {
    let mut room = [0; 5];
    let mut sink = ToWrite::new(room.as_mut_slice());
    let wrote = write_text(&mut sink, TEXT);
    wrote == Err(WriteFault::WriteFailed) && room.as_slice() == b"(ligh".as_slice()
}

/// Words of two texts: an opening and a name of the first, and the closing of the second, which is behind a blank.
static WORDS: [Token; 3] = [
    Token {
        kind: TokenKind::Open,
        text: b"(",
        span: Span { start: 0, end: 1 },
    },
    Token {
        kind: TokenKind::Name,
        text: b"a",
        span: Span { start: 1, end: 2 },
    },
    Token {
        kind: TokenKind::Close,
        text: b")",
        span: Span { start: 1, end: 2 },
    },
];

/// The span of the list that comes first.
fn first_list<A: Allocator>(items: &[Item<'_, A>]) -> Option<Span> {
    match items.first() {
        Some(Item::List(_, span)) => Some(*span),
        _ => None,
    }
}

/// The span of the list that these words form.
fn list_of(alloc: Global, words: &[Token<'_>]) -> Option<Span> {
    match lists(&alloc, words) {
        Ok(items) => first_list(&items),
        Err(_) => None,
    }
}

/// Whether this is what a fault says.
fn says(alloc: Global, fault: TextFault, words: &str) -> bool {
    match format!(in alloc; "{fault}") {
        Ok(said) => said.as_str() == words,
        Err(_) => false,
    }
}

#[test]
fn devices_read_and_write(rt: HostRuntime) -> Result<(), Fail> {
    assert!(rt; are_left_past(rt.alloc()));
    assert!(rt; are_read_behind(rt.alloc()));
    assert!(rt; reads_nothing_without_memory(rt.alloc()));
    assert!(rt; writes_with_each_refused(rt.alloc()));
    assert!(rt; reads_by_std(rt.alloc()));
    assert!(rt; writes_by_std());
    Ok(())
}

#[test]
fn texts_have_words_and_faults(rt: HostRuntime) -> Result<(), Fail> {
    assert!(rt; finds_words_without_memory(rt.alloc()));
    assert!(rt; list_of(rt.alloc(), &WORDS) == Some(Span { start: 0, end: 2 }));
    assert!(rt; says(rt.alloc(), TextFault::Memory, "memory was refused"));
    Ok(())
}
