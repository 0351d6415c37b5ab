//! Lexers and readers of texts that come in pieces, where no row of a text can say what they do.

use pddl_fakes::Refusing;
use pddl_file_lines::let_go_plan;
use pddl_plan::Plan;
use pddl_plan_reader::{PlanReader, read_plan};
use pddl_scan::{LONGEST, TextFault};
use pddl_step_reader::ReadFault;
use pddl_text::PlanLexer;
use std::alloc::{Allocator, Global};
use std::test::Fail;

/// How many bytes a piece of blanks has.
const PIECE: usize = 4096;

/// Gives a reader a piece so many times.
fn feed_times<B: Allocator>(
    reader: &mut PlanReader<&B>,
    piece: &[u8],
    times: usize,
) -> Result<(), TextFault> {
    let mut fed = Ok(());
    for _ in 0..times {
        fed = fed.and(reader.feed(piece));
    }
    fed
}

/// Gives a reader a million blanks, and as many bytes of a comment.
fn feed_blanks<B: Allocator>(reader: &mut PlanReader<&B>) -> Result<(), TextFault> {
    let blanks = feed_times(reader, &[b' '; 1000], 1000);
    let opened = reader.feed(b";");
    let comment = feed_times(reader, &[b'x'; 1000], 1000);
    blanks.and(opened).and(comment)
}

/// Whether a reader takes these where each growth is refused, and finds no step.
fn takes_blanks(alloc: Global) -> bool {
    let none = Refusing::each(alloc);
    let mut reader = PlanReader::new(&none);
    let takes = feed_blanks(&mut reader).is_ok();
    let read = told(reader.finish());
    takes && read == (0, 0) && !none.has_refused()
}

#[test]
fn keeps_no_blanks(rt: HostRuntime) -> Result<(), Fail> {
    assert!(rt; takes_blanks(rt.alloc()));
    Ok(())
}

/// Whether a reader answers this fault, or none, for a piece, and then for the piece after it that it has failed.
fn answers<B: Allocator>(
    reader: &mut PlanReader<&B>,
    piece: &[u8],
    fault: Option<TextFault>,
) -> bool {
    let first = reader.feed(piece).err();
    let second = reader.feed(b"").err();
    first == fault && second == fault.and(Some(TextFault::AlreadyFailed))
}

/// Whether a reader answered at the end that it has failed.
fn has_failed<A: Allocator>(read: Result<Plan<A>, ReadFault>) -> bool {
    match read {
        Ok(plan) => {
            let_go_plan(plan);
            false
        }
        Err(fault) => matches!(fault, ReadFault::Text(TextFault::AlreadyFailed)),
    }
}

/// Whether the reader of the longest text of blanks answers this fault for so many bytes more and fails for good, or answers none.
fn answers_past(alloc: Global, more: &[u8], fault: Option<TextFault>) -> bool {
    let mut reader = PlanReader::new(&alloc);
    let takes = feed_times(&mut reader, &[b' '; PIECE], LONGEST / PIECE).is_ok();
    let answers = answers(&mut reader, more, fault);
    let failed = has_failed(reader.finish());
    takes && answers && failed == fault.is_some()
}

/// Whether a reader fails for good by a plan of which a growth is refused.
fn fails_without_memory(alloc: Global) -> bool {
    let none = Refusing::each(alloc);
    let mut reader = PlanReader::new(&none);
    let answers = answers(&mut reader, b"(light a)\n", Some(TextFault::Memory));
    let failed = has_failed(reader.finish());
    answers && failed
}

/// The same of a lexer.
fn lexer_fails_without_memory(alloc: Global) -> bool {
    let none = Refusing::each(alloc);
    let mut lexer = PlanLexer::new(&none);
    let first = lexer.feed(b"(light a)\n").err();
    let second = lexer.feed(b"").err();
    let last = lexer.finish().err();
    first == Some(TextFault::Memory)
        && second == Some(TextFault::AlreadyFailed)
        && last == Some(TextFault::AlreadyFailed)
}

#[test]
fn fails_for_good_past_the_longest_text_and_without_memory(rt: HostRuntime) -> Result<(), Fail> {
    assert!(rt; answers_past(rt.alloc(), b"", None));
    assert!(rt; answers_past(rt.alloc(), b" ", Some(TextFault::TooLong)));
    assert!(rt; fails_without_memory(rt.alloc()));
    assert!(rt; lexer_fails_without_memory(rt.alloc()));
    Ok(())
}

/// A plan of two steps, the second at a moment of three decimals.
static TRUNCATED: &[u8] = b"0: (light a)\n0.000: (light b)\n";

/// What the front of so many bytes reads as: 0 and how many steps it has, or the number of the fault and where it starts.
fn wanted(size: usize) -> (u64, u64) {
    match size {
        0 => (0, 0),
        1..=3 => (15, 0),
        4..=11 => (7, 3),
        12 | 13 => (0, 1),
        15 => (2, 14),
        14 | 16..=20 => (15, 13),
        21..=28 => (7, 20),
        _ => (0, 2),
    }
}

/// What was read, told so.
fn told<A: Allocator>(read: Result<Plan<A>, ReadFault>) -> (u64, u64) {
    match read {
        Ok(plan) => {
            let steps = plan.len() as u64;
            let_go_plan(plan);
            (0, steps)
        }
        Err(ReadFault::Text(TextFault::Stray { at })) => (2, u64::from(at)),
        Err(ReadFault::Text(TextFault::Unclosed { at })) => (7, u64::from(at)),
        Err(ReadFault::Step { span, .. }) => (15, u64::from(span.start)),
        Err(_) => (u64::MAX, 0),
    }
}

/// What two pieces read as.
fn told_in_two(alloc: &Global, front: &[u8], rest: &[u8]) -> (u64, u64) {
    let mut reader = PlanReader::new(alloc);
    let fed = reader.feed(front).and(reader.feed(rest));
    let told = told(reader.finish());
    if fed.is_ok() { told } else { (u64::MAX, 1) }
}

/// Whether a text reads as this, as one piece and cut in two at each place.
fn reads_as(alloc: &Global, text: &[u8], wanted: (u64, u64)) -> bool {
    if told(read_plan(alloc, text)) != wanted {
        return false;
    }
    for cut in 0..=text.len() {
        let (front, rest) = text.split_at(cut);
        if told_in_two(alloc, front, rest) != wanted {
            return false;
        }
    }
    true
}

/// Whether each front reads as it should.
fn reads_fronts(alloc: &Global) -> bool {
    for size in 0..=TRUNCATED.len() {
        if !reads_as(alloc, TRUNCATED.split_at(size).0, wanted(size)) {
            return false;
        }
    }
    true
}

#[test]
fn reads_truncated_plans(rt: HostRuntime) -> Result<(), Fail> {
    assert!(rt; reads_fronts(&rt.alloc()));
    Ok(())
}
