//! Words and items of texts.

use pddl_file_lines::Outcome;
use pddl_items::Item;
use pddl_row_driver::{Lines, add_text_fault};
use pddl_scan::TextFault;
use pddl_text::{items_of, lex, lists};
use pddl_token::Token;
use std::alloc::Allocator;

/// Adds a word's kind, its span and its bytes.
fn add_token(token: &Token<'_>, lines: &mut Lines) {
    lines.shown(&token.kind);
    lines.span(token.span);
    lines.word(token.text);
    lines.end();
}

/// Adds a line for each word.
fn add_tokens(tokens: &[Token<'_>], lines: &mut Lines) -> Outcome {
    for token in tokens {
        add_token(token, lines);
    }
    Outcome::Good
}

/// Adds a word, or a list's span and how many items it has.
fn add_item<A: Allocator>(item: &Item<'_, A>, lines: &mut Lines) {
    match item {
        Item::Word(token) => add_token(token, lines),
        Item::List(items, span) => {
            lines.word(b"List");
            lines.span(*span);
            lines.word(b"of");
            lines.shown(&items.len());
            lines.end();
        }
    }
}

/// Adds a line for each item, and for each of those in it, behind a dash.
fn add_all<A: Allocator>(items: &[Item<'_, A>], lines: &mut Lines) -> Outcome {
    for item in items {
        add_item(item, lines);
        if let Item::List(items, _) = item {
            for inner in items {
                lines.word(b"-");
                add_item(inner, lines);
            }
        }
    }
    Outcome::Good
}

/// Adds the lines for items that were read, or the fault of their text.
fn add_read<A: Allocator, B: Allocator>(
    alloc: &B,
    read: Result<Vec<Item<'_, A>, A>, TextFault>,
    lines: &mut Lines,
) -> Outcome {
    match read {
        Ok(items) => {
            let outcome = add_all(&items, lines);
            drop(items);
            outcome
        }
        Err(fault) => add_text_fault(alloc, fault, lines),
    }
}

/// Adds the lines for the items of a text.
pub fn add_items<B: Allocator>(alloc: &B, text: &[u8], lines: &mut Lines) -> Outcome {
    add_read(alloc, items_of(alloc, text), lines)
}

/// Adds a line for each word of a text, or the lines for the items that its words form.
pub fn add_words<B: Allocator>(
    alloc: &B,
    as_items: bool,
    text: &[u8],
    lines: &mut Lines,
) -> Outcome {
    match lex(alloc, text) {
        Ok(tokens) if as_items => add_read(alloc, lists(alloc, &tokens), lines),
        Ok(tokens) => add_tokens(&tokens, lines),
        Err(fault) => add_text_fault(alloc, fault, lines),
    }
}

/// Adds what is said of a fault.
fn add_message<B: Allocator>(alloc: &B, fault: TextFault, lines: &mut Lines) -> Outcome {
    if fault == TextFault::Memory {
        lines.refuse();
    }
    lines.made(format!(in alloc; "{fault}"));
    lines.end();
    Outcome::Refused
}

/// Adds what is said of the fault in a text, if there is one.
pub fn add_fault<B: Allocator>(alloc: &B, text: &[u8], lines: &mut Lines) -> Outcome {
    match items_of(alloc, text) {
        Ok(_) => Outcome::Good,
        Err(fault) => add_message(alloc, fault, lines),
    }
}
