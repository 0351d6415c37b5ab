//! Rows that are read line by line.

use crate::row::{Command, Ending, Files, Row};
use crate::spelled::{Spelled, numbered};
use std::alloc::Global;
use std::mem;

/// A text under a name.
#[derive(Drop)]
struct Kept<'t> {
    name: &'t str,
    text: Vec<u8>,
}

/// A reader of rows, with the texts of the row at hand. A line that says nothing of a row makes the text at hand wrong.
#[derive(Drop)]
pub struct Reader<'t> {
    name: &'t str,
    /// The text at hand.
    text: Spelled,
    files: Vec<Vec<u8>>,
    kept: Vec<Kept<'t>>,
    /// What the row printed last.
    printed: Vec<u8>,
    growths: u64,
}

impl<'t> Reader<'t> {
    /// A reader at the start of a text.
    pub fn new(alloc: Global) -> Self {
        Reader {
            name: "",
            text: Spelled::new(alloc),
            files: Vec::new(alloc),
            kept: Vec::new(alloc),
            printed: Vec::new(alloc),
            growths: 0,
        }
    }

    /// Whether some line said nothing of a row.
    pub fn is_wrong(&self) -> bool {
        self.text.is_wrong
    }

    /// A row begins, without files.
    fn begin(&mut self, name: &'t str) {
        self.name = name;
        self.files.clear();
        self.text.bytes.clear();
        self.growths = 0;
    }

    /// Adds a line to the text at hand.
    fn add_line(&mut self, line: &str) {
        self.text.add(line);
        self.text.add_bytes(b"\n");
    }

    /// Adds the piece so many times, or for each number below another: `N PIECE`.
    fn add_repeated(&mut self, rest: &str, is_series: bool) {
        let Some((count, piece)) = numbered(rest.split_once(' ')) else {
            self.text.is_wrong = true;
            return;
        };
        for number in 0..count {
            if is_series {
                self.text.add_counted(number, piece);
            } else {
                self.text.add(piece);
            }
        }
    }

    /// Adds the text that is kept under the name.
    fn add_kept(&mut self, name: &str) {
        for kept in &self.kept {
            if kept.name == name {
                self.text.add_bytes(&kept.text);
                return;
            }
        }
        self.text.is_wrong = true;
    }

    /// Puts another part in place of the first such part of the text at hand: `PART => OTHER`.
    fn change(&mut self, rest: &str) {
        let (part, other) = rest.split_once(" => ").unwrap_or((rest, ""));
        let mut sought = Spelled::new(self.text.alloc);
        sought.add(part);
        self.text.change_first(&sought, other);
    }

    /// Keeps the text at hand under a name.
    fn keep(&mut self, name: &'t str) {
        let text = self.text.take();
        if self.kept.push(Kept { name, text }).is_err() {
            self.text.is_wrong = true;
        }
    }

    /// This text is the row's next file.
    fn add_file(&mut self, text: Vec<u8>) {
        if self.files.push(text).is_err() {
            self.text.is_wrong = true;
        }
    }

    /// The text at hand, with this at its end, is the row's next file.
    fn end_file(&mut self, rest: &str) {
        self.text.add(rest);
        let text = self.text.take();
        self.add_file(text);
    }

    /// What the row printed last takes the place of its last file.
    fn again(&mut self) {
        let _ = self.files.pop();
        let printed = mem::replace(&mut self.printed, Vec::new(self.text.alloc));
        self.add_file(printed);
    }

    /// So many growths at least are refused in turn.
    fn grow(&mut self, rest: &str) {
        match rest.parse::<u64>() {
            Ok(growths) => self.growths = growths,
            Err(_) => self.text.is_wrong = true,
        }
    }

    /// Takes a line that ends no row, and answers whether it is one.
    fn takes(&mut self, word: &str, rest: &'t str) -> bool {
        match word {
            "" | "#" => {}
            "row" => self.begin(rest),
            "|" => self.add_line(rest),
            "part" => self.text.add(rest),
            "times" => self.add_repeated(rest, false),
            "series" => self.add_repeated(rest, true),
            "copy" => self.add_kept(rest),
            "change" => self.change(rest),
            "keep" => self.keep(rest),
            "file" => self.end_file(rest),
            "again" => self.again(),
            "growths" => self.grow(rest),
            _ => return false,
        }
        true
    }

    /// Reads a line, and answers the ending of the row at hand, if it is one.
    pub fn take_line<C: Command>(&mut self, line: &'t str) -> Option<Ending<'t>> {
        let (word, rest) = line.split_once(' ').unwrap_or((line, ""));
        if self.takes(word, rest) {
            return None;
        }
        let ending = Ending::of::<C>(line);
        self.text.is_wrong |= ending.is_none();
        ending
    }

    /// The text of the file of a number from 0.
    fn file_text(&self, number: usize) -> &[u8] {
        match self.files.get(number) {
            Some(text) => text,
            None => b"",
        }
    }

    /// The row at hand, which ends so.
    pub fn row<'r>(&'r self, ending: Ending<'r>) -> Row<'r> {
        Row {
            name: self.name,
            files: Files {
                first: self.file_text(0),
                second: self.file_text(1),
                third: self.file_text(2),
                fourth: self.file_text(3),
            },
            printed: &self.text.bytes,
            growths: self.growths,
            ending,
        }
    }

    /// A new text begins, and the row's files stay.
    pub fn end(&mut self) {
        self.printed = self.text.take();
    }
}
