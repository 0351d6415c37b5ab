//! A reader of a text in memory.

ghost use Rattle.std.specs.Prelude.{◌≡◌, ◌<◌, Some, false};

use pddl_device::{DeviceFault, Source};

/// A reader of a text, which gives at most so many bytes at a time and fails at one of its reads.
#[derive(Drop)]
pub struct FakeSource<'a> {
    text: &'a [u8],
    /// How many bytes the next read gives at most, and how many each read after it.
    next_size: usize,
    size: usize,
    /// How many reads there are up to the one that fails, that one included; 0 where none fails.
    until_failure: u64,
    failures: u64,
    at_end: bool,
    ghost has_next_size: { 0 < next_size },
    ghost has_size: { 0 < size },
}

impl<'a> FakeSource<'a> {
    /// A reader of the text, at most `size` bytes at a time. Read number `fails_at`, counted from 1, fails and gives
    /// nothing, and the reads after it go on; none fails at 0.
    pub fn new(text: &'a [u8], size: usize, fails_at: u64) -> Self
        requires { 0 < size }
        ensures remaining { ⟦<FakeSource<'a> as Source>⟧.remaining result ≡ Some text.entry.now }
        ensures failures { ⟦<FakeSource<'a> as Source>⟧.failures result ≡ 0 }
        ensures at_end { ⟦<FakeSource<'a> as Source>⟧.at_end result ≡ false }
    {
        FakeSource {
            text,
            next_size: size,
            size,
            until_failure: fails_at,
            failures: 0,
            at_end: false,
        }
    }

    /// A reader of the text that gives what there is room for, and never fails.
    pub fn whole(text: &'a [u8]) -> Self
        ensures remaining { ⟦<FakeSource<'a> as Source>⟧.remaining result ≡ Some text.entry.now }
        ensures failures { ⟦<FakeSource<'a> as Source>⟧.failures result ≡ 0 }
        ensures at_end { ⟦<FakeSource<'a> as Source>⟧.at_end result ≡ false }
    {
        FakeSource::new(text, usize::MAX, 0)
    }

    /// A reader of the text that gives at most `cut` bytes at first and then what there is room for, and never fails.
    pub fn in_two(text: &'a [u8], cut: usize) -> Self
        requires { 0 < cut }
        ensures remaining { ⟦<FakeSource<'a> as Source>⟧.remaining result ≡ Some text.entry.now }
        ensures failures { ⟦<FakeSource<'a> as Source>⟧.failures result ≡ 0 }
        ensures at_end { ⟦<FakeSource<'a> as Source>⟧.at_end result ≡ false }
    {
        FakeSource {
            text,
            next_size: cut,
            size: usize::MAX,
            until_failure: 0,
            failures: 0,
            at_end: false,
        }
    }

    /// How many reads failed.
    pub fn failures(&self) -> u64
        ensures { result ≡ ⟦<FakeSource<'a> as Source>⟧.failures self.now }
    {
        self.failures
    }

    /// What is left of the text.
    pub fn left(&self) -> &'a [u8]
        ensures { ⟦<FakeSource<'a> as Source>⟧.remaining self.now ≡ Some result.now }
    {
        self.text
    }
}

impl Source for FakeSource<'_> {
    ghost remaining = { λ s. Some s.text.now };

    ghost failures = { λ s. s.failures };

    ghost at_end = { λ s. s.at_end };

    fn read(&mut self, buf: &mut [u8]) -> Result<usize, DeviceFault> {
        let fails = self.until_failure == 1;
        self.until_failure = self.until_failure.saturating_sub(1);
        if fails {
            self.failures = self.failures.saturating_add(1);
            self.at_end = false;
            return Err(DeviceFault);
        }
        let count = self.text.len().min(buf.len()).min(self.next_size);
        self.next_size = self.size;
        let (front, rest) = self.text.split_at(count);
        buf[..count].copy_from_slice(front);
        self.text = rest;
        self.at_end = count == 0 && !buf.is_empty();
        Ok(count)
    }
}
