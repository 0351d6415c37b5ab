//! A writer into memory.

ghost use Rattle.std.specs.Prelude.{◌≡◌, ◌<◌, [], Some};

use pddl_device::{DeviceFault, Sink};
use std::alloc::Allocator;

/// How a writer fails.
#[derive(Clone, Copy, Debug, PartialEq, Eq)]
pub enum Failure {
    /// It answers that it failed.
    Answers,
    /// It takes no byte.
    TakesNone,
}

/// A writer that keeps what it takes. It takes at most so many bytes at a time, and fails at one of its writes.
#[derive(Drop)]
pub struct FakeSink<A: Allocator> {
    held: Vec<u8, A>,
    size: usize,
    /// How many writes there are up to the one that fails, that one included; 0 where none fails.
    until_failure: u64,
    failure: Failure,
    failures: u64,
    ghost has_size: { 0 < size },
}

impl<A: Allocator> FakeSink<A> {
    /// A writer that holds nothing and takes at most `size` bytes at a time. Write number `fails_at`, counted from 1,
    /// fails in this way and takes nothing, and the writes after it go on; none fails at 0, but for want of memory.
    pub fn new(alloc: A, size: usize, fails_at: u64, failure: Failure) -> Self
        requires { 0 < size }
        ensures contents { ⟦<FakeSink<A> as Sink>⟧.contents result ≡ Some [] }
        ensures failures { ⟦<FakeSink<A> as Sink>⟧.failures result ≡ 0 }
    {
        FakeSink {
            held: Vec::new(alloc),
            size,
            until_failure: fails_at,
            failure,
            failures: 0,
        }
    }

    /// A writer that holds nothing, takes each piece whole, and fails only for want of memory.
    pub fn whole(alloc: A) -> Self
        ensures contents { ⟦<FakeSink<A> as Sink>⟧.contents result ≡ Some [] }
        ensures failures { ⟦<FakeSink<A> as Sink>⟧.failures result ≡ 0 }
    {
        FakeSink::new(alloc, usize::MAX, 0, Failure::Answers)
    }

    /// How many writes failed.
    pub fn failures(&self) -> u64
        ensures { result ≡ ⟦<FakeSink<A> as Sink>⟧.failures self.now }
    {
        self.failures
    }

    /// What was taken.
    pub fn held(&self) -> &[u8]
        ensures { ⟦<FakeSink<A> as Sink>⟧.contents self.now ≡ Some result.now }
    {
        self.held.as_slice()
    }
}

impl<A: Allocator> Sink for FakeSink<A> {
    ghost contents = { λ s. Some s.held.items };

    ghost failures = { λ s. s.failures };

    fn write(&mut self, piece: &[u8]) -> Result<usize, DeviceFault> {
        let fails = self.until_failure == 1;
        self.until_failure = self.until_failure.saturating_sub(1);
        let count = piece.len().min(self.size);
        if !fails && self.held.extend_from_slice(&piece[..count]).is_ok() {
            return Ok(count);
        }
        if self.failure == Failure::TakesNone {
            if !piece.is_empty() {
                self.failures = self.failures.saturating_add(1);
            }
            return Ok(0);
        }
        self.failures = self.failures.saturating_add(1);
        Err(DeviceFault)
    }
}
