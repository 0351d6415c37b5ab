//! The standard library's readers and writers as devices.

ghost use Rattle.std.specs.Prelude.{◌≡◌, false};

use crate::device::{DeviceFault, Sink, Source};
use std::io::{Read, Write};

/// A reader of the standard library as a `Source`. Any error of the reader is a failure.
#[derive(Drop)]
pub struct FromRead<R> {
    inner: R,
    failures: u64,
    at_end: bool,
}

impl<R: Read> FromRead<R> {
    /// A source of what the reader has left to give, which did not fail yet.
    pub fn new(inner: R) -> Self
        ensures remaining { ⟦<FromRead<R> as Source>⟧.remaining result ≡ R.remaining inner }
        ensures failures { ⟦<FromRead<R> as Source>⟧.failures result ≡ 0 }
        ensures at_end { ⟦<FromRead<R> as Source>⟧.at_end result ≡ false }
    {
        FromRead {
            inner,
            failures: 0,
            at_end: false,
        }
    }

    /// The reader, with what is left to give. No byte was read ahead.
    pub fn into_inner(self) -> R
        ensures remaining { R.remaining result ≡ ⟦<FromRead<R> as Source>⟧.remaining self }
    {
        self.inner
    }
}

impl<R: Read> Source for FromRead<R> {
    ghost remaining = { λ s. R.remaining s.inner };

    ghost failures = { λ s. s.failures };

    ghost at_end = { λ s. s.at_end };

    fn read(&mut self, buf: &mut [u8]) -> Result<usize, DeviceFault> {
        match self.inner.read(buf) {
            Ok(count) => {
                self.at_end = count == 0 && !buf.is_empty();
                Ok(count)
            }
            Err(_) => {
                self.failures = self.failures.saturating_add(1);
                self.at_end = false;
                Err(DeviceFault)
            }
        }
    }
}

/// A writer of the standard library as a `Sink`. Any error of the writer is a failure, and so is a write that
/// takes no byte of a piece that has bytes.
///
/// Over a `Vec<u8, A>` it takes each piece whole, or nothing of it where the growth is refused.
#[derive(Drop)]
pub struct ToWrite<W> {
    inner: W,
    failures: u64,
}

impl<W: Write> ToWrite<W> {
    /// A sink that holds what the writer holds, which did not fail yet.
    pub fn new(inner: W) -> Self
        ensures contents { ⟦<ToWrite<W> as Sink>⟧.contents result ≡ W.contents inner }
        ensures failures { ⟦<ToWrite<W> as Sink>⟧.failures result ≡ 0 }
    {
        ToWrite { inner, failures: 0 }
    }

    /// The writer, with what it holds. No byte was kept back.
    pub fn into_inner(self) -> W
        ensures contents { W.contents result ≡ ⟦<ToWrite<W> as Sink>⟧.contents self }
    {
        self.inner
    }
}

impl<W: Write> Sink for ToWrite<W> {
    ghost contents = { λ s. W.contents s.inner };

    ghost failures = { λ s. s.failures };

    fn write(&mut self, piece: &[u8]) -> Result<usize, DeviceFault> {
        match self.inner.write(piece) {
            Ok(count) => {
                if count == 0 && !piece.is_empty() {
                    self.failures = self.failures.saturating_add(1);
                }
                Ok(count)
            }
            Err(_) => {
                self.failures = self.failures.saturating_add(1);
                Err(DeviceFault)
            }
        }
    }
}
