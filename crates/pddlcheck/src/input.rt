//! The files that a command reads.

use std::fs::File;
use std::io;
use std::io::Read;
use std::rt::Files;

/// The name of standard input. It is read as it is and not opened anew, which the system refuses where it was
/// opened by another user.
const STANDARD_INPUT: &str = "/dev/stdin";

/// A file that was opened, or standard input.
#[derive(Drop)]
pub enum Opened<F, I> {
    File(F),
    Standard(I),
}

impl<F: Read, I: Read> Read for Opened<F, I> {
    ghost use Rattle.pddlcheck.specs.Opened.{remaining_of};

    ghost remaining = { λ o. remaining_of F.remaining I.remaining o };

    fn read(&mut self, buf: &mut [u8]) -> io::Result<usize> {
        match self {
            Opened::File(file) => file.read(buf),
            Opened::Standard(input) => input.read(buf),
        }
    }
}

/// Opens the file at the path for reading; `/dev/stdin` is standard input.
pub fn open<R: Files + Input>(rt: &R, path: &str) -> io::Result<Opened<R::File, R::Reader>> {
    if path == STANDARD_INPUT {
        return Ok(Opened::Standard(rt.reader()));
    }
    Ok(Opened::File(File::open(rt, path)?))
}
