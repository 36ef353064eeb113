//! Sources over the readers of the standard library, and over files.
ghost use Rattle.std.specs.Prelude.{◌≡◌, false, IfOk};

use crate::loading::{LoadFault, load};
use crate::source::{Source, SourceFault};
use std::fs;
use std::io::{ErrorKind, Read};
use std::marker::Model;
use std::rt::Files;

// How many times a read is tried that a signal interrupts.
const TRIES: u32 = 100;

/// A source over a reader of the standard library, as a file. A read that a signal interrupts is tried again, 100 times in
/// all, and then has failed. Clauses see the reader, and whether a call has failed.
#[derive(Drop)]
pub struct ReaderSource<R> {
    reader: R,
    has_failed: bool,
}

impl<R> Model for ReaderSource<R> {
    ghost use Rattle.std.specs.Prelude.{Bool};
    ghost use Rattle.std.specs.Coded.{coded×, coded_bool};

    ghost Value = { R × Bool };

    ghost coded = { coded× R.code coded_bool };

    ghost view = { λ a. (a.reader, a.has_failed) };
}

impl<R> ReaderSource<R> {
    /// The source over this reader.
    pub fn new(reader: R) -> ReaderSource<R>
        ensures { result ≡ (reader, false) }
    {
        ReaderSource {
            reader,
            has_failed: false,
        }
    }
}

impl<R: Read> Source for ReaderSource<R> {
    ghost remaining = { λ s. R.remaining s.0 };

    ghost has_failed = { λ s. s.1 };

    fn failed(&self) -> bool {
        self.has_failed
    }

    fn read(&mut self, into: &mut [u8]) -> Result<usize, SourceFault> {
        for _ in 0..TRIES {
            match self.reader.read(into) {
                Ok(count) => return Ok(count),
                Err(error) => {
                    if error.kind() != ErrorKind::Interrupted {
                        break;
                    }
                }
            }
        }
        self.has_failed = true;
        Err(SourceFault)
    }
}

/// The source over the file at a path, which hasn't failed; `Unreadable` where it can't be opened.
pub fn open<R: Files>(rt: &R, path: &str) -> Result<ReaderSource<R::File>, LoadFault>
    ensures { IfOk result (λ source. source.1 ≡ false) }
{
    match fs::open(rt, path) {
        Ok(file) => Ok(ReaderSource::new(file)),
        Err(_) => Err(LoadFault::Unreadable),
    }
}

/// What the file at a path holds, or its first 1,048,577 bytes.
pub fn load_file<R: Files + AllocGlobal>(rt: &R, path: &str) -> Result<Vec<u8>, LoadFault> {
    load(rt.alloc(), &mut open(rt, path)?)
}
