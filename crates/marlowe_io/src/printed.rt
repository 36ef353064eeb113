//! Sinks over the writers of the standard library, and over what is printed.
ghost use Rattle.std.specs.Prelude.{◌≡◌, false};

use crate::emitting::{Unwritable, emit};
use crate::sink::{Sink, SinkFault};
use std::io;
use std::io::{ErrorKind, Printer, Write};
use std::marker::Model;

// How many times a write is tried that a signal interrupts.
const TRIES: u32 = 100;

/// A sink over a writer of the standard library, as standard output. A write that a signal interrupts is tried again, 100
/// times in all, and then has failed. Clauses see the writer, and whether a call has failed.
#[derive(Drop)]
pub struct WriterSink<W> {
    writer: W,
    has_failed: bool,
}

impl<W> Model for WriterSink<W> {
    ghost use Rattle.std.specs.Prelude.{Bool};
    ghost use Rattle.std.specs.Coded.{coded×, coded_bool};

    ghost Value = { W × Bool };

    ghost coded = { coded× W.code coded_bool };

    ghost view = { λ a. (a.writer, a.has_failed) };
}

impl<W> WriterSink<W> {
    /// The sink over this writer.
    pub fn new(writer: W) -> WriterSink<W>
        ensures { result ≡ (writer, false) }
    {
        WriterSink {
            writer,
            has_failed: false,
        }
    }
}

impl<W: Write> Sink for WriterSink<W> {
    ghost contents = { λ s. W.contents s.0 };

    ghost has_failed = { λ s. s.1 };

    fn failed(&self) -> bool {
        self.has_failed
    }

    fn write(&mut self, from: &[u8]) -> Result<usize, SinkFault> {
        for _ in 0..TRIES {
            match self.writer.write(from) {
                Ok(count) => {
                    if count == 0 && !from.is_empty() {
                        break;
                    }
                    return Ok(count);
                }
                Err(error) => {
                    if error.kind() != ErrorKind::Interrupted {
                        break;
                    }
                }
            }
        }
        self.has_failed = true;
        Err(SinkFault)
    }
}

/// The sink over what a handle prints, as standard output. It hasn't failed.
pub fn output<P: Print>(to: &P) -> WriterSink<Printer<'_, P>>
    ensures { result.1 ≡ false }
{
    WriterSink::new(io::writer(to))
}

/// Writes a text to what a handle prints, as standard output.
pub fn emit_output<P: Print>(to: &P, text: &[u8]) -> Result<(), Unwritable> {
    emit(&mut output(to), text)
}
