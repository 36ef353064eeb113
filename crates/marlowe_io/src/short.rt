//! Sources and sinks that move few bytes at a call, and fail at a given one.
ghost use Rattle.std.specs.Prelude.{◌≡◌, false};

use crate::sink::{Sink, SinkFault};
use crate::source::{Source, SourceFault};
use std::marker::Model;

/// A source over another that gives at most so many bytes at a call, at least one, and fails after so many calls. It is for tests.
/// Clauses see the source below, and whether a call has failed.
#[derive(Drop)]
pub struct ShortSource<S> {
    source: S,
    most: usize,
    calls: usize,
    has_failed: bool,
}

impl<S> Model for ShortSource<S> {
    ghost use Rattle.std.specs.Prelude.{Bool};
    ghost use Rattle.std.specs.Coded.{coded×, coded_bool};

    ghost Value = { S × Bool };

    ghost coded = { coded× S.code coded_bool };

    ghost view = { λ a. (a.source, a.has_failed) };
}

impl<S> ShortSource<S> {
    /// A source over this one, of so many bytes at a call and so many calls.
    pub fn new(source: S, most: usize, calls: usize) -> ShortSource<S>
        ensures { result ≡ (source, false) }
    {
        ShortSource {
            source,
            most: most.max(1),
            calls,
            has_failed: false,
        }
    }
}

impl<S: Source> Source for ShortSource<S> {
    ghost remaining = { λ s. S.remaining s.0 };

    ghost has_failed = { λ s. s.1 };

    fn failed(&self) -> bool {
        self.has_failed
    }

    fn read(&mut self, into: &mut [u8]) -> Result<usize, SourceFault> {
        if self.calls > 0 {
            self.calls -= 1;
            let most = into.len().min(self.most.max(1));
            if let Ok(count) = self.source.read(&mut into[..most]) {
                return Ok(count);
            }
        }
        self.has_failed = true;
        Err(SourceFault)
    }
}

/// A sink over another that takes at most so many bytes at a call, at least one, and fails after so many calls. It is for tests.
/// Clauses see the sink below, and whether a call has failed.
#[derive(Drop)]
pub struct ShortSink<S> {
    sink: S,
    most: usize,
    calls: usize,
    has_failed: bool,
}

impl<S> Model for ShortSink<S> {
    ghost use Rattle.std.specs.Prelude.{Bool};
    ghost use Rattle.std.specs.Coded.{coded×, coded_bool};

    ghost Value = { S × Bool };

    ghost coded = { coded× S.code coded_bool };

    ghost view = { λ a. (a.sink, a.has_failed) };
}

impl<S> ShortSink<S> {
    /// A sink over this one, of so many bytes at a call and so many calls.
    pub fn new(sink: S, most: usize, calls: usize) -> ShortSink<S>
        ensures { result ≡ (sink, false) }
    {
        ShortSink {
            sink,
            most: most.max(1),
            calls,
            has_failed: false,
        }
    }
}

impl<S: Sink> Sink for ShortSink<S> {
    ghost contents = { λ s. S.contents s.0 };

    ghost has_failed = { λ s. s.1 };

    fn failed(&self) -> bool {
        self.has_failed
    }

    fn write(&mut self, from: &[u8]) -> Result<usize, SinkFault> {
        if self.calls > 0 {
            self.calls -= 1;
            let most = from.len().min(self.most.max(1));
            if let Ok(count) = self.sink.write(&from[..most]) {
                return Ok(count);
            }
        }
        self.has_failed = true;
        Err(SinkFault)
    }
}
