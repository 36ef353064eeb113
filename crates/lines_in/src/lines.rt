//! The lines of a stream, one after another.
ghost use Rattle.std.specs.Prelude.{◌≡◌, [], ◌++◌, ℕ, List, true, false, IfOk, OnOk, OnErr};
ghost use Rattle.std.specs.Io.KnownBytes.{Consumes, IsAtEnd};
ghost use Rattle.lines_in.specs.Lines.{lines_of};
ghost use Rattle.lines_in.specs.Held.{Held, come, told};

use crate::feed::first_feed;
use crate::parts::{LONGEST_LINE, Step, begin, ended, grow, is_begun};
use marlowe_io::{Source, SourceFault};
use std::alloc::{AllocError, Global};
use std::marker::Model;

// How many bytes a read asks for.
const PIECE: usize = 65_536;

/// What has been read of a stream and not yet been given. Clauses see what it holds: `come` has the lines that are still to come of it.
#[derive(Drop)]
pub struct Lines {
    // The line so far, which stays empty where it is too long, with room for the longest; or the line that was given last.
    line: Vec<u8>,
    is_long: bool,
    is_given: bool,
    // What was read last, and the part of it that is behind the line so far.
    piece: Vec<u8>,
    start: usize,
    end: usize,
    // Whether nothing more can be read.
    has_ended: bool,
}

impl Model for Lines {
    ghost use Rattle.std.specs.Prelude.{◌≡◌, ◌≤◌, ◌-◌, take, drop, vec_len, vec_capacity};
    ghost use Rattle.lines_in.specs.Lines.{longest_line};
    ghost use Rattle.lines_in.specs.Held.{Held, so_far};

    ghost Value = { Held };

    ghost view = { λ a. record {
      is_long = a.is_long;
      line = so_far a.is_given a.line.items;
      piece = take (a.end - a.start) (drop a.start a.piece.items);
      has_ended = a.has_ended;
      given = a.line.items;
    } };

    ghost invariant = { λ a. (vec_len a.line ≤ longest_line) × (longest_line ≤ vec_capacity a.line) × (vec_len a.piece ≡ 65536) × (a.start ≤ a.end) × (a.end ≤ 65536) };
}

impl Lines {
    /// Nothing has been read yet. All room that lines take is taken here.
    pub fn new(alloc: Global) -> Result<Lines, AllocError>
        ensures first { IfOk result (λ held. (bytes : List ℕ) → come held bytes ≡ lines_of bytes) }
        ensures open { IfOk result (λ held. held.has_ended ≡ false) }
    {
        let mut piece = Vec::new(alloc);
        piece.resize(PIECE, 0u8)?;
        Ok(Lines {
            line: Vec::with_capacity(alloc, LONGEST_LINE)?,
            is_long: false,
            is_given: false,
            piece,
            start: 0,
            end: 0,
            has_ended: false,
        })
    }

    /// The next line of what has been read, which `line` lends. Where none has come whole, more is to be read, by `fill`, or there is none.
    pub fn step(&mut self) -> Step
        ensures lines { (rest : List ℕ) → (self.old.has_ended ≡ true → rest ≡ [])
            → come self.old rest ≡ told result self.new.given ++ come self.new rest }
        ensures more { result ≡ Step.More → (self.old.has_ended ≡ false) × (self.new.piece ≡ []) }
        ensures end { result ≡ Step.End → (self.old.has_ended ≡ true) × (come self.new [] ≡ []) }
        ensures open { self.new.has_ended ≡ self.old.has_ended }
    {
        begin(&mut self.line, self.is_given);
        self.is_given = false;
        let held = &self.piece[self.start..self.end];
        match first_feed(held) {
            Some(count) => {
                let is_long = grow(&mut self.line, self.is_long, &held[..count]);
                self.start = self.start + count + 1;
                self.is_long = false;
                self.is_given = true;
                ended(&self.line, is_long)
            }
            None => {
                let is_long = grow(&mut self.line, self.is_long, held);
                self.start = self.end;
                self.is_long = is_long;
                if !self.has_ended {
                    return Step::More;
                }
                let begun = is_begun(self.line.as_slice(), is_long);
                if !begun {
                    return Step::End;
                }
                self.is_long = false;
                self.is_given = true;
                ended(&self.line, is_long)
            }
        }
    }

    /// The line that was given last, until the next step.
    pub fn line(&self) -> &[u8]
        ensures { result.now ≡ self.now.given }
    {
        self.line.as_slice()
    }

    /// Reads more, once all that was read has been gone through: the lines that are to come stay the same. The source may not have failed.
    pub fn fill<S: Source>(&mut self, from: &mut S) -> Result<(), SourceFault>
        requires works { S.has_failed from.old ≡ false }
        requires open { self.old.has_ended ≡ false }
        requires through { self.old.piece ≡ [] }
        ensures bytes { OnOk result ((bytes : List ℕ) × Consumes (S.remaining from.old) (S.remaining from.new) bytes
            × ((rest : List ℕ) → come self.new rest ≡ come self.old (bytes ++ rest))) }
        ensures end { OnOk result (self.new.has_ended ≡ true → IsAtEnd (S.remaining from.new)) }
        ensures works { OnOk result (S.has_failed from.new ≡ false) }
        ensures fails { OnErr result (S.has_failed from.new ≡ true) }
    {
        let count = from.read(&mut self.piece)?;
        self.start = 0;
        self.end = count;
        self.has_ended = count == 0;
        Ok(())
    }
}
