//! A stream of requests, answered one after another.
ghost use Rattle.std.specs.Prelude.{◌≡◌, ◌≤◌, ◌<◌, ◌+◌, ◌-◌, ◌^◌, ℕ, List, [], false, true, Ok, Err, OnOk, OnErr};
ghost use Rattle.std.specs.declared.option.Option.{Option};
ghost use Rattle.std.specs.Io.KnownBytes.{Appends};
ghost use Rattle.lines_in.specs.Held.{come};
ghost use Rattle.request_answers.specs.MarloweTrace.MarloweRun.declared.readable.Readable.{Readable};
ghost use Rattle.serve.specs.declared.stream.Ended.TheVariants as endings;
ghost use Rattle.request_answers.specs.Playing.{no_play};
ghost use Rattle.serve.specs.Streams.{IsServed, IsServedSoFar};
ghost use Rattle.serve.specs.StreamsSupport.{Adds, Going, Stopped, put_text};

use crate::line_answers::{answer_too_long, answer_with};
use contract::Memory;
use lines_in::{Lines, Step};
use marlowe_io::{Sink, Source, Unwritable, emit};
use request_answers::{Definitions, NoPlayer, Player, Readable};
use std::alloc::Global;

// How many bytes of answers wait at most before they are written.
const ROOM: usize = 65_536;

/// How a stream has ended.
#[derive(Clone, Copy, Debug, PartialEq, Eq)]
pub enum Ended {
    /// Each line has its answer.
    Answered = 1,
    /// A read has failed.
    Unreadable = 2,
    /// A write has failed.
    Unwritable = 3,
    /// There was no memory to begin with.
    Memory = 4,
}

impl From<Unwritable> for Ended {
    ghost from_gives = { λ _ ended. ended ≡ endings.Unwritable };

    fn from(_error: Unwritable) -> Ended {
        Ended::Unwritable
    }
}

// What stands between two lines.
#[derive(Drop)]
struct Desk {
    lines: Lines,
    definitions: Definitions,
    // How many lines have been answered.
    number: u64,
    // Answers that wait to be written.
    waiting: Vec<u8>,
}

/// Answers requests that come one a line, in order, until the lines end. What waits to be written is written before each read, so that
/// whoever asks has the answers to all lines that were given. Both streams may not have failed before. Where a read fails, what has been
/// written answers the first of the lines. Nothing is played.
pub fn serve<S: Source, K: Sink>(
    alloc: Global,
    readable: Readable,
    input: &mut S,
    output: &mut K,
) -> Ended
    requires depth { readable.depth < 2 ^ 63 }
    requires reads { S.has_failed input.old ≡ false }
    requires writes { K.has_failed output.old ≡ false }
    ensures whole { result ≡ Ended.Answered → (answers : List ℕ)
        × Appends (K.contents output.old) (K.contents output.new) answers × IsServed no_play readable (S.remaining input.old) answers }
    ensures front { result ≡ Ended.Unreadable → (answers : List ℕ)
        × Appends (K.contents output.old) (K.contents output.new) answers × IsServedSoFar no_play readable (S.remaining input.old) answers }
{
    serve_with(alloc, &NoPlayer, readable, input, output)
}

/// The same, where a player plays the scenarios.
#[tactic(auto, using(crate::proofs::StreamLemmas::serve_steps))]
pub fn serve_with<P: Player, S: Source, K: Sink>(
    alloc: Global,
    player: &P,
    readable: Readable,
    input: &mut S,
    output: &mut K,
) -> Ended
    requires depth { readable.depth < 2 ^ 63 }
    requires may { P.may player.now }
    requires reads { S.has_failed input.old ≡ false }
    requires writes { K.has_failed output.old ≡ false }
    ensures whole { result ≡ Ended.Answered → (answers : List ℕ)
        × Appends (K.contents output.old) (K.contents output.new) answers × IsServed P.tells readable (S.remaining input.old) answers }
    ensures front { result ≡ Ended.Unreadable → (answers : List ℕ)
        × Appends (K.contents output.old) (K.contents output.new) answers × IsServedSoFar P.tells readable (S.remaining input.old) answers }
{
    let Ok(lines) = Lines::new(alloc) else {
        return Ended::Memory;
    };
    let mut desk = Desk {
        lines,
        definitions: Definitions::new(alloc),
        number: 0,
        waiting: Vec::new(alloc),
    };
    for step in 0..u64::MAX {
        // touch: so many lines at most have been answered
        let _ = step;
        match turn(alloc, player, readable, &mut desk, input, output) {
            Ok(true) => return Ended::Answered,
            Ok(false) => {}
            Err(ended) => return ended,
        }
    }
    match write(&mut desk.waiting, output) {
        Ok(()) => Ended::Unreadable,
        Err(_) => Ended::Unwritable,
    }
}

// The next line is answered, or more is read. Tells whether all lines have been answered.
#[tactic(auto, using(crate::proofs::StreamLemmas::turn_steps))]
fn turn<P: Player, S: Source, K: Sink>(
    alloc: Global,
    player: &P,
    readable: Readable,
    desk: &mut Desk,
    input: &mut S,
    output: &mut K,
) -> Result<bool, Ended>
    requires depth { readable.depth < 2 ^ 63 }
    requires may { P.may player.now }
    requires reads { S.has_failed input.old ≡ false }
    requires writes { K.has_failed output.old ≡ false }
    requires numbers { desk.old.number < 2 ^ 64 - 1 }
    ensures going { OnOk result ((first begun : Option (List ℕ))
        → Going P.tells readable first begun (S.remaining input.old) (K.contents output.old)
        desk.old.lines desk.old.definitions desk.old.number desk.old.waiting.items
        → Going P.tells readable first begun (S.remaining input.new) (K.contents output.new)
        desk.new.lines desk.new.definitions desk.new.number desk.new.waiting.items) }
    ensures ended { result ≡ Ok true
        → (desk.new.waiting.items ≡ []) × (desk.new.lines.has_ended ≡ true) × (come desk.new.lines [] ≡ []) }
    ensures reads { OnOk result (S.has_failed input.new ≡ false) }
    ensures writes { OnOk result (K.has_failed output.new ≡ false) }
    ensures numbers { OnOk result (desk.new.number ≤ desk.old.number + 1) }
    ensures stopped { result ≡ Err Ended.Unreadable → (first begun : Option (List ℕ))
        → Going P.tells readable first begun (S.remaining input.old) (K.contents output.old)
        desk.old.lines desk.old.definitions desk.old.number desk.old.waiting.items
        → Stopped P.tells readable first begun (K.contents output.new) }
    ensures other { result ≡ Err Ended.Answered → ⊥ }
{
    match desk.lines.step() {
        Step::Line => {
            desk.number += 1;
            let text = answer_with(
                alloc,
                player,
                readable,
                &mut desk.definitions,
                desk.number,
                desk.lines.line(),
            );
            put_answer(&mut desk.waiting, output, text)?;
            Ok(false)
        }
        Step::TooLong => {
            desk.number += 1;
            let text = answer_too_long(alloc, desk.number);
            put_answer(&mut desk.waiting, output, text)?;
            Ok(false)
        }
        Step::More => {
            write(&mut desk.waiting, output)?;
            read_more::<P, S>(desk, input)?;
            Ok(false)
        }
        Step::End => {
            write(&mut desk.waiting, output)?;
            Ok(true)
        }
    }
}

// More is read. No answer waits to be written then.
#[tactic(auto, using(crate::proofs::StreamLemmas::read_steps))]
fn read_more<P: Player, S: Source>(desk: &mut Desk, input: &mut S) -> Result<(), Ended>
    requires works { S.has_failed input.old ≡ false }
    requires open { desk.old.lines.has_ended ≡ false }
    requires through { desk.old.lines.piece ≡ [] }
    requires written { desk.old.waiting.items ≡ [] }
    ensures going { OnOk result ((r : Readable) (first begun now : Option (List ℕ))
        → Going P.tells r first begun (S.remaining input.old) now desk.old.lines desk.old.definitions desk.old.number desk.old.waiting.items
        → Going P.tells r first begun (S.remaining input.new) now
        desk.new.lines desk.new.definitions desk.new.number desk.new.waiting.items) }
    ensures works { OnOk result (S.has_failed input.new ≡ false) }
    ensures number { OnOk result (desk.new.number ≡ desk.old.number) }
    ensures err { OnErr result (result ≡ Err Ended.Unreadable) }
{
    match desk.lines.fill(input) {
        Ok(()) => Ok(()),
        Err(_) => Err(Ended::Unreadable),
    }
}

// Puts an answer behind those that wait, or the one that tells that memory was refused.
fn put_answer<K: Sink>(
    waiting: &mut Vec<u8>,
    output: &mut K,
    answer: Result<Vec<u8>, Memory>,
) -> Result<(), Unwritable>
    requires { K.has_failed output.old ≡ false }
    ensures adds { OnOk result (Adds (K.contents output.old) waiting.old.items (K.contents output.new) waiting.new.items (put_text answer)) }
    ensures works { OnOk result (K.has_failed output.new ≡ false) }
{
    match answer {
        Ok(text) => put(waiting, output, text.as_slice()),
        Err(_) => put(
            waiting,
            output,
            b"{\"id\":null,\"refused\":{\"of\":\"memory\",\"name\":\"Memory\"}}\n",
        ),
    }
}

// Puts a text behind those that wait, or writes all where they become too many.
#[tactic(auto, using(crate::proofs::StreamLemmas::put_steps))]
fn put<K: Sink>(waiting: &mut Vec<u8>, output: &mut K, text: &[u8]) -> Result<(), Unwritable>
    requires { K.has_failed output.old ≡ false }
    ensures adds { OnOk result (Adds (K.contents output.old) waiting.old.items (K.contents output.new) waiting.new.items text.now) }
    ensures works { OnOk result (K.has_failed output.new ≡ false) }
{
    if waiting.len() >= ROOM {
        return write_with(waiting, output, text);
    }
    match waiting.extend_from_slice(text) {
        Ok(()) => Ok(()),
        Err(_) => {
            write_with(waiting, output, text)?;
            Ok(())
        }
    }
}

// Writes those that wait, and then a text.
#[tactic(auto, using(crate::proofs::StreamLemmas::put_steps))]
fn write_with<K: Sink>(waiting: &mut Vec<u8>, output: &mut K, text: &[u8]) -> Result<(), Unwritable>
    requires { K.has_failed output.old ≡ false }
    ensures adds { OnOk result (Adds (K.contents output.old) waiting.old.items (K.contents output.new) waiting.new.items text.now) }
    ensures works { OnOk result (K.has_failed output.new ≡ false) }
{
    write(waiting, output)?;
    emit(output, text)?;
    Ok(())
}

// Writes those that wait.
fn write<K: Sink>(waiting: &mut Vec<u8>, output: &mut K) -> Result<(), Unwritable>
    requires { K.has_failed output.old ≡ false }
    ensures whole { OnOk result (Appends (K.contents output.old) (K.contents output.new) waiting.old.items) }
    ensures none { OnOk result (waiting.new.items ≡ []) }
    ensures works { OnOk result (K.has_failed output.new ≡ false) }
{
    emit(output, waiting.as_slice())?;
    waiting.clear();
    Ok(())
}
