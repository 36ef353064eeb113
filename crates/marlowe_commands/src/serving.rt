//! The requests of a stream, whose scenarios are played one plan after another.
ghost use Rattle.std.specs.Prelude.{◌≡◌, ◌<◌, ◌^◌, ℕ, List, false, IfOk, OnErr};
ghost use Rattle.std.specs.Io.KnownBytes.{Appends};
ghost use Rattle.serve.specs.Answers.{IsAnswerWith};
ghost use Rattle.serve.specs.Streams.{IsServed, IsServedSoFar};
ghost use Rattle.marlowe_commands.specs.Serving.{TellsPlay};

use crate::in_turn::InTurn;
use marlowe_io::Source;
use marlowe_play::Memory;
use marlowe_run::Readable;
use serve::{Definitions, Ended, Sink, answer_with, serve_with};
use std::sync::Wait;
use std::thread::Threads;

/// Answers requests as `serve` does, but plays their scenarios on the caller's thread: what `play --one --json` prints, each whole before
/// the next line is answered.
pub fn serve_in_turn<R: AllocGlobal + Threads + Wait + Sync, S: Source, K: Sink>(
    rt: &R,
    readable: Readable,
    input: &mut S,
    output: &mut K,
) -> Ended
    requires depth { readable.depth < 2 ^ 63 }
    requires reads { S.has_failed input.old ≡ false }
    requires writes { K.has_failed output.old ≡ false }
    ensures whole { result ≡ Ended.Answered → (answers : List ℕ)
        × Appends (K.contents output.old) (K.contents output.new) answers × IsServed TellsPlay readable (S.remaining input.old) answers }
    ensures front { result ≡ Ended.Unreadable → (answers : List ℕ)
        × Appends (K.contents output.old) (K.contents output.new) answers × IsServedSoFar TellsPlay readable (S.remaining input.old) answers }
{
    let player = InTurn { rt };
    serve_with(rt.alloc(), &player, readable, input, output)
}

/// The answer to a line of this number, as `answer` gives it, but that a scenario is played so.
pub fn answer_in_turn<R: AllocGlobal + Threads + Wait + Sync>(
    rt: &R,
    readable: Readable,
    definitions: &mut Definitions,
    number: u64,
    line: &[u8],
) -> Result<Vec<u8>, Memory>
    requires { readable.depth < 2 ^ 63 }
    ensures answer { IfOk result (λ text. IsAnswerWith TellsPlay readable definitions.old number line.now text.items definitions.new) }
    ensures err { OnErr result (definitions.new ≡ definitions.old) }
{
    let player = InTurn { rt };
    answer_with(rt.alloc(), &player, readable, definitions, number, line)
}
