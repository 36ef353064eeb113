//! Writing a text.
ghost use Rattle.std.specs.Prelude.{◌≡◌, ◌↔◌, true, false, OnOk, OnErr, Err};
ghost use Rattle.std.specs.Io.KnownBytes.{Appends};
ghost use Rattle.marlowe_io.specs.Texts.{AppendsBeginning};

use crate::sink::{Sink, SinkFault};

/// That a text could not be written to its end.
#[derive(Clone, Copy, Debug, PartialEq, Eq)]
pub struct Unwritable;

/// Writes a text to a sink, all of it, in as many writes as that takes.
///
/// `Unwritable` exactly where a write has failed: then a beginning of the text has gone out, and not all of it. The
/// sink may not have failed before: `failed` tells.
pub fn emit<S: Sink>(to: &mut S, text: &[u8]) -> Result<(), Unwritable>
    requires { S.has_failed to.old ≡ false }
    ensures whole { OnOk result (Appends (S.contents to.old) (S.contents to.new) text.now) }
    ensures beginning { OnErr result (AppendsBeginning (S.contents to.old) (S.contents to.new) text.now) }
    ensures works { OnOk result (S.has_failed to.new ≡ false) }
    ensures fails { OnErr result (S.has_failed to.new ≡ true) }
{
    let mut at = 0;
    while at < text.len() {
        match to.write(&text[at..]) {
            Ok(count) => at += count,
            Err(SinkFault) => return Err(Unwritable),
        }
    }
    Ok(())
}
