//! What is written as JSON, and how it becomes a text or a `serde_json` value.
ghost use Rattle.std.specs.Prelude.{◌≡◌, ◌≤◌, Bool, true, length, Some, IfOk, OnOk, OnErr, IsUtf8};
ghost use Rattle.contract.specs.Collections.Answers.{AsideBy};
ghost use Rattle.serde_json.specs.Data.{Data, depth};
ghost use Rattle.serde_json.specs.Read.{read, max_depth};
ghost use Rattle.serde_json.specs.View.{view};
ghost use Rattle.serde_json.specs.Written.{compact_text};
ghost use Rattle.json_tree.specs.View.{read_within};
ghost use Rattle.json_write_contracts.specs.Tokens.{Keeps, PutsFitting};
ghost use Rattle.json_write_contracts.specs.Written.{in_range};
ghost use Rattle.contract_json.specs.Readable.{Readable};

use contract::Memory;
use json::Writer;
use json_tree::{Refusal, value_of_text};
use json_write_contracts::WriteFault;
use serde_json::Value;
use std::alloc::{AllocError, Global};

/// What is written as one JSON value.
pub trait PutJson {
    /// The value that stands for it.
    ghost json: { Self → Data };

    /// Whether JSON has all its numbers.
    ghost fits: { Self → Bool };

    /// A JSON value is read as it. This says nothing where no reader reads what stands for it.
    ghost reads_as: { Self → Data → Type 0 };

    /// Writes it. A number that JSON has to have and doesn't is out of range. Where it fails, what was written before
    /// it stays, and behind it stand some tokens or none.
    fn put(&self, alloc: Global, out: &mut Writer) -> Result<(), WriteFault>
        ensures put { PutsFitting result out.old out.new (fits self.now) (json self.now) }
        ensures err { OnErr result (Keeps out.old out.new) }
        ensures readable { OnOk result (Readable (json self.now)) }
        ensures reads_back { OnOk result (reads_as self.now (json self.now)) };
}

// The compact text of the value.
#[tactic(auto, using(crate::proofs::InRange::fault_of))]
pub(crate) fn text_of<T: PutJson>(alloc: Global, item: &T) -> Result<Vec<u8>, WriteFault>
    ensures written { AsideBy WriteFault.Memory (λ text. text.items) result (in_range (T.fits item.now) (compact_text (T.json item.now))) }
    ensures fits { OnOk result (T.fits item.now ≡ true) }
    ensures reads_back { OnOk result (T.reads_as item.now (T.json item.now)) }
    ensures utf8 { IfOk result (λ text. IsUtf8 text.items) }
    ensures reads { IfOk result (λ text. depth (T.json item.now) ≤ max_depth → read text.items ≡ Some (T.json item.now)) }
    ensures reads_within { IfOk result (λ text. read_within (length text.items) text.items ≡ Some (T.json item.now)) }
{
    let mut out = Writer::new(Vec::new(alloc));
    item.put(alloc, &mut out)?;
    Ok(out.into_inner())
}

/// The JSON value that stands for a thing. A number in it that JSON has to have and doesn't, since it doesn't lie from -2^63
/// to 2^64 - 1, is out of range.
#[tactic(auto, using(crate::proofs::InRange::fitting, crate::proofs::InRange::same_fault))]
pub fn to_json<T: PutJson>(alloc: Global, item: &T) -> Result<Value, WriteFault>
    ensures written { AsideBy WriteFault.Memory view result (in_range (T.fits item.now) (T.json item.now)) }
    ensures reads_back { IfOk result (λ v. T.reads_as item.now (view v)) }
{
    let text = text_of(alloc, item)?;
    match value_of_text(alloc, text.as_slice()) {
        Ok(value) => Ok(value),
        Err(Refusal::Memory) => Err(WriteFault::Memory),
        Err(Refusal::NotJson) => unreachable!(),
    }
}

/// The same for a thing whose numbers JSON has, as each party, token, choice id, payee, payment, warning and state is one.
/// Only memory can be refused.
pub fn fitting_to_json<T: PutJson>(alloc: Global, item: &T) -> Result<Value, Memory>
    requires fits { T.fits item.now ≡ true }
    ensures json { IfOk result (λ v. view v ≡ T.json item.now) }
    ensures reads_back { IfOk result (λ v. T.reads_as item.now (view v)) }
{
    match to_json(alloc, item) {
        Ok(value) => Ok(value),
        Err(WriteFault::Memory) => Err(AllocError),
        Err(WriteFault::OutOfRange) => unreachable!(),
    }
}
