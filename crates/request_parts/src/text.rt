//! The compact text of a value.
ghost use Rattle.std.specs.Prelude.{◌≡◌};
ghost use Rattle.contract.specs.Collections.Answers.{AsideBy};
ghost use Rattle.marlowe_run.specs.JsonWriteContracts.Written.{in_range};
ghost use Rattle.serde_json.specs.Written.{compact_text};

use json::Writer;
use marlowe_run::{PutJson, WriteFault};
use std::alloc::Global;

/// The compact text of what stands for a thing.
#[tactic(auto, using(contract_json::proofs::InRange::fault_of))]
pub fn text_of<T: PutJson>(alloc: Global, item: &T) -> Result<Vec<u8>, WriteFault>
    ensures { AsideBy WriteFault.Memory (λ text. text.items) result (in_range (T.fits item.now) (compact_text (T.json item.now))) }
{
    let mut out = Writer::new(Vec::new(alloc));
    item.put(alloc, &mut out)?;
    Ok(out.into_inner())
}
