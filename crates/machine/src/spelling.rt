//! The spelling of a datum.
ghost use Rattle.std.specs.Prelude.{◌≡◌, ◌<◌, ◌^◌, ◌++◌, OnOk, OnErr};
ghost use Rattle.machine.specs.Spelling.{cont_bytes, datum_bytes, DatumFits};

use crate::datum::Datum;
use contract::Memory;
use contract_bytes::Spell;

#[tactic(auto, unfolding(crate::specs::Spelling::cont_bytes))]
fn put_cont(out: &mut Vec<u8>, number: u32) -> Result<(), Memory>
    ensures spelling { OnOk result (out.new.items ≡ out.old.items ++ cont_bytes number) }
    ensures fits { number < 2 ^ 32 }
    ensures err { OnErr result (out.new.items ≡ out.old.items) }
{
    let bytes = number.to_be_bytes();
    out.extend_from_slice(bytes.as_slice())?;
    Ok(())
}

impl Spell for Datum {
    ghost spelling = { datum_bytes };

    ghost Fits = { DatumFits };

    fn put(&self, out: &mut Vec<u8>) -> Result<(), Memory> {
        put_cont(out, self.cont.0)?;
        self.state.put(out)
    }
}
