//! States.
ghost use Rattle.std.specs.Prelude.{◌≡◌, ◌++◌, OnOk, OnErr};
ghost use Rattle.contract_bytes.specs.States.{state_bytes, StateFits};
ghost use Rattle.contract_bytes.specs.Writing.{AppendsFront};

use crate::number::put_time;
use crate::spell::put_list;
use contract::{Memory, State};

/// Appends a state: its accounts, its choices and its bound values, each in order, then its minimum time.
#[tactic(auto, using(std::proofs::Common::append_assoc))]
pub fn put_state(out: &mut Vec<u8>, state: &State) -> Result<(), Memory>
    ensures spelling { OnOk result (out.new.items ≡ out.old.items ++ state_bytes state.now) }
    ensures fits { OnOk result (StateFits state.now) }
    ensures err { OnErr result (AppendsFront (state_bytes state.now) out.old.items out.new.items) }
{
    put_list(out, state.accounts())?;
    put_list(out, state.choices())?;
    put_list(out, state.bound_values())?;
    put_time(out, state.min_time())?;
    Ok(())
}
