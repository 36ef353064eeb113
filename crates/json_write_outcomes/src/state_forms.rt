//! States.
//! Where a call fails, what was written before it stays, and behind it stand some tokens or none.
ghost use Rattle.std.specs.Prelude.{◌≡◌, true, codes, OnOk, OnErr};
ghost use Rattle.std.specs.FinMap.{entries};
ghost use Rattle.json_write_contracts.specs.Members.{member_tokens};
ghost use Rattle.json_write_contracts.specs.Tokens.{Adds, Keeps, Puts};
ghost use Rattle.json_write_contracts.specs.WrittenNames.{number_json, time_fits};
ghost use Rattle.json_write_outcomes.specs.Each.{Each, HasBytes};
ghost use Rattle.json_write_outcomes.specs.WrittenOutcome.{accounts_json, bound_values_json, choices_json, state_json};

use crate::lists::list_member;
use contract::{Memory, State};
use json::Writer;
use json_write_contracts::put_time;
use std::alloc::Global;

fn accounts_member(alloc: Global, out: &mut Writer, state: &State) -> Result<(), Memory>
    ensures put { OnOk result (Adds out.old out.new (member_tokens (codes "accounts") (accounts_json state.now))) }
    ensures err { OnErr result (Keeps out.old out.new) }
    ensures symbols { OnOk result (Each HasBytes (entries state.now.accounts)) }
{
    list_member(alloc, out, "accounts", state.accounts())
}

fn bound_values_member(alloc: Global, out: &mut Writer, state: &State) -> Result<(), Memory>
    ensures put { OnOk result (Adds out.old out.new (member_tokens (codes "boundValues") (bound_values_json state.now))) }
    ensures err { OnErr result (Keeps out.old out.new) }
{
    list_member(alloc, out, "boundValues", state.bound_values())
}

fn choices_member(alloc: Global, out: &mut Writer, state: &State) -> Result<(), Memory>
    ensures put { OnOk result (Adds out.old out.new (member_tokens (codes "choices") (choices_json state.now))) }
    ensures err { OnErr result (Keeps out.old out.new) }
{
    list_member(alloc, out, "choices", state.choices())
}

fn put_min_time(out: &mut Writer, state: &State) -> Result<(), Memory>
    ensures put { OnOk result (Puts out.old out.new (number_json state.now.min_time)) }
    ensures err { OnErr result (Keeps out.old out.new) }
    ensures fits { time_fits state.now.min_time ≡ true }
{
    put_time(out, state.min_time())
}

/// Writes a state, the rows of each map in the order of their keys. A number that JSON doesn't have is a text of
/// its decimal digits; such a state isn't read again.
pub fn put_state(alloc: Global, out: &mut Writer, state: &State) -> Result<(), Memory>
    ensures put { OnOk result (Puts out.old out.new (state_json state.now)) }
    ensures err { OnErr result (Keeps out.old out.new) }
    ensures symbols { OnOk result (Each HasBytes (entries state.now.accounts)) }
    ensures time { OnOk result (time_fits state.now.min_time ≡ true) }
{
    out.begin_object()?;
    accounts_member(alloc, out, state)?;
    bound_values_member(alloc, out, state)?;
    choices_member(alloc, out, state)?;
    out.key("minTime")?;
    put_min_time(out, state)?;
    out.end_object()
}
