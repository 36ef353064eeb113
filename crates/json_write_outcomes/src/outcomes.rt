//! Outcomes.
//! Where a call fails, what was written before it stays, and behind it stand some tokens or none.
ghost use Rattle.std.specs.Prelude.{◌≡◌, true, codes, OnOk, OnErr};
ghost use Rattle.contract.specs.Tree.{contract_tree};
ghost use Rattle.json_write_contracts.specs.Members.{member_tokens, Ends};
ghost use Rattle.json_write_contracts.specs.Tokens.{Adds, Keeps, PutsFitting};
ghost use Rattle.json_write_contracts.specs.WrittenNames.{time_fits};
ghost use Rattle.json_write_contracts.specs.WrittenContract.{contract_fits};
ghost use Rattle.json_write_outcomes.specs.WrittenOutcome.{payments_json, warnings_json, behind_contract, outcome_json};

use crate::lists::list_member;
use crate::state_forms::put_state;
use contract::{Contract, Items, Memory, Outcome, Payment, State, Warning};
use json::Writer;
use json_write_contracts::{WriteFault, put_contract};
use std::alloc::Global;

fn payments_member(alloc: Global, out: &mut Writer, payments: &Items<Payment>) -> Result<(), Memory>
    ensures put { OnOk result (Adds out.old out.new (member_tokens (codes "payments") (payments_json payments.now))) }
    ensures err { OnErr result (Keeps out.old out.new) }
{
    list_member(alloc, out, "payments", payments.as_slice())
}

fn warnings_member(alloc: Global, out: &mut Writer, warnings: &Items<Warning>) -> Result<(), Memory>
    ensures put { OnOk result (Adds out.old out.new (member_tokens (codes "warnings") (warnings_json warnings.now))) }
    ensures err { OnErr result (Keeps out.old out.new) }
{
    list_member(alloc, out, "warnings", warnings.as_slice())
}

// What stands behind the contract, and the object's end.
fn end_outcome(
    alloc: Global,
    out: &mut Writer,
    payments: &Items<Payment>,
    state: &State,
    warnings: &Items<Warning>,
) -> Result<(), Memory>
    ensures put { OnOk result (Ends out.old out.new (behind_contract payments.now state.now warnings.now)) }
    ensures err { OnErr result (Keeps out.old out.new) }
    ensures time { OnOk result (time_fits state.now.min_time ≡ true) }
{
    payments_member(alloc, out, payments)?;
    out.key("state")?;
    put_state(alloc, out, state)?;
    warnings_member(alloc, out, warnings)?;
    out.end_object()
}

/// Writes an outcome: the contract that remains, the payments and the warnings in order, and the state. A number
/// of the contract that doesn't lie from -2^63 to 2^64 - 1 is out of range; elsewhere such a number is a text of
/// its decimal digits.
pub fn put_outcome(
    alloc: Global,
    out: &mut Writer,
    outcome: &Outcome<&Contract>,
) -> Result<(), WriteFault>
    ensures put { PutsFitting result out.old out.new (contract_fits (contract_tree outcome.now.place.now))
        (outcome_json outcome.now.warnings outcome.now.payments outcome.now.state (contract_tree outcome.now.place.now)) }
    ensures err { OnErr result (Keeps out.old out.new) }
    ensures time { OnOk result (time_fits outcome.now.state.min_time ≡ true) }
{
    out.begin_object()?;
    out.key("contract")?;
    put_contract(alloc, out, outcome.place)?;
    Ok(end_outcome(
        alloc,
        out,
        &outcome.payments,
        &outcome.state,
        &outcome.warnings,
    )?)
}
