//! Cases and contracts.
//! Where a call fails, what was written before it stays, and behind it stand some tokens or none.
ghost use Rattle.std.specs.Prelude.{map, OnOk, OnErr};
ghost use Rattle.hex.specs.Hex.{IsBytes};
ghost use Rattle.contract.specs.Tree.{value_tree, observation_tree, case_tree, case_trees};
ghost use Rattle.contract.specs.Tree.{contract_tree, pay, when, let_be, assert};
ghost use Rattle.json_write_contracts.specs.Symbols.{ValueSymbols, ObservationSymbols, ContractSymbols, CaseSymbols, ListSymbols};
ghost use Rattle.json_write_contracts.specs.Tokens.{Keeps};
ghost use Rattle.json_write_contracts.specs.Puts.{PutsContract, PutsCase};
ghost use Rattle.json_write_contracts.specs.PutsSupport.{PutsCases, AddsContract, if_tree};

use crate::actions::put_action;
use crate::fault::WriteFault;
use crate::members::{begin_with, end_object, end_with_two, put_member, put_term};
use crate::name_forms::symbol_is_bytes;
use crate::numbers::is_time;
use crate::values::{put_observation, put_value};
use contract::{Boxed, Case, Contract, Items, Observation, Party, Payee, Text, Token, Value};
use json::Writer;
use std::alloc::Global;

/// Writes a contract: compact, with each object's keys in the order of their bytes. A number in it that doesn't lie
/// from -2^63 to 2^64 - 1 is out of range.
#[cycle(put_contract)]
pub fn put_contract(alloc: Global, out: &mut Writer, contract: &Contract) -> Result<(), WriteFault>
    ensures put { PutsContract result out.old out.new (contract_tree contract.now) }
    ensures err { OnErr result (Keeps out.old out.new) }
    ensures symbols { OnOk result (ContractSymbols (contract_tree contract.now)) }
{
    match contract {
        Contract::Close => put_term(alloc, out, &"close"),
        Contract::Pay(from, to, token, pay, then) => put_pay(
            alloc, out, from, to, token, pay, then,
        ),
        Contract::If(condition, then, otherwise) => put_if(alloc, out, condition, then, otherwise),
        Contract::When(cases, timeout, then) => put_when(alloc, out, cases, timeout, then),
        Contract::Let(name, value, then) => put_let(alloc, out, name, value, then),
        Contract::Assert(condition, then) => put_assert(alloc, out, condition, then),
    }
}

#[cycle(put_contract)]
fn put_pay(
    alloc: Global,
    out: &mut Writer,
    from: &Party,
    to: &Payee,
    token: &Token,
    value: &Value,
    then: &Boxed<Contract>,
) -> Result<(), WriteFault>
    ensures put { PutsContract result out.old out.new (pay from.now to.now token.now (value_tree value.now) (contract_tree then.now)) }
    ensures err { OnErr result (Keeps out.old out.new) }
    ensures token_symbol { OnOk result (IsBytes token.now.symbol) }
    ensures value_symbols { OnOk result (ValueSymbols (value_tree value.now)) }
    ensures then_symbols { OnOk result (ContractSymbols (contract_tree then.now)) }
{
    // touch: the symbol is bytes
    symbol_is_bytes(token);
    begin_with(alloc, out, "from_account", from)?;
    out.key("pay")?;
    put_value(alloc, out, value)?;
    contract_member(alloc, out, "then", then)?;
    Ok(end_with_two(alloc, out, "to", to, "token", token)?)
}

#[cycle(put_contract)]
fn put_if(
    alloc: Global,
    out: &mut Writer,
    condition: &Observation,
    then: &Boxed<Contract>,
    otherwise: &Boxed<Contract>,
) -> Result<(), WriteFault>
    ensures put { PutsContract result out.old out.new (if_tree condition.now then.now otherwise.now) }
    ensures err { OnErr result (Keeps out.old out.new) }
    ensures condition_symbols { OnOk result (ObservationSymbols (observation_tree condition.now)) }
    ensures then_symbols { OnOk result (ContractSymbols (contract_tree then.now)) }
    ensures otherwise_symbols { OnOk result (ContractSymbols (contract_tree otherwise.now)) }
{
    out.begin_object()?;
    contract_member(alloc, out, "else", otherwise)?;
    out.key("if")?;
    put_observation(alloc, out, condition)?;
    contract_member(alloc, out, "then", then)?;
    end_object(out)
}

#[cycle(put_contract)]
fn put_when(
    alloc: Global,
    out: &mut Writer,
    cases: &Items<Case>,
    timeout: &i64,
    then: &Boxed<Contract>,
) -> Result<(), WriteFault>
    ensures put { PutsContract result out.old out.new (when (case_trees (map case_tree cases.now)) timeout.now (contract_tree then.now)) }
    ensures err { OnErr result (Keeps out.old out.new) }
    ensures case_symbols { OnOk result (ListSymbols (map (λ k. case_tree k) cases.now)) }
    ensures then_symbols { OnOk result (ContractSymbols (contract_tree then.now)) }
{
    // touch: a time fits
    is_time(*timeout);
    begin_with(alloc, out, "timeout", timeout)?;
    contract_member(alloc, out, "timeout_continuation", then)?;
    out.key("when")?;
    put_cases(alloc, out, cases)?;
    end_object(out)
}

#[cycle(put_contract)]
fn put_let(
    alloc: Global,
    out: &mut Writer,
    name: &Text,
    value: &Value,
    then: &Boxed<Contract>,
) -> Result<(), WriteFault>
    ensures put { PutsContract result out.old out.new (let_be name.now (value_tree value.now) (contract_tree then.now)) }
    ensures err { OnErr result (Keeps out.old out.new) }
    ensures value_symbols { OnOk result (ValueSymbols (value_tree value.now)) }
    ensures then_symbols { OnOk result (ContractSymbols (contract_tree then.now)) }
{
    out.begin_object()?;
    out.key("be")?;
    put_value(alloc, out, value)?;
    put_member(alloc, out, "let", name)?;
    contract_member(alloc, out, "then", then)?;
    end_object(out)
}

#[cycle(put_contract)]
fn put_assert(
    alloc: Global,
    out: &mut Writer,
    condition: &Observation,
    then: &Boxed<Contract>,
) -> Result<(), WriteFault>
    ensures put { PutsContract result out.old out.new (assert (observation_tree condition.now) (contract_tree then.now)) }
    ensures err { OnErr result (Keeps out.old out.new) }
    ensures condition_symbols { OnOk result (ObservationSymbols (observation_tree condition.now)) }
    ensures then_symbols { OnOk result (ContractSymbols (contract_tree then.now)) }
{
    out.begin_object()?;
    out.key("assert")?;
    put_observation(alloc, out, condition)?;
    contract_member(alloc, out, "then", then)?;
    end_object(out)
}

/// Writes a case: its action, and the contract that is gone on with.
#[cycle(put_contract)]
pub fn put_case(alloc: Global, out: &mut Writer, case: &Case) -> Result<(), WriteFault>
    ensures put { PutsCase result out.old out.new (case_tree case.now) }
    ensures err { OnErr result (Keeps out.old out.new) }
    ensures symbols { OnOk result (CaseSymbols (case_tree case.now)) }
{
    out.begin_object()?;
    out.key("case")?;
    put_action(alloc, out, &case.action)?;
    out.key("then")?;
    put_contract(alloc, out, &case.then)?;
    end_object(out)
}

#[cycle(put_contract)]
fn put_cases(alloc: Global, out: &mut Writer, cases: &Items<Case>) -> Result<(), WriteFault>
    ensures put { PutsCases result out.old out.new (case_trees (map case_tree cases.now)) }
    ensures err { OnErr result (Keeps out.old out.new) }
    ensures symbols { OnOk result (ListSymbols (map (λ k. case_tree k) cases.now)) }
{
    out.begin_array()?;
    for case in cases.as_slice() {
        put_case(alloc, out, case)?;
    }
    out.end_array()?;
    Ok(())
}

// A member that is a contract.
#[cycle(put_contract)]
fn contract_member(
    alloc: Global,
    out: &mut Writer,
    key: &str,
    contract: &Boxed<Contract>,
) -> Result<(), WriteFault>
    ensures put { AddsContract result out.old out.new key.now (contract_tree contract.now) }
    ensures err { OnErr result (Keeps out.old out.new) }
    ensures symbols { OnOk result (ContractSymbols (contract_tree contract.now)) }
{
    out.key(key)?;
    put_contract(alloc, out, contract.get())
}
