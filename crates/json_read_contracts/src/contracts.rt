//! Cases and contracts as JSON values.
ghost use Rattle.std.specs.Prelude.{codes};
ghost use Rattle.contract.specs.Collections.Answers.{Aside};
ghost use Rattle.json_read_names.specs.Parts.{list, nowhere, reading_at};
ghost use Rattle.json_read_names.specs.ReadsNames.{token};
ghost use Rattle.json_read_names.specs.declared.forms.ContractForm.TheVariants.{Pay, When};
ghost use Rattle.json_read_contracts.specs.ReadsContract as reads;
ghost use Rattle.json_read_contracts.specs.ReadsContract.{contract_by, contract_as};
ghost use Rattle.json_read_contracts.specs.ReadsSupport.{amount_and_token, account_and_payee, what_is_paid, timeout_and_then, contracts_at};

use contract::{Boxed, Case, Contract, Items, Party, Payee, Token, Value};
use json_read_names::{
    CaseForm, ContractForm, JsonFault, beside, case_form, contract_form, member, party_from_json,
    payee_from_json, read_text, read_time, token_from_json,
};
use json_read_values::{action_from_json, observation_from_json, value_from_json};
use json_tree::JsonValue;
use std::alloc::Global;

/// The contract that a JSON value stands for (Marlowe specification version 3, "Contracts"). A timeout is
/// in POSIX milliseconds.
#[cycle(contract_from_json)]
#[tactic(auto, using(crate::proofs::ContractSteps::contract_steps), unfolding(crate::specs::ReadsContract::contract_by))]
pub fn contract_from_json<J: JsonValue>(alloc: Global, json: &J) -> Result<Contract, JsonFault>
    ensures reading { Aside JsonFault.Memory result (reads.contract (J.json json.now)) }
{
    match contract_form(json) {
        ContractForm::Close => Ok(Contract::Close),
        ContractForm::Pay => pay_from_json(alloc, json),
        ContractForm::If => {
            let holds = observation_from_json(alloc, member(json, "if")?)?;
            let (holds, branches) = beside(holds, contracts_at(alloc, json, "then", "else"))?;
            let (then, otherwise) = branches;
            Ok(Contract::If(holds, then, otherwise))
        }
        ContractForm::When => when_from_json(alloc, json),
        ContractForm::Let => {
            let name = read_text(alloc, member(json, "let")?)?;
            let value = value_from_json(alloc, member(json, "be")?)?;
            let (value, then) = beside(value, contract_at(alloc, json, "then"))?;
            Ok(Contract::Let(name, value, then))
        }
        ContractForm::Assert => {
            let holds = observation_from_json(alloc, member(json, "assert")?)?;
            let (holds, then) = beside(holds, contract_at(alloc, json, "then"))?;
            Ok(Contract::Assert(holds, then))
        }
        ContractForm::Nothing => Err(JsonFault::NoForm),
    }
}

#[cycle(contract_from_json)]
#[tactic(auto, using(crate::proofs::ContractSteps::pay_steps))]
fn pay_from_json<J: JsonValue>(alloc: Global, json: &J) -> Result<Contract, JsonFault>
    ensures { Aside JsonFault.Memory result (contract_by Pay (J.json json.now) (reading_at reads.contract (J.json json.now)) nowhere) }
{
    let paid = what_is_paid(alloc, json)?;
    let (paid, then) = beside(paid, contract_at(alloc, json, "then"))?;
    let ((amount, token), (account, payee)) = paid;
    Ok(Contract::Pay(account, payee, token, amount, then))
}

// What a Pay takes, and from whom to whom.
fn what_is_paid<J: JsonValue>(
    alloc: Global,
    json: &J,
) -> Result<((Value, Token), (Party, Payee)), JsonFault>
    ensures { Aside JsonFault.Memory result (what_is_paid (J.json json.now)) }
{
    let amount = amount_and_token(alloc, json)?;
    beside(amount, account_and_payee(alloc, json))
}

// What a Pay takes.
fn amount_and_token<J: JsonValue>(alloc: Global, json: &J) -> Result<(Value, Token), JsonFault>
    ensures { Aside JsonFault.Memory result (amount_and_token (J.json json.now)) }
{
    let amount = value_from_json(alloc, member(json, "pay")?)?;
    beside(amount, token_at(alloc, json, "token"))
}

fn token_at<J: JsonValue>(alloc: Global, json: &J, key: &str) -> Result<Token, JsonFault>
    ensures { Aside JsonFault.Memory result (reading_at token (J.json json.now) key.now) }
{
    token_from_json(alloc, member(json, key)?)
}

// Where a Pay takes it from, and whom it gives it to.
fn account_and_payee<J: JsonValue>(alloc: Global, json: &J) -> Result<(Party, Payee), JsonFault>
    ensures { Aside JsonFault.Memory result (account_and_payee (J.json json.now)) }
{
    let account = party_from_json(alloc, member(json, "from_account")?)?;
    let payee = payee_from_json(alloc, member(json, "to")?)?;
    Ok((account, payee))
}

#[cycle(contract_from_json)]
#[tactic(auto, using(crate::proofs::ContractSteps::when_steps))]
fn when_from_json<J: JsonValue>(alloc: Global, json: &J) -> Result<Contract, JsonFault>
    ensures { Aside JsonFault.Memory result (contract_as When (J.json json.now)) }
{
    let cases = cases_from_json(alloc, member(json, "when")?)?;
    let (cases, rest) = beside(cases, timeout_and_then(alloc, json))?;
    let (timeout, then) = rest;
    Ok(Contract::When(cases, timeout, then))
}

// When a When times out, and how it then goes on.
#[cycle(contract_from_json)]
fn timeout_and_then<J: JsonValue>(
    alloc: Global,
    json: &J,
) -> Result<(i64, Boxed<Contract>), JsonFault>
    ensures { Aside JsonFault.Memory result (timeout_and_then (J.json json.now)) }
{
    let timeout = read_time(member(json, "timeout")?)?;
    let then = contract_at(alloc, json, "timeout_continuation")?;
    Ok((timeout, then))
}

// The two contracts that the members at two keys stand for, the first before the second.
#[cycle(contract_from_json)]
fn contracts_at<J: JsonValue>(
    alloc: Global,
    json: &J,
    a: &str,
    b: &str,
) -> Result<(Boxed<Contract>, Boxed<Contract>), JsonFault>
    ensures { Aside JsonFault.Memory result (contracts_at (J.json json.now) a.now b.now) }
{
    let first = contract_at(alloc, json, a)?;
    beside(first, contract_at(alloc, json, b))
}

// The contract that the member at a key stands for.
#[cycle(contract_from_json)]
fn contract_at<J: JsonValue>(
    alloc: Global,
    json: &J,
    key: &str,
) -> Result<Boxed<Contract>, JsonFault>
    ensures { Aside JsonFault.Memory result (reading_at reads.contract (J.json json.now) key.now) }
{
    let contract = contract_from_json(alloc, member(json, key)?)?;
    Ok(Boxed::new(alloc, contract)?)
}

/// The case that a JSON value stands for.
#[cycle(contract_from_json)]
#[tactic(auto, using(crate::proofs::ContractSteps::contract_steps), unfolding(crate::specs::ReadsContract::case_by))]
pub fn case_from_json<J: JsonValue>(alloc: Global, json: &J) -> Result<Case, JsonFault>
    ensures reading { Aside JsonFault.Memory result (reads.case (J.json json.now)) }
{
    match case_form(json) {
        CaseForm::Plain => {
            let action = action_from_json(alloc, member(json, "case")?)?;
            let (action, then) = beside(action, then_of_case(alloc, json))?;
            Ok(Case { action, then })
        }
        CaseForm::Merkleized => Err(JsonFault::Merkleized),
        CaseForm::Nothing => Err(JsonFault::NoForm),
    }
}

// The contract that a case is gone on with.
#[cycle(contract_from_json)]
fn then_of_case<J: JsonValue>(alloc: Global, json: &J) -> Result<Contract, JsonFault>
    ensures { Aside JsonFault.Memory result (reading_at reads.contract (J.json json.now) (codes "then")) }
{
    contract_from_json(alloc, member(json, "then")?)
}

#[cycle(contract_from_json)]
#[tactic(auto, using(json_read_names::proofs::DepthLaws::item_deeper))]
fn cases_from_json<J: JsonValue>(alloc: Global, json: &J) -> Result<Items<Case>, JsonFault>
    ensures { Aside JsonFault.Memory result (list reads.case (J.json json.now)) }
{
    let items = json.items().ok_or(JsonFault::NoForm)?;
    let mut cases = Items::new(alloc);
    for item in items {
        cases.push(case_from_json(alloc, item)?)?;
    }
    Ok(cases)
}
