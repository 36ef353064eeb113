//! What stands in a request.
ghost use Rattle.std.specs.Prelude.{◌≡◌, true, IfOk, option_map};
ghost use Rattle.contract.specs.Collections.Answers.{Aside, AsideBy};
ghost use Rattle.contract.specs.Tree.{contract_tree};
ghost use Rattle.json_tree.specs.View.{view};
ghost use Rattle.marlowe_run.specs.JsonWriteContracts.WrittenContract.{contract_fits};
ghost use Rattle.request_parts.specs.Parts.{contract_at, contract_given, input_at, name_of, party_at, party_if, state_at, time_at, token_at, transaction_at};
ghost use Rattle.request_parts.specs.Given.{given_contract};
ghost use Rattle.request_parts.specs.PartsSupport.{AllFit};

use crate::refusal::{Part, Refusal};
use contract::{Contract, Input, Party, State, Token, Transaction};
use definitions::Definitions;
use json_tree::{Json, JsonValue};
use marlowe_run::{
    ContractForm, JsonFault, RunFault, contract_form, contract_from_json, input_from_json,
    party_from_json, read_time, state_from_json, state_with_texts_from_json, token_from_json,
    transaction_from_json,
};
use std::alloc::Global;

/// A contract that a request speaks of.
pub enum Given<'d> {
    /// One that has a name.
    Named(&'d Contract),
    /// One that stands in the request.
    Read(Contract),
}

// dropped by a call
impl Drop for Given<'_> {
    fn drop(self) {
        match self {
            Given::Named(_) => {}
            Given::Read(contract) => drop(contract),
        }
    }
}

impl Given<'_> {
    pub fn contract(&self) -> &Contract
        ensures { result.now ≡ given_contract self.now }
    {
        match self {
            Given::Named(contract) => *contract,
            Given::Read(contract) => contract,
        }
    }
}

/// The contract at the key `contract`.
#[tactic(auto, using(crate::proofs::FitLaws::fit_steps))]
pub fn contract_at<'d>(
    alloc: Global,
    definitions: &'d Definitions,
    body: &Json<'_>,
) -> Result<Given<'d>, Refusal>
    requires { AllFit (view body.now) }
    ensures reading { AsideBy Refusal.Memory given_contract result (contract_at definitions.now (view body.now)) }
    ensures fits { IfOk result (λ given. contract_fits (contract_tree (given_contract given)) ≡ true) }
{
    match body.member("contract") {
        Some(json) => contract_given(alloc, definitions, json),
        None => Err(Refusal::from(RunFault::of_contract(JsonFault::NoForm))),
    }
}

// The contract that a value stands for, or whose name stands there.
#[tactic(auto, using(crate::proofs::FitLaws::fit_steps))]
fn contract_given<'d>(
    alloc: Global,
    definitions: &'d Definitions,
    json: &Json<'_>,
) -> Result<Given<'d>, Refusal>
    requires { AllFit (view json.now) }
    ensures reading { AsideBy Refusal.Memory given_contract result (contract_given definitions.now (view json.now)) }
    ensures fits { IfOk result (λ given. contract_fits (contract_tree (given_contract given)) ≡ true) }
{
    match name_of(json) {
        Some(name) => match definitions.contract(name) {
            Some(contract) => Ok(Given::Named(contract)),
            None => Err(Refusal::Undefined),
        },
        None => match contract_from_json(alloc, json) {
            Ok(contract) => Ok(Given::Read(contract)),
            Err(fault) => Err(Refusal::from(RunFault::of_contract(fault))),
        },
    }
}

/// The name in a value that has no form of a contract.
pub fn name_of<'j>(json: &'j Json<'_>) -> Option<&'j str>
    ensures { option_map (λ name. name.now) result ≡ name_of (view json.now) }
{
    match contract_form(json) {
        ContractForm::Nothing => match json.member("name") {
            Some(name) => name.text(),
            None => None,
        },
        _ => None,
    }
}

/// The state at the key `state`: without one it is the state without entries, at time 0.
pub fn state_at(alloc: Global, texts: bool, body: &Json<'_>) -> Result<State, Refusal>
    ensures { Aside Refusal.Memory result (state_at texts (view body.now)) }
{
    let Some(json) = body.member("state") else {
        return Ok(State::new(alloc, 0));
    };
    let state = if texts {
        state_with_texts_from_json(alloc, json)
    } else {
        state_from_json(alloc, json)
    };
    match state {
        Ok(state) => Ok(state),
        Err(fault) => Err(Refusal::from(RunFault::of_state(fault))),
    }
}

/// The transaction at the key `transaction`.
pub fn transaction_at(alloc: Global, body: &Json<'_>) -> Result<Transaction, Refusal>
    ensures { Aside Refusal.Memory result (transaction_at (view body.now)) }
{
    match body.member("transaction") {
        Some(json) => match transaction_from_json(alloc, json) {
            Ok(transaction) => Ok(transaction),
            Err(fault) => Err(Refusal::from(RunFault::of_transaction(fault))),
        },
        None => Err(Refusal::from(RunFault::of_transaction(JsonFault::NoForm))),
    }
}

/// A time at a key, if it is there. It is in POSIX milliseconds.
pub fn time_at(part: Part, key: &str, body: &Json<'_>) -> Result<Option<i64>, Refusal>
    ensures { Aside Refusal.Memory result (time_at part key.now (view body.now)) }
{
    match body.member(key) {
        Some(json) => match read_time(json) {
            Ok(time) => Ok(Some(time)),
            Err(fault) => Err(Refusal::of_part(part, fault)),
        },
        None => Ok(None),
    }
}

/// The input at the key `input`.
pub fn input_at(alloc: Global, body: &Json<'_>) -> Result<Input, Refusal>
    ensures { Aside Refusal.Memory result (input_at (view body.now)) }
{
    match body.member("input") {
        Some(json) => match input_from_json(alloc, json) {
            Ok(input) => Ok(input),
            Err(fault) => Err(Refusal::of_part(Part::Input, fault)),
        },
        None => Err(Refusal::of_part(Part::Input, JsonFault::NoForm)),
    }
}

/// The party at the key `party`.
pub fn party_at(alloc: Global, body: &Json<'_>) -> Result<Party, Refusal>
    ensures { Aside Refusal.Memory result (party_at (view body.now)) }
{
    match body.member("party") {
        Some(json) => match party_from_json(alloc, json) {
            Ok(party) => Ok(party),
            Err(fault) => Err(Refusal::of_part(Part::Party, fault)),
        },
        None => Err(Refusal::of_part(Part::Party, JsonFault::NoForm)),
    }
}

/// The party at the key `party`, if one is there.
pub fn party_if(alloc: Global, body: &Json<'_>) -> Result<Option<Party>, Refusal>
    ensures { Aside Refusal.Memory result (party_if (view body.now)) }
{
    match body.member("party") {
        Some(json) => match party_from_json(alloc, json) {
            Ok(party) => Ok(Some(party)),
            Err(fault) => Err(Refusal::of_part(Part::Party, fault)),
        },
        None => Ok(None),
    }
}

/// The token at the key `token`.
pub fn token_at(alloc: Global, body: &Json<'_>) -> Result<Token, Refusal>
    ensures { Aside Refusal.Memory result (token_at (view body.now)) }
{
    match body.member("token") {
        Some(json) => match token_from_json(alloc, json) {
            Ok(token) => Ok(token),
            Err(fault) => Err(Refusal::of_part(Part::Token, fault)),
        },
        None => Err(Refusal::of_part(Part::Token, JsonFault::NoForm)),
    }
}
