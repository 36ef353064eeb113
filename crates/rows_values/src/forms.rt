//! The sorts of values that have a form in JSON. Nothing else here knows by which tree JSON is read.
use contract::{
    Action, Bound, Case, ChoiceId, Contract, Input, Observation, Party, Payee, State, Token, Value,
};
use marlowe_run::{
    JsonFault, PutJson, Transaction, WriteFault, action_from_json, bound_from_json, case_from_json,
    choice_id_from_json, contract_from_json, input_from_json, observation_from_json,
    party_from_json, payee_from_json, state_from_json, to_json, token_from_json,
    transaction_from_json, value_from_json,
};
use serde_json::Value as Json;
use std::alloc::Global;

/// A sort of values that is read from JSON and written as JSON.
pub trait Form: PutJson + Sized + Drop {
    fn from_json(alloc: Global, json: &Json) -> Result<Self, JsonFault>;
}

/// The value that a text stands for.
pub fn form_of<T: Form>(alloc: Global, text: &[u8]) -> Result<T, JsonFault> {
    T::from_json(alloc, &json_of(alloc, text)?)
}

/// The text of a value.
pub fn text_of<T: Form>(alloc: Global, thing: &T) -> Result<Vec<u8>, WriteFault> {
    let json = to_json(alloc, thing)?;
    Ok(json.to_vec(alloc)?)
}

// The JSON of a text.
fn json_of(alloc: Global, text: &[u8]) -> Result<Json, JsonFault> {
    Json::from_slice(alloc, text).map_err(|error| {
        if error.is_memory() {
            JsonFault::Memory
        } else {
            JsonFault::NotJson
        }
    })
}

impl Form for Contract {
    fn from_json(alloc: Global, json: &Json) -> Result<Contract, JsonFault> {
        contract_from_json(alloc, json)
    }
}

impl Form for Input {
    fn from_json(alloc: Global, json: &Json) -> Result<Input, JsonFault> {
        input_from_json(alloc, json)
    }
}

impl Form for Transaction {
    fn from_json(alloc: Global, json: &Json) -> Result<Transaction, JsonFault> {
        transaction_from_json(alloc, json)
    }
}

impl Form for State {
    fn from_json(alloc: Global, json: &Json) -> Result<State, JsonFault> {
        state_from_json(alloc, json)
    }
}

impl Form for Value {
    fn from_json(alloc: Global, json: &Json) -> Result<Value, JsonFault> {
        value_from_json(alloc, json)
    }
}

impl Form for Observation {
    fn from_json(alloc: Global, json: &Json) -> Result<Observation, JsonFault> {
        observation_from_json(alloc, json)
    }
}

impl Form for Action {
    fn from_json(alloc: Global, json: &Json) -> Result<Action, JsonFault> {
        action_from_json(alloc, json)
    }
}

impl Form for Case {
    fn from_json(alloc: Global, json: &Json) -> Result<Case, JsonFault> {
        case_from_json(alloc, json)
    }
}

impl Form for Party {
    fn from_json(alloc: Global, json: &Json) -> Result<Party, JsonFault> {
        party_from_json(alloc, json)
    }
}

impl Form for Token {
    fn from_json(alloc: Global, json: &Json) -> Result<Token, JsonFault> {
        token_from_json(alloc, json)
    }
}

impl Form for ChoiceId {
    fn from_json(alloc: Global, json: &Json) -> Result<ChoiceId, JsonFault> {
        choice_id_from_json(alloc, json)
    }
}

impl Form for Payee {
    fn from_json(alloc: Global, json: &Json) -> Result<Payee, JsonFault> {
        payee_from_json(alloc, json)
    }
}

impl Form for Bound {
    fn from_json(_alloc: Global, json: &Json) -> Result<Bound, JsonFault> {
        bound_from_json(json)
    }
}
