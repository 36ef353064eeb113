//! What all readers of JSON share: the faults, the forms, and the readings of numbers and names.
#![tactic(auto)]

mod fault;
mod forms;
mod look;
mod name_forms;
mod numbers;
mod texts;

pub use fault::JsonFault;
pub use forms::{
    ActionForm, CaseForm, ContractForm, InputForm, ObservationForm, ValueForm, action_form,
    case_form, contract_form, input_form, observation_form, value_form,
};
pub use look::{
    beside, has, has_three, has_two, is_number, is_word, member, pair, read_bytes, read_text,
};
pub use name_forms::{
    bound_from_json, choice_id_from_json, party_from_json, payee_from_json, token_from_json,
};
pub use numbers::{read_time, read_whole};
pub use texts::{json_of, json_within};
