//! Which form a JSON value has: the first of its sort whose keys are all there.
ghost use Rattle.std.specs.Prelude.{◌≡◌};
ghost use Rattle.json_read_names.specs.Forms.{value_form, observation_form, contract_form, case_form, action_form, input_form};

use crate::look::{has, has_three, has_two, is_number, is_word};
use json_tree::JsonValue;

/// The forms of values, in the order in which they are sought.
#[derive(Clone, Copy, Debug)]
pub enum ValueForm {
    Constant,
    TimeIntervalStart,
    TimeIntervalEnd,
    AvailableMoney,
    NegValue,
    AddValue,
    SubValue,
    MulValue,
    DivValue,
    ChoiceValue,
    UseValue,
    Cond,
    Nothing,
}

/// The first form of a value whose keys are all there.
#[tactic(auto, unfolding(crate::specs::Forms::value_form))]
pub fn value_form<J: JsonValue>(json: &J) -> ValueForm
    ensures { result ≡ value_form (J.json json.now) }
{
    if is_number(json) {
        ValueForm::Constant
    } else if is_word(json, "time_interval_start") {
        ValueForm::TimeIntervalStart
    } else if is_word(json, "time_interval_end") {
        ValueForm::TimeIntervalEnd
    } else if has_two(json, "amount_of_token", "in_account") {
        ValueForm::AvailableMoney
    } else if has(json, "negate") {
        ValueForm::NegValue
    } else if has_two(json, "add", "and") {
        ValueForm::AddValue
    } else if has_two(json, "value", "minus") {
        ValueForm::SubValue
    } else if has_two(json, "multiply", "times") {
        ValueForm::MulValue
    } else if has_two(json, "divide", "by") {
        ValueForm::DivValue
    } else if has(json, "value_of_choice") {
        ValueForm::ChoiceValue
    } else if has(json, "use_value") {
        ValueForm::UseValue
    } else if has_three(json, "if", "then", "else") {
        ValueForm::Cond
    } else {
        ValueForm::Nothing
    }
}

/// The forms of observations, in the order in which they are sought.
#[derive(Clone, Copy, Debug)]
pub enum ObservationForm {
    TrueObs,
    FalseObs,
    AndObs,
    OrObs,
    NotObs,
    ChoseSomething,
    ValueGE,
    ValueGT,
    ValueLT,
    ValueLE,
    ValueEQ,
    Nothing,
}

/// The first form of an observation whose keys are all there.
#[tactic(auto, unfolding(crate::specs::Forms::observation_form))]
pub fn observation_form<J: JsonValue>(json: &J) -> ObservationForm
    ensures { result ≡ observation_form (J.json json.now) }
{
    match json.truth() {
        Some(true) => ObservationForm::TrueObs,
        Some(false) => ObservationForm::FalseObs,
        None => {
            if has_two(json, "both", "and") {
                ObservationForm::AndObs
            } else if has_two(json, "either", "or") {
                ObservationForm::OrObs
            } else if has(json, "not") {
                ObservationForm::NotObs
            } else if has(json, "chose_something_for") {
                ObservationForm::ChoseSomething
            } else if has_two(json, "value", "ge_than") {
                ObservationForm::ValueGE
            } else if has_two(json, "value", "gt") {
                ObservationForm::ValueGT
            } else if has_two(json, "value", "lt") {
                ObservationForm::ValueLT
            } else if has_two(json, "value", "le_than") {
                ObservationForm::ValueLE
            } else if has_two(json, "value", "equal_to") {
                ObservationForm::ValueEQ
            } else {
                ObservationForm::Nothing
            }
        }
    }
}

/// The forms of contracts, in the order in which they are sought.
#[derive(Clone, Copy, Debug)]
pub enum ContractForm {
    Close,
    Pay,
    If,
    When,
    Let,
    Assert,
    Nothing,
}

/// The first form of a contract whose keys are all there.
#[tactic(auto, unfolding(crate::specs::Forms::contract_form))]
pub fn contract_form<J: JsonValue>(json: &J) -> ContractForm
    ensures { result ≡ contract_form (J.json json.now) }
{
    if is_word(json, "close") {
        ContractForm::Close
    } else if has_two(json, "pay", "token") && has_three(json, "from_account", "to", "then") {
        ContractForm::Pay
    } else if has_three(json, "if", "then", "else") {
        ContractForm::If
    } else if has_three(json, "when", "timeout", "timeout_continuation") {
        ContractForm::When
    } else if has_three(json, "let", "be", "then") {
        ContractForm::Let
    } else if has_two(json, "assert", "then") {
        ContractForm::Assert
    } else {
        ContractForm::Nothing
    }
}

/// The forms of cases, in the order in which they are sought.
#[derive(Clone, Copy, Debug)]
pub enum CaseForm {
    Plain,
    Merkleized,
    Nothing,
}

/// The first form of a case whose keys are all there.
#[tactic(auto, unfolding(crate::specs::Forms::case_form))]
pub fn case_form<J: JsonValue>(json: &J) -> CaseForm
    ensures { result ≡ case_form (J.json json.now) }
{
    if has_two(json, "case", "then") {
        CaseForm::Plain
    } else if has_two(json, "case", "merkleized_then") {
        CaseForm::Merkleized
    } else {
        CaseForm::Nothing
    }
}

/// The forms of actions, in the order in which they are sought.
#[derive(Clone, Copy, Debug)]
pub enum ActionForm {
    Deposit,
    Choice,
    Notify,
    Nothing,
}

/// The first form of an action whose keys are all there.
#[tactic(auto, unfolding(crate::specs::Forms::action_form))]
pub fn action_form<J: JsonValue>(json: &J) -> ActionForm
    ensures { result ≡ action_form (J.json json.now) }
{
    if has_two(json, "party", "deposits") && has_two(json, "of_token", "into_account") {
        ActionForm::Deposit
    } else if has_two(json, "for_choice", "choose_between") {
        ActionForm::Choice
    } else if has(json, "notify_if") {
        ActionForm::Notify
    } else {
        ActionForm::Nothing
    }
}

/// The forms of inputs, in the order in which they are sought.
#[derive(Clone, Copy, Debug)]
pub enum InputForm {
    Notify,
    Deposit,
    Choice,
    Nothing,
}

/// The first form of an input whose keys are all there.
#[tactic(auto, unfolding(crate::specs::Forms::input_form))]
pub fn input_form<J: JsonValue>(json: &J) -> InputForm
    ensures { result ≡ input_form (J.json json.now) }
{
    if is_word(json, "input_notify") {
        InputForm::Notify
    } else if has_two(json, "input_from_party", "that_deposits")
        && has_two(json, "of_token", "into_account")
    {
        InputForm::Deposit
    } else if has_two(json, "for_choice_id", "input_that_chooses_num") {
        InputForm::Choice
    } else {
        InputForm::Nothing
    }
}
