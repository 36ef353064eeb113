//! The keys that are read of a JSON value.
ghost use Rattle.std.specs.Prelude.{◌≡◌, ◌&&◌, codes};
ghost use Rattle.contract.specs.Collections.Answers.{AsideBy};
ghost use Rattle.json_read_names.specs.Forms.{has_two};
ghost use Rattle.json_read_names.specs.Parts.{text, bytes, whole_number, time};
ghost use Rattle.json_stops.specs.FormsRead as read;

use crate::numbers::read_number;
use json_forms::{Form, Key, Numbers, Sort, fields_of};
use json_read_names::{
    ActionForm, CaseForm, ContractForm, InputForm, JsonFault, ObservationForm, ValueForm,
    action_form, case_form, contract_form, has, has_two, input_form, observation_form, read_bytes,
    read_time, read_whole, value_form,
};
use json_tree::JsonValue;
use std::alloc::Global;

/// How the parts of a value are found.
#[derive(Clone, Copy)]
pub(crate) enum Shape {
    // By the keys of its form; a text or a number has none.
    Itself,
    // As the items of a list, each of a sort.
    ListOf(Sort),
    // As the two items of a list of just two.
    PairOf(Sort, Sort),
}

/// How the parts of a value of a sort are found.
pub(crate) fn shape_of(sort: Sort) -> Shape
    ensures { result ≡ read.shape_of sort }
{
    match sort {
        Sort::Cases => Shape::ListOf(Sort::Case),
        Sort::Bounds => Shape::ListOf(Sort::Bound),
        Sort::Inputs => Shape::ListOf(Sort::Input),
        Sort::Accounts(numbers) => Shape::ListOf(Sort::AccountEntry(numbers)),
        Sort::AccountEntry(numbers) => Shape::PairOf(Sort::Account, Sort::Amount(numbers)),
        Sort::Account => Shape::PairOf(Sort::Party, Sort::Token),
        Sort::Choices(numbers) => Shape::ListOf(Sort::ChoiceEntry(numbers)),
        Sort::ChoiceEntry(numbers) => Shape::PairOf(Sort::ChoiceId, number_sort(numbers)),
        Sort::BoundValues(numbers) => Shape::ListOf(Sort::BoundEntry(numbers)),
        Sort::BoundEntry(numbers) => Shape::PairOf(Sort::Text, number_sort(numbers)),
        Sort::Amounts => Shape::ListOf(Sort::AmountEntry),
        Sort::AmountEntry => Shape::PairOf(Sort::Token, Sort::Amount(Numbers::Whole)),
        _ => Shape::Itself,
    }
}

fn number_sort(numbers: Numbers) -> Sort
    ensures { result ≡ read.number_sort numbers }
{
    match numbers {
        Numbers::Whole => Sort::Whole,
        Numbers::OrTexts => Sort::NumberOrText,
    }
}

/// The keys that are read of a value of a sort, in order, with what each value behind them is read as; or the fault of the value's
/// own form.
pub(crate) fn fields_read<J: JsonValue>(
    alloc: Global,
    sort: Sort,
    json: &J,
) -> Result<&'static [(Key, Sort)], JsonFault>
    ensures { AsideBy JsonFault.Memory (λ fields. fields.now) result (read.fields_read sort (J.json json.now)) }
{
    match sort {
        Sort::Contract => contract_fields(contract_form(json)),
        Sort::Case => case_fields(case_form(json)),
        Sort::Action => action_fields(action_form(json)),
        Sort::Value => value_fields(json),
        Sort::Observation => observation_fields(observation_form(json)),
        Sort::Bound => only_form(has_two(json, "from", "to"), Form::Bound),
        Sort::ChoiceId => only_form(has_two(json, "choice_name", "choice_owner"), Form::ChoiceId),
        Sort::Token => only_form(has_two(json, "currency_symbol", "token_name"), Form::Token),
        Sort::Party => either_form(has(json, "address"), Form::Address, Form::Role),
        Sort::Payee => either_form(has(json, "account"), Form::ToAccount, Form::ToParty),
        Sort::Text => text_fields(json),
        Sort::Hex => hex_fields(alloc, json),
        Sort::Whole => whole_fields(json),
        Sort::Time => time_fields(json),
        Sort::Transaction => only_form(
            has_two(json, "tx_interval", "tx_inputs"),
            Form::Transaction,
        ),
        Sort::Interval => only_form(has_two(json, "from", "to"), Form::Interval),
        Sort::Input => input_fields(input_form(json)),
        Sort::State(numbers) => only_form(has_state_keys(json), Form::State(numbers)),
        Sort::NumberOrText => number_fields(alloc, json, Numbers::OrTexts),
        Sort::Amount(numbers) => amount_fields(alloc, json, numbers),
        Sort::Repeated(_) => Err(JsonFault::BadState),
        Sort::Cases
        | Sort::Bounds
        | Sort::Inputs
        | Sort::Accounts(_)
        | Sort::AccountEntry(_)
        | Sort::Account
        | Sort::Choices(_)
        | Sort::ChoiceEntry(_)
        | Sort::BoundValues(_)
        | Sort::BoundEntry(_)
        | Sort::Amounts
        | Sort::AmountEntry => Ok(&[]),
        Sort::OfScenario(_) => Err(JsonFault::NoForm),
    }
}

fn has_state_keys<J: JsonValue>(json: &J) -> bool
    ensures { result ≡ (has_two (codes "accounts") (codes "choices") (J.json json.now)
        && has_two (codes "boundValues") (codes "minTime") (J.json json.now)) }
{
    has_two(json, "accounts", "choices") && has_two(json, "boundValues", "minTime")
}

fn contract_fields(form: ContractForm) -> Result<&'static [(Key, Sort)], JsonFault>
    ensures { AsideBy JsonFault.Memory (λ fields. fields.now) result (read.contract_fields form) }
{
    match form {
        ContractForm::Close => Ok(&[]),
        ContractForm::Pay => Ok(fields_of(Form::Pay)),
        ContractForm::If => Ok(fields_of(Form::If)),
        ContractForm::When => Ok(fields_of(Form::When)),
        ContractForm::Let => Ok(fields_of(Form::Let)),
        ContractForm::Assert => Ok(fields_of(Form::Assert)),
        ContractForm::Nothing => Err(JsonFault::NoForm),
    }
}

fn case_fields(form: CaseForm) -> Result<&'static [(Key, Sort)], JsonFault>
    ensures { AsideBy JsonFault.Memory (λ fields. fields.now) result (read.case_fields form) }
{
    match form {
        CaseForm::Plain => Ok(fields_of(Form::Case)),
        CaseForm::Merkleized => Err(JsonFault::Merkleized),
        CaseForm::Nothing => Err(JsonFault::NoForm),
    }
}

fn action_fields(form: ActionForm) -> Result<&'static [(Key, Sort)], JsonFault>
    ensures { AsideBy JsonFault.Memory (λ fields. fields.now) result (read.action_fields form) }
{
    match form {
        ActionForm::Deposit => Ok(fields_of(Form::Deposit)),
        ActionForm::Choice => Ok(fields_of(Form::Choice)),
        ActionForm::Notify => Ok(fields_of(Form::Notify)),
        ActionForm::Nothing => Err(JsonFault::NoForm),
    }
}

fn value_fields<J: JsonValue>(json: &J) -> Result<&'static [(Key, Sort)], JsonFault>
    ensures { AsideBy JsonFault.Memory (λ fields. fields.now) result (read.fields_read Sort.Value (J.json json.now)) }
{
    match value_form(json) {
        ValueForm::Constant => whole_fields(json),
        ValueForm::TimeIntervalStart | ValueForm::TimeIntervalEnd => Ok(&[]),
        ValueForm::AvailableMoney => Ok(fields_of(Form::AvailableMoney)),
        ValueForm::NegValue => Ok(fields_of(Form::NegValue)),
        ValueForm::AddValue => Ok(fields_of(Form::AddValue)),
        ValueForm::SubValue => Ok(fields_of(Form::SubValue)),
        ValueForm::MulValue => Ok(fields_of(Form::MulValue)),
        ValueForm::DivValue => Ok(fields_of(Form::DivValue)),
        ValueForm::ChoiceValue => Ok(fields_of(Form::ChoiceValue)),
        ValueForm::UseValue => Ok(fields_of(Form::UseValue)),
        ValueForm::Cond => Ok(fields_of(Form::Cond)),
        ValueForm::Nothing => Err(JsonFault::NoForm),
    }
}

fn observation_fields(form: ObservationForm) -> Result<&'static [(Key, Sort)], JsonFault>
    ensures { AsideBy JsonFault.Memory (λ fields. fields.now) result (read.observation_fields form) }
{
    match form {
        ObservationForm::TrueObs | ObservationForm::FalseObs => Ok(&[]),
        ObservationForm::AndObs => Ok(fields_of(Form::AndObs)),
        ObservationForm::OrObs => Ok(fields_of(Form::OrObs)),
        ObservationForm::NotObs => Ok(fields_of(Form::NotObs)),
        ObservationForm::ChoseSomething => Ok(fields_of(Form::ChoseSomething)),
        ObservationForm::ValueGE => Ok(fields_of(Form::ValueGE)),
        ObservationForm::ValueGT => Ok(fields_of(Form::ValueGT)),
        ObservationForm::ValueLT => Ok(fields_of(Form::ValueLT)),
        ObservationForm::ValueLE => Ok(fields_of(Form::ValueLE)),
        ObservationForm::ValueEQ => Ok(fields_of(Form::ValueEQ)),
        ObservationForm::Nothing => Err(JsonFault::NoForm),
    }
}

fn input_fields(form: InputForm) -> Result<&'static [(Key, Sort)], JsonFault>
    ensures { AsideBy JsonFault.Memory (λ fields. fields.now) result (read.input_fields form) }
{
    match form {
        InputForm::Notify => Ok(&[]),
        InputForm::Deposit => Ok(fields_of(Form::DepositInput)),
        InputForm::Choice => Ok(fields_of(Form::ChoiceInput)),
        InputForm::Nothing => Err(JsonFault::NoForm),
    }
}

// The only form of a sort, where its keys are there.
#[tactic(auto, unfolding(crate::specs::FormsRead::only_form))]
fn only_form(has_keys: bool, form: Form) -> Result<&'static [(Key, Sort)], JsonFault>
    ensures { AsideBy JsonFault.Memory (λ fields. fields.now) result (read.only_form has_keys form) }
{
    if has_keys {
        Ok(fields_of(form))
    } else {
        Err(JsonFault::NoForm)
    }
}

// The first form where its key is there, and else the second.
#[tactic(auto, unfolding(crate::specs::FormsRead::either_form))]
fn either_form(
    has_key: bool,
    first: Form,
    second: Form,
) -> Result<&'static [(Key, Sort)], JsonFault>
    ensures { AsideBy JsonFault.Memory (λ fields. fields.now) result (read.either_form has_key first second) }
{
    if has_key {
        Ok(fields_of(first))
    } else {
        Ok(fields_of(second))
    }
}

// ---- what has no keys

fn text_fields<J: JsonValue>(json: &J) -> Result<&'static [(Key, Sort)], JsonFault>
    ensures { AsideBy JsonFault.Memory (λ fields. fields.now) result (read.no_keys (text (J.json json.now))) }
{
    match json.text() {
        Some(_) => Ok(&[]),
        None => Err(JsonFault::NoForm),
    }
}

fn hex_fields<J: JsonValue>(alloc: Global, json: &J) -> Result<&'static [(Key, Sort)], JsonFault>
    ensures { AsideBy JsonFault.Memory (λ fields. fields.now) result (read.no_keys (bytes (J.json json.now))) }
{
    match read_bytes(alloc, json) {
        Ok(_) => Ok(&[]),
        Err(fault) => Err(fault),
    }
}

fn whole_fields<J: JsonValue>(json: &J) -> Result<&'static [(Key, Sort)], JsonFault>
    ensures { AsideBy JsonFault.Memory (λ fields. fields.now) result (read.no_keys (whole_number (J.json json.now))) }
{
    match read_whole(json) {
        Ok(_) => Ok(&[]),
        Err(fault) => Err(fault),
    }
}

fn time_fields<J: JsonValue>(json: &J) -> Result<&'static [(Key, Sort)], JsonFault>
    ensures { AsideBy JsonFault.Memory (λ fields. fields.now) result (read.no_keys (time (J.json json.now))) }
{
    match read_time(json) {
        Ok(_) => Ok(&[]),
        Err(fault) => Err(fault),
    }
}

fn number_fields<J: JsonValue>(
    alloc: Global,
    json: &J,
    numbers: Numbers,
) -> Result<&'static [(Key, Sort)], JsonFault>
    ensures { AsideBy JsonFault.Memory (λ fields. fields.now) result (read.no_keys (read.number numbers (J.json json.now))) }
{
    match read_number(alloc, json, numbers) {
        Ok(_) => Ok(&[]),
        Err(fault) => Err(fault),
    }
}

fn amount_fields<J: JsonValue>(
    alloc: Global,
    json: &J,
    numbers: Numbers,
) -> Result<&'static [(Key, Sort)], JsonFault>
    ensures { AsideBy JsonFault.Memory (λ fields. fields.now) result (read.no_keys (read.amount numbers (J.json json.now))) }
{
    match read_number(alloc, json, numbers) {
        Ok(number) => {
            if number > 0 {
                Ok(&[])
            } else {
                Err(JsonFault::BadState)
            }
        }
        Err(fault) => Err(fault),
    }
}
