//! The forms of each sort, and their fields.
ghost use Rattle.std.specs.Prelude.{◌≡◌};
ghost use Rattle.json_forms.specs.Forms.{fields_of, forms_of, more_of, scenario_forms};

use crate::key::Key;
use crate::sort::{NamedSort, Numbers, ScenarioSort, Sort};

/// A form of a sort that is an object: it has some keys, in order. A sort may also have words and numbers, which are none.
#[derive(Clone, Copy, Debug)]
pub enum Form {
    /// A Pay.
    Pay,
    /// An If.
    If,
    /// A When.
    When,
    /// A Let.
    Let,
    /// An Assert.
    Assert,
    /// A case that has its contract.
    Case,
    /// A deposit that a case waits for.
    Deposit,
    /// A choice that a case waits for.
    Choice,
    /// A notification that a case waits for.
    Notify,
    /// What an account has.
    AvailableMoney,
    /// A negation.
    NegValue,
    /// A sum.
    AddValue,
    /// A difference.
    SubValue,
    /// A product.
    MulValue,
    /// A quotient.
    DivValue,
    /// The number of a choice.
    ChoiceValue,
    /// The number of a name.
    UseValue,
    /// A value by an observation.
    Cond,
    /// Both observations.
    AndObs,
    /// One of two observations.
    OrObs,
    /// The contrary of an observation.
    NotObs,
    /// Whether a choice was made.
    ChoseSomething,
    /// Not below.
    ValueGE,
    /// Above.
    ValueGT,
    /// Below.
    ValueLT,
    /// Not above.
    ValueLE,
    /// The same number.
    ValueEQ,
    /// A bound of a choice.
    Bound,
    /// The name of a choice and its owner.
    ChoiceId,
    /// A token.
    Token,
    /// A party by its address.
    Address,
    /// A party by its role.
    Role,
    /// A payee inside the contract.
    ToAccount,
    /// A payee outside.
    ToParty,
    /// A transaction.
    Transaction,
    /// The interval of a transaction.
    Interval,
    /// A deposit as an input.
    DepositInput,
    /// A choice as an input.
    ChoiceInput,
    /// A state.
    State(Numbers),
    /// A scenario.
    Scenario,
    /// What an address has when the ledger begins.
    Funds,
    /// A contract and its name.
    NamedContract,
    /// A thread.
    NamedThread,
    /// A plan.
    Plan,
    /// A step as an intent.
    Step,
    /// Several steps as an intent.
    Steps,
    /// A claim as an intent.
    Claim,
    /// A round as an intent.
    Round,
    /// An advance as an intent.
    Advance,
    /// One of several steps.
    OneStep,
}

/// The forms of a sort that are objects, in the order in which they are sought.
pub fn forms_of(sort: Sort) -> &'static [Form]
    ensures { result.now ≡ forms_of sort }
{
    match sort {
        Sort::Contract => &[Form::Pay, Form::If, Form::When, Form::Let, Form::Assert],
        Sort::Case => &[Form::Case],
        Sort::Action => &[Form::Deposit, Form::Choice, Form::Notify],
        Sort::Value => &[
            Form::AvailableMoney,
            Form::NegValue,
            Form::AddValue,
            Form::SubValue,
            Form::MulValue,
            Form::DivValue,
            Form::ChoiceValue,
            Form::UseValue,
            Form::Cond,
        ],
        Sort::Observation => &[
            Form::AndObs,
            Form::OrObs,
            Form::NotObs,
            Form::ChoseSomething,
            Form::ValueGE,
            Form::ValueGT,
            Form::ValueLT,
            Form::ValueLE,
            Form::ValueEQ,
        ],
        Sort::Bound => &[Form::Bound],
        Sort::ChoiceId => &[Form::ChoiceId],
        Sort::Token => &[Form::Token],
        Sort::Party => &[Form::Address, Form::Role],
        Sort::Payee => &[Form::ToAccount, Form::ToParty],
        Sort::Transaction => &[Form::Transaction],
        Sort::Interval => &[Form::Interval],
        Sort::Input => &[Form::DepositInput, Form::ChoiceInput],
        Sort::State(Numbers::Whole) => &[Form::State(Numbers::Whole)],
        Sort::State(Numbers::OrTexts) => &[Form::State(Numbers::OrTexts)],
        Sort::Cases
        | Sort::Bounds
        | Sort::Text
        | Sort::Hex
        | Sort::Whole
        | Sort::Time
        | Sort::Inputs
        | Sort::Accounts(_)
        | Sort::AccountEntry(_)
        | Sort::Account
        | Sort::Choices(_)
        | Sort::ChoiceEntry(_)
        | Sort::BoundValues(_)
        | Sort::BoundEntry(_)
        | Sort::NumberOrText
        | Sort::Amount(_)
        | Sort::Repeated(_)
        | Sort::Amounts
        | Sort::AmountEntry => &[],
        Sort::OfScenario(part) => scenario_forms(part),
    }
}

// The forms of a part that only a scenario has.
fn scenario_forms(part: ScenarioSort) -> &'static [Form]
    ensures { result.now ≡ scenario_forms part }
{
    match part {
        ScenarioSort::Scenario => &[Form::Scenario],
        ScenarioSort::Funds => &[Form::Funds],
        ScenarioSort::NamedContract => &[Form::NamedContract],
        ScenarioSort::NamedThread => &[Form::NamedThread],
        ScenarioSort::Plan => &[Form::Plan],
        ScenarioSort::Intent => &[
            Form::Step,
            Form::Steps,
            Form::Claim,
            Form::Round,
            Form::Advance,
        ],
        ScenarioSort::OneStep => &[Form::OneStep],
        _ => &[],
    }
}

/// The keys of a form, in the order in which they are read, each with what its value is read as.
pub fn fields_of(form: Form) -> &'static [(Key, Sort)]
    ensures { result.now ≡ fields_of form }
{
    match form {
        Form::Pay => &[
            (Key::Pay, Sort::Value),
            (Key::Token, Sort::Token),
            (Key::FromAccount, Sort::Party),
            (Key::To, Sort::Payee),
            (Key::Then, Sort::Contract),
        ],
        Form::If => &[
            (Key::If, Sort::Observation),
            (Key::Then, Sort::Contract),
            (Key::Else, Sort::Contract),
        ],
        Form::When => &[
            (Key::When, Sort::Cases),
            (Key::Timeout, Sort::Time),
            (Key::TimeoutContinuation, Sort::Contract),
        ],
        Form::Let => &[
            (Key::Let, Sort::Text),
            (Key::Be, Sort::Value),
            (Key::Then, Sort::Contract),
        ],
        Form::Assert => &[
            (Key::Assert, Sort::Observation),
            (Key::Then, Sort::Contract),
        ],
        Form::Case => &[(Key::Case, Sort::Action), (Key::Then, Sort::Contract)],
        Form::Deposit => &[
            (Key::Party, Sort::Party),
            (Key::Deposits, Sort::Value),
            (Key::OfToken, Sort::Token),
            (Key::IntoAccount, Sort::Party),
        ],
        Form::Choice => &[
            (Key::ForChoice, Sort::ChoiceId),
            (Key::ChooseBetween, Sort::Bounds),
        ],
        Form::Notify => &[(Key::NotifyIf, Sort::Observation)],
        Form::AvailableMoney => &[
            (Key::AmountOfToken, Sort::Token),
            (Key::InAccount, Sort::Party),
        ],
        Form::NegValue => &[(Key::Negate, Sort::Value)],
        Form::AddValue => &[(Key::Add, Sort::Value), (Key::And, Sort::Value)],
        Form::SubValue => &[(Key::Value, Sort::Value), (Key::Minus, Sort::Value)],
        Form::MulValue => &[(Key::Multiply, Sort::Value), (Key::Times, Sort::Value)],
        Form::DivValue => &[(Key::Divide, Sort::Value), (Key::By, Sort::Value)],
        Form::ChoiceValue => &[(Key::ValueOfChoice, Sort::ChoiceId)],
        Form::UseValue => &[(Key::UseValue, Sort::Text)],
        Form::Cond => &[
            (Key::If, Sort::Observation),
            (Key::Then, Sort::Value),
            (Key::Else, Sort::Value),
        ],
        Form::AndObs => &[
            (Key::Both, Sort::Observation),
            (Key::And, Sort::Observation),
        ],
        Form::OrObs => &[
            (Key::Either, Sort::Observation),
            (Key::Or, Sort::Observation),
        ],
        Form::NotObs => &[(Key::Not, Sort::Observation)],
        Form::ChoseSomething => &[(Key::ChoseSomethingFor, Sort::ChoiceId)],
        Form::ValueGE => &[(Key::Value, Sort::Value), (Key::GeThan, Sort::Value)],
        Form::ValueGT => &[(Key::Value, Sort::Value), (Key::Gt, Sort::Value)],
        Form::ValueLT => &[(Key::Value, Sort::Value), (Key::Lt, Sort::Value)],
        Form::ValueLE => &[(Key::Value, Sort::Value), (Key::LeThan, Sort::Value)],
        Form::ValueEQ => &[(Key::Value, Sort::Value), (Key::EqualTo, Sort::Value)],
        Form::Bound => &[(Key::From, Sort::Whole), (Key::To, Sort::Whole)],
        Form::ChoiceId => &[
            (Key::ChoiceName, Sort::Text),
            (Key::ChoiceOwner, Sort::Party),
        ],
        Form::Token => &[
            (Key::CurrencySymbol, Sort::Hex),
            (Key::TokenName, Sort::Text),
        ],
        Form::Address => &[(Key::Address, Sort::Text)],
        Form::Role => &[(Key::RoleToken, Sort::Text)],
        Form::ToAccount => &[(Key::Account, Sort::Party)],
        Form::ToParty => &[(Key::Party, Sort::Party)],
        Form::Transaction => &[
            (Key::TxInterval, Sort::Interval),
            (Key::TxInputs, Sort::Inputs),
        ],
        Form::Interval => &[(Key::From, Sort::Time), (Key::To, Sort::Time)],
        Form::DepositInput => &[
            (Key::InputFromParty, Sort::Party),
            (Key::ThatDeposits, Sort::Whole),
            (Key::OfToken, Sort::Token),
            (Key::IntoAccount, Sort::Party),
        ],
        Form::ChoiceInput => &[
            (Key::ForChoiceId, Sort::ChoiceId),
            (Key::InputThatChoosesNum, Sort::Whole),
        ],
        Form::State(Numbers::Whole) => &[
            (Key::Accounts, Sort::Accounts(Numbers::Whole)),
            (Key::Choices, Sort::Choices(Numbers::Whole)),
            (Key::BoundValues, Sort::BoundValues(Numbers::Whole)),
            (Key::MinTime, Sort::Time),
        ],
        Form::State(Numbers::OrTexts) => &[
            (Key::Accounts, Sort::Accounts(Numbers::OrTexts)),
            (Key::Choices, Sort::Choices(Numbers::OrTexts)),
            (Key::BoundValues, Sort::BoundValues(Numbers::OrTexts)),
            (Key::MinTime, Sort::Time),
        ],
        Form::Scenario => &[
            (Key::Tick, Sort::Time),
            (Key::Genesis, Sort::OfScenario(ScenarioSort::Genesis)),
            (Key::Contracts, Sort::OfScenario(ScenarioSort::Contracts)),
            (Key::Threads, Sort::OfScenario(ScenarioSort::Threads)),
            (Key::Plans, Sort::OfScenario(ScenarioSort::Plans)),
        ],
        Form::Funds => &[(Key::Address, Sort::Text), (Key::Amount, Sort::Amounts)],
        Form::NamedContract => &[
            (
                Key::Name,
                Sort::OfScenario(ScenarioSort::NewName(NamedSort::Contract)),
            ),
            (Key::Currency, Sort::Hex),
            (Key::Contract, Sort::Contract),
        ],
        Form::NamedThread => &[
            (
                Key::Name,
                Sort::OfScenario(ScenarioSort::NewName(NamedSort::Thread)),
            ),
            (
                Key::Contract,
                Sort::OfScenario(ScenarioSort::NameOf(NamedSort::Contract)),
            ),
            (Key::By, Sort::Text),
            (Key::Accounts, Sort::Accounts(Numbers::Whole)),
            (Key::MinTime, Sort::Time),
        ],
        Form::Plan => &[
            (
                Key::Name,
                Sort::OfScenario(ScenarioSort::NewName(NamedSort::Plan)),
            ),
            (Key::Keys, Sort::OfScenario(ScenarioSort::PlanKeys)),
            (Key::Change, Sort::Text),
            (Key::Intents, Sort::OfScenario(ScenarioSort::Intents)),
        ],
        Form::Step => &[
            (
                Key::Step,
                Sort::OfScenario(ScenarioSort::NameOf(NamedSort::Thread)),
            ),
            (Key::Inputs, Sort::Inputs),
            (Key::From, Sort::Time),
            (Key::To, Sort::Time),
        ],
        Form::Steps => &[
            (Key::Steps, Sort::OfScenario(ScenarioSort::Steps)),
            (Key::From, Sort::Time),
            (Key::To, Sort::Time),
        ],
        Form::Claim => &[
            (
                Key::Claim,
                Sort::OfScenario(ScenarioSort::NameOf(NamedSort::Contract)),
            ),
            (Key::Role, Sort::Text),
            (Key::From, Sort::Time),
            (Key::To, Sort::Time),
        ],
        Form::Round => &[
            (Key::Round, Sort::OfScenario(ScenarioSort::Count)),
            (Key::Workers, Sort::OfScenario(ScenarioSort::Workers)),
        ],
        Form::Advance => &[(Key::Advance, Sort::Time)],
        Form::OneStep => &[
            (
                Key::Step,
                Sort::OfScenario(ScenarioSort::NameOf(NamedSort::Thread)),
            ),
            (Key::Inputs, Sort::Inputs),
        ],
    }
}

/// The key of a form that an object may also lack: it is read behind the others.
pub fn more_of(form: Form) -> Option<(Key, Sort)>
    ensures { result ≡ more_of form }
{
    match form {
        Form::Plan => Some((Key::StopAfter, Sort::OfScenario(ScenarioSort::Calls))),
        Form::Step => Some((Key::Pool, Sort::OfScenario(ScenarioSort::Truth))),
        Form::Steps => Some((Key::Pool, Sort::OfScenario(ScenarioSort::Truth))),
        _ => None,
    }
}
