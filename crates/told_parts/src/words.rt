//! The words of sorts and forms.
ghost use Rattle.std.specs.Prelude.{◌≡◌};
ghost use Rattle.told_parts.specs.Words as words;

use json_forms::{Form, NamedSort, ScenarioSort, Sort};

/// What a part is read as, with its article.
pub(crate) fn sort_text(sort: Sort) -> &'static str
    ensures { result.now ≡ words.sort_text sort }
{
    match sort {
        Sort::Contract => "a contract",
        Sort::Cases => "a list of cases",
        Sort::Case => "a case",
        Sort::Action => "an action",
        Sort::Value => "a value",
        Sort::Observation => "an observation",
        Sort::Bounds => "a list of bounds",
        Sort::Bound => "a bound",
        Sort::ChoiceId => "a choice id",
        Sort::Token => "a token",
        Sort::Party => "a party",
        Sort::Payee => "a payee",
        Sort::Text => "a text",
        Sort::Hex => "a text of hexadecimal digits",
        Sort::Whole => "a whole number",
        Sort::Time => "a time",
        Sort::Transaction => "a transaction",
        Sort::Interval => "an interval",
        Sort::Inputs => "a list of inputs",
        Sort::Input => "an input",
        Sort::State(_) => "a state",
        Sort::Accounts(_) => "a list of accounts",
        Sort::AccountEntry(_) => "an entry of accounts",
        Sort::Account => "an account",
        Sort::Choices(_) => "a list of choices",
        Sort::ChoiceEntry(_) => "an entry of choices",
        Sort::BoundValues(_) => "a list of bound values",
        Sort::BoundEntry(_) => "an entry of bound values",
        Sort::NumberOrText => "a number",
        Sort::Amount(_) => "a number above 0",
        Sort::Repeated(_) => "a second entry for one key",
        Sort::Amounts => "a list of amounts",
        Sort::AmountEntry => "an entry of amounts",
        Sort::OfScenario(part) => scenario_sort_text(part),
    }
}

/// The same without it.
pub(crate) fn bare_sort_text(sort: Sort) -> &'static str
    ensures { result.now ≡ words.bare_sort_text sort }
{
    match sort {
        Sort::Contract => "contract",
        Sort::Cases => "list of cases",
        Sort::Case => "case",
        Sort::Action => "action",
        Sort::Value => "value",
        Sort::Observation => "observation",
        Sort::Bounds => "list of bounds",
        Sort::Bound => "bound",
        Sort::ChoiceId => "choice id",
        Sort::Token => "token",
        Sort::Party => "party",
        Sort::Payee => "payee",
        Sort::Text => "text",
        Sort::Hex => "text of hexadecimal digits",
        Sort::Whole => "whole number",
        Sort::Time => "time",
        Sort::Transaction => "transaction",
        Sort::Interval => "interval",
        Sort::Inputs => "list of inputs",
        Sort::Input => "input",
        Sort::State(_) => "state",
        Sort::Accounts(_) => "list of accounts",
        Sort::AccountEntry(_) => "entry of accounts",
        Sort::Account => "account",
        Sort::Choices(_) => "list of choices",
        Sort::ChoiceEntry(_) => "entry of choices",
        Sort::BoundValues(_) => "list of bound values",
        Sort::BoundEntry(_) => "entry of bound values",
        Sort::NumberOrText => "number",
        Sort::Amount(_) => "number above 0",
        Sort::Repeated(_) => "second entry for one key",
        Sort::Amounts => "list of amounts",
        Sort::AmountEntry => "entry of amounts",
        Sort::OfScenario(part) => bare_scenario_sort_text(part),
    }
}

/// What a part of a sort is.
pub(crate) fn sort_hint(sort: Sort) -> &'static str
    ensures { result.now ≡ words.sort_hint sort }
{
    match sort {
        Sort::Contract => {
            "a contract is \"close\", or has \"pay\", \"if\", \"when\", \"let\" or \"assert\""
        }
        Sort::Cases => "cases stand in a list, also none or one",
        Sort::Case => "a case has \"case\" and \"then\"",
        Sort::Action => "an action has \"party\", \"for_choice\" or \"notify_if\"",
        Sort::Value => {
            "a value is a number, \"time_interval_start\" or \"time_interval_end\", or has \"amount_of_token\", \"negate\", \"add\", \"value\", \"multiply\", \"divide\", \"value_of_choice\", \"use_value\" or \"if\""
        }
        Sort::Observation => {
            "an observation is true or false, or has \"both\", \"either\", \"not\", \"chose_something_for\" or \"value\""
        }
        Sort::Bounds => "bounds stand in a list, also none or one",
        Sort::Bound => "a bound has \"from\" and \"to\"",
        Sort::ChoiceId => "a choice id has \"choice_name\" and \"choice_owner\"",
        Sort::Token => "a token has \"currency_symbol\" and \"token_name\"",
        Sort::Party => "a party has \"address\" or \"role_token\"",
        Sort::Payee => "a payee has \"account\" or \"party\"",
        Sort::Text => "a text stands in quotation marks",
        Sort::Hex => "a currency symbol is a text of hexadecimal digits; of ada it is \"\"",
        Sort::Whole => {
            "a whole number lies from -9223372036854775808 to 18446744073709551615, without point and exponent"
        }
        Sort::Time => {
            "a time lies from -9223372036854775808 to 9223372036854775807, in milliseconds"
        }
        Sort::Transaction => "a transaction has \"tx_interval\" and \"tx_inputs\"",
        Sort::Interval => "an interval has \"from\" and \"to\"",
        Sort::Inputs => "inputs stand in a list, also none or one",
        Sort::Input => {
            "an input is \"input_notify\", or has \"input_from_party\" or \"for_choice_id\""
        }
        Sort::State(_) => "a state has \"accounts\", \"choices\", \"boundValues\" and \"minTime\"",
        Sort::Accounts(_) => "accounts stand in a list, also none or one",
        Sort::AccountEntry(_) =>
            "an entry of accounts is a list of two: an account and what it holds",
        Sort::Account => "an account is a list of two: a party and a token",
        Sort::Choices(_) => "choices stand in a list, also none or one",
        Sort::ChoiceEntry(_) =>
            "an entry of choices is a list of two: a choice id and the number that was chosen",
        Sort::BoundValues(_) => "bound values stand in a list, also none or one",
        Sort::BoundEntry(_) =>
            "an entry of bound values is a list of two: a name and the value that is bound to it",
        Sort::NumberOrText =>
            "a number is a whole number, or a text of its decimal digits, from -2^127 to 2^127 - 1",
        Sort::Amount(_) => "an account holds a number above 0",
        Sort::Repeated(_) => "each key stands once: add up what belongs together, or leave one out",
        Sort::Amounts => "amounts stand in a list, also none or one",
        Sort::AmountEntry => {
            "an entry of amounts is a list of two: a token and how much of it there is"
        }
        Sort::OfScenario(part) => scenario_sort_hint(part),
    }
}

/// The name of a form, with its article.
pub(crate) fn form_text(form: Form) -> &'static str
    ensures { result.now ≡ words.form_text form }
{
    match form {
        Form::Pay => "a pay",
        Form::If => "an if",
        Form::When => "a when",
        Form::Let => "a let",
        Form::Assert => "an assert",
        Form::Case => "a case",
        Form::Deposit => "a deposit",
        Form::Choice => "a choice",
        Form::Notify => "a notify",
        Form::AvailableMoney => "an amount_of_token",
        Form::NegValue => "a negate",
        Form::AddValue => "an add",
        Form::SubValue => "a minus",
        Form::MulValue => "a multiply",
        Form::DivValue => "a divide",
        Form::ChoiceValue => "a value_of_choice",
        Form::UseValue => "a use_value",
        Form::Cond => "an if",
        Form::AndObs => "a both",
        Form::OrObs => "an either",
        Form::NotObs => "a not",
        Form::ChoseSomething => "a chose_something_for",
        Form::ValueGE => "a ge_than",
        Form::ValueGT => "a gt",
        Form::ValueLT => "an lt",
        Form::ValueLE => "a le_than",
        Form::ValueEQ => "an equal_to",
        Form::Bound => "a bound",
        Form::ChoiceId => "a choice id",
        Form::Token => "a token",
        Form::Address => "an address",
        Form::Role => "a role",
        Form::ToAccount => "an account",
        Form::ToParty => "a party",
        Form::Transaction => "a transaction",
        Form::Interval => "an interval",
        Form::DepositInput => "a deposit",
        Form::ChoiceInput => "a choice",
        Form::State(_) => "a state",
        Form::Scenario => "a scenario",
        Form::Funds => "an entry of genesis",
        Form::NamedContract => "a named contract",
        Form::NamedThread => "a thread",
        Form::Plan => "a plan",
        Form::Step => "a step",
        Form::Steps => "a steps",
        Form::Claim => "a claim",
        Form::Round => "a round",
        Form::Advance => "an advance",
        Form::OneStep => "a step",
    }
}

// What a part is read as that only a scenario has, with its article.
fn scenario_sort_text(part: ScenarioSort) -> &'static str
    ensures { result.now ≡ words.scenario_sort_text part }
{
    match part {
        ScenarioSort::Scenario => "a scenario",
        ScenarioSort::Genesis => "a genesis",
        ScenarioSort::Funds => "an entry of genesis",
        ScenarioSort::Contracts => "a list of contracts",
        ScenarioSort::NamedContract => "a named contract",
        ScenarioSort::Threads => "a list of threads",
        ScenarioSort::NamedThread => "a thread",
        ScenarioSort::Plans => "a list of plans",
        ScenarioSort::Plan => "a plan",
        ScenarioSort::PlanKeys => "a list of keys",
        ScenarioSort::Intents => "a list of intents",
        ScenarioSort::Intent => "an intent",
        ScenarioSort::Steps => "a list of steps",
        ScenarioSort::OneStep => "a step",
        ScenarioSort::NewName(_) => "a new name",
        ScenarioSort::NameOf(NamedSort::Contract) => "a contract of the scenario",
        ScenarioSort::NameOf(NamedSort::Thread) => "a thread of the scenario",
        ScenarioSort::NameOf(NamedSort::Plan) => "a plan of the scenario",
        ScenarioSort::Count => "a number of transactions",
        ScenarioSort::Workers => "a number of workers",
        ScenarioSort::Calls => "a number of calls",
        ScenarioSort::Truth => "a truth value",
    }
}

// The same without it.
fn bare_scenario_sort_text(part: ScenarioSort) -> &'static str
    ensures { result.now ≡ words.bare_scenario_sort_text part }
{
    match part {
        ScenarioSort::Scenario => "scenario",
        ScenarioSort::Genesis => "genesis",
        ScenarioSort::Funds => "entry of genesis",
        ScenarioSort::Contracts => "list of contracts",
        ScenarioSort::NamedContract => "named contract",
        ScenarioSort::Threads => "list of threads",
        ScenarioSort::NamedThread => "thread",
        ScenarioSort::Plans => "list of plans",
        ScenarioSort::Plan => "plan",
        ScenarioSort::PlanKeys => "list of keys",
        ScenarioSort::Intents => "list of intents",
        ScenarioSort::Intent => "intent",
        ScenarioSort::Steps => "list of steps",
        ScenarioSort::OneStep => "step",
        ScenarioSort::NewName(_) => "new name",
        ScenarioSort::NameOf(NamedSort::Contract) => "contract of the scenario",
        ScenarioSort::NameOf(NamedSort::Thread) => "thread of the scenario",
        ScenarioSort::NameOf(NamedSort::Plan) => "plan of the scenario",
        ScenarioSort::Count => "number of transactions",
        ScenarioSort::Workers => "number of workers",
        ScenarioSort::Calls => "number of calls",
        ScenarioSort::Truth => "truth value",
    }
}

// What such a part is.
fn scenario_sort_hint(part: ScenarioSort) -> &'static str
    ensures { result.now ≡ words.scenario_sort_hint part }
{
    match part {
        ScenarioSort::Scenario =>
            "a scenario has \"tick\", \"genesis\", \"contracts\", \"threads\" and \"plans\"",
        ScenarioSort::Genesis =>
            "a genesis is a list, also of none or one: what addresses have when the ledger begins",
        ScenarioSort::Funds => "an entry of genesis has \"address\" and \"amount\"",
        ScenarioSort::Contracts => "contracts stand in a list, also none or one",
        ScenarioSort::NamedContract =>
            "a named contract has \"name\", \"currency\" and \"contract\"",
        ScenarioSort::Threads => "threads stand in a list, also none or one",
        ScenarioSort::NamedThread =>
            "a thread has \"name\", \"contract\", \"by\", \"accounts\" and \"minTime\"",
        ScenarioSort::Plans => "plans stand in a list, also none or one",
        ScenarioSort::Plan =>
            "a plan has \"name\", \"keys\", \"change\" and \"intents\", and there are at most 63 plans",
        ScenarioSort::PlanKeys => "keys are texts and stand in a list, also none or one",
        ScenarioSort::Intents => "intents stand in a list, also none or one",
        ScenarioSort::Intent =>
            "an intent has \"step\", \"steps\", \"claim\", \"round\" or \"advance\"",
        ScenarioSort::Steps => "steps stand in a list, also none or one",
        ScenarioSort::OneStep => "a step has \"step\" and \"inputs\"",
        ScenarioSort::NewName(_) => "each of a list has a name of its own",
        ScenarioSort::NameOf(NamedSort::Contract) => "a contract is named as in \"contracts\"",
        ScenarioSort::NameOf(NamedSort::Thread) => "a thread is named as in \"threads\"",
        ScenarioSort::NameOf(NamedSort::Plan) => "a plan is named as in \"plans\"",
        ScenarioSort::Count => "a round takes 0 to 18446744073709551615 transactions",
        ScenarioSort::Workers => "1 to 16 workers check a round",
        ScenarioSort::Calls => "a plan stops after 0 to 9223372036854775807 calls",
        ScenarioSort::Truth => "a truth value is true or false, without quotation marks",
    }
}

/// What has names.
pub(crate) fn kinds_text(kind: NamedSort) -> &'static str
    ensures { result.now ≡ words.kinds_text kind }
{
    match kind {
        NamedSort::Contract => "contracts",
        NamedSort::Thread => "threads",
        NamedSort::Plan => "plans",
    }
}
