//! The sorts of what a text has parts of.

/// Which JSON values stand for a number of a state.
#[derive(Clone, Copy, Debug)]
pub enum Numbers {
    /// Whole numbers from -2^63 to 2^64 - 1.
    Whole,
    /// These, and the texts of numbers from -2^127 to 2^127 - 1.
    OrTexts,
}

/// What a part of a text is read as.
#[derive(Clone, Copy, Debug)]
pub enum Sort {
    /// A contract.
    Contract,
    /// A list of a When's cases.
    Cases,
    /// A case of a When.
    Case,
    /// What a case waits for.
    Action,
    /// A value.
    Value,
    /// An observation.
    Observation,
    /// A list of bounds.
    Bounds,
    /// A bound of a choice.
    Bound,
    /// A choice by its name and its owner.
    ChoiceId,
    /// A token.
    Token,
    /// A party.
    Party,
    /// A payee.
    Payee,
    /// A text.
    Text,
    /// A text of hexadecimal digits.
    Hex,
    /// A whole number from -2^63 to 2^64 - 1.
    Whole,
    /// A time, in POSIX milliseconds: a whole number from -2^63 to 2^63 - 1.
    Time,
    /// A transaction.
    Transaction,
    /// The interval of a transaction.
    Interval,
    /// A list of inputs.
    Inputs,
    /// An input of a transaction.
    Input,
    /// A state.
    State(Numbers),
    /// A list of what accounts hold.
    Accounts(Numbers),
    /// An account and what it holds, a list of the two.
    AccountEntry(Numbers),
    /// An account: its owner and its token, a list of the two.
    Account,
    /// A list of choices that were made.
    Choices(Numbers),
    /// A choice and its number, a list of the two.
    ChoiceEntry(Numbers),
    /// A list of values that are bound.
    BoundValues(Numbers),
    /// A name and the value that is bound to it, a list of the two.
    BoundEntry(Numbers),
    /// A whole number, or the text of one from -2^127 to 2^127 - 1.
    NumberOrText,
    /// What an account holds: a number above 0.
    Amount(Numbers),
    /// An entry of a list, for which an earlier one stands there already: the index of the first, from 0.
    Repeated(usize),
    /// A list of amounts of tokens.
    Amounts,
    /// A token and how much of it there is, a list of the two.
    AmountEntry,
    /// A part that only a scenario has.
    OfScenario(ScenarioSort),
}

/// What a part of a scenario is read as that no contract and no state has.
#[derive(Clone, Copy, Debug)]
pub enum ScenarioSort {
    /// A scenario.
    Scenario,
    /// A list of what addresses have when the ledger begins.
    Genesis,
    /// What an address has when the ledger begins.
    Funds,
    /// A list of contracts that have names.
    Contracts,
    /// A contract and its name.
    NamedContract,
    /// A list of threads.
    Threads,
    /// A thread.
    NamedThread,
    /// A list of plans.
    Plans,
    /// A plan of a party.
    Plan,
    /// A list of texts: the keys of a plan.
    PlanKeys,
    /// A list of intents.
    Intents,
    /// An intent.
    Intent,
    /// A list of steps that are made at once.
    Steps,
    /// One of several steps.
    OneStep,
    /// A name that no item before it has, in a list of these.
    NewName(NamedSort),
    /// The name of a contract of the scenario, or of a thread.
    NameOf(NamedSort),
    /// How many transactions a round takes: from 0 to 2^64 - 1.
    Count,
    /// How many workers check: from 1 to 16.
    Workers,
    /// After how many calls a plan stops: from 0 to 2^63 - 1.
    Calls,
    /// `true` or `false`.
    Truth,
}

/// What has a name in a scenario.
#[derive(Clone, Copy, Debug)]
pub enum NamedSort {
    /// Contracts.
    Contract,
    /// Threads.
    Thread,
    /// Plans.
    Plan,
}
