//! The keys of all forms.
ghost use Rattle.std.specs.Prelude.{◌≡◌};
ghost use Rattle.json_forms.specs.Forms.{key_word};

/// A key of a form of a contract, a transaction, a state or a scenario.
#[derive(Clone, Copy, Debug)]
pub enum Key {
    /// `pay`
    Pay,
    /// `token`
    Token,
    /// `from_account`
    FromAccount,
    /// `to`
    To,
    /// `then`
    Then,
    /// `if`
    If,
    /// `else`
    Else,
    /// `when`
    When,
    /// `timeout`
    Timeout,
    /// `timeout_continuation`
    TimeoutContinuation,
    /// `let`
    Let,
    /// `be`
    Be,
    /// `assert`
    Assert,
    /// `case`
    Case,
    /// `party`
    Party,
    /// `deposits`
    Deposits,
    /// `of_token`
    OfToken,
    /// `into_account`
    IntoAccount,
    /// `for_choice`
    ForChoice,
    /// `choose_between`
    ChooseBetween,
    /// `notify_if`
    NotifyIf,
    /// `amount_of_token`
    AmountOfToken,
    /// `in_account`
    InAccount,
    /// `negate`
    Negate,
    /// `add`
    Add,
    /// `and`
    And,
    /// `value`
    Value,
    /// `minus`
    Minus,
    /// `multiply`
    Multiply,
    /// `times`
    Times,
    /// `divide`
    Divide,
    /// `by`
    By,
    /// `value_of_choice`
    ValueOfChoice,
    /// `use_value`
    UseValue,
    /// `both`
    Both,
    /// `either`
    Either,
    /// `or`
    Or,
    /// `not`
    Not,
    /// `chose_something_for`
    ChoseSomethingFor,
    /// `ge_than`
    GeThan,
    /// `gt`
    Gt,
    /// `lt`
    Lt,
    /// `le_than`
    LeThan,
    /// `equal_to`
    EqualTo,
    /// `from`
    From,
    /// `choice_name`
    ChoiceName,
    /// `choice_owner`
    ChoiceOwner,
    /// `currency_symbol`
    CurrencySymbol,
    /// `token_name`
    TokenName,
    /// `address`
    Address,
    /// `role_token`
    RoleToken,
    /// `account`
    Account,
    /// `tx_interval`
    TxInterval,
    /// `tx_inputs`
    TxInputs,
    /// `input_from_party`
    InputFromParty,
    /// `that_deposits`
    ThatDeposits,
    /// `for_choice_id`
    ForChoiceId,
    /// `input_that_chooses_num`
    InputThatChoosesNum,
    /// `accounts`
    Accounts,
    /// `choices`
    Choices,
    /// `boundValues`
    BoundValues,
    /// `minTime`
    MinTime,
    /// `tick`
    Tick,
    /// `genesis`
    Genesis,
    /// `amount`
    Amount,
    /// `contracts`
    Contracts,
    /// `name`
    Name,
    /// `currency`
    Currency,
    /// `contract`
    Contract,
    /// `threads`
    Threads,
    /// `plans`
    Plans,
    /// `keys`
    Keys,
    /// `change`
    Change,
    /// `intents`
    Intents,
    /// `stop_after`
    StopAfter,
    /// `step`
    Step,
    /// `inputs`
    Inputs,
    /// `pool`
    Pool,
    /// `steps`
    Steps,
    /// `claim`
    Claim,
    /// `role`
    Role,
    /// `round`
    Round,
    /// `workers`
    Workers,
    /// `advance`
    Advance,
}

/// The word of a key, as it stands in a text.
pub fn key_word(key: Key) -> &'static str
    ensures { result.now ≡ key_word key }
{
    match key {
        Key::Pay => "pay",
        Key::Token => "token",
        Key::FromAccount => "from_account",
        Key::To => "to",
        Key::Then => "then",
        Key::If => "if",
        Key::Else => "else",
        Key::When => "when",
        Key::Timeout => "timeout",
        Key::TimeoutContinuation => "timeout_continuation",
        Key::Let => "let",
        Key::Be => "be",
        Key::Assert => "assert",
        Key::Case => "case",
        Key::Party => "party",
        Key::Deposits => "deposits",
        Key::OfToken => "of_token",
        Key::IntoAccount => "into_account",
        Key::ForChoice => "for_choice",
        Key::ChooseBetween => "choose_between",
        Key::NotifyIf => "notify_if",
        Key::AmountOfToken => "amount_of_token",
        Key::InAccount => "in_account",
        Key::Negate => "negate",
        Key::Add => "add",
        Key::And => "and",
        Key::Value => "value",
        Key::Minus => "minus",
        Key::Multiply => "multiply",
        Key::Times => "times",
        Key::Divide => "divide",
        Key::By => "by",
        Key::ValueOfChoice => "value_of_choice",
        Key::UseValue => "use_value",
        Key::Both => "both",
        Key::Either => "either",
        Key::Or => "or",
        Key::Not => "not",
        Key::ChoseSomethingFor => "chose_something_for",
        Key::GeThan => "ge_than",
        Key::Gt => "gt",
        Key::Lt => "lt",
        Key::LeThan => "le_than",
        Key::EqualTo => "equal_to",
        Key::From => "from",
        Key::ChoiceName => "choice_name",
        Key::ChoiceOwner => "choice_owner",
        Key::CurrencySymbol => "currency_symbol",
        Key::TokenName => "token_name",
        Key::Address => "address",
        Key::RoleToken => "role_token",
        Key::Account => "account",
        Key::TxInterval => "tx_interval",
        Key::TxInputs => "tx_inputs",
        Key::InputFromParty => "input_from_party",
        Key::ThatDeposits => "that_deposits",
        Key::ForChoiceId => "for_choice_id",
        Key::InputThatChoosesNum => "input_that_chooses_num",
        Key::Accounts => "accounts",
        Key::Choices => "choices",
        Key::BoundValues => "boundValues",
        Key::MinTime => "minTime",
        Key::Tick => "tick",
        Key::Genesis => "genesis",
        Key::Amount => "amount",
        Key::Contracts => "contracts",
        Key::Name => "name",
        Key::Currency => "currency",
        Key::Contract => "contract",
        Key::Threads => "threads",
        Key::Plans => "plans",
        Key::Keys => "keys",
        Key::Change => "change",
        Key::Intents => "intents",
        Key::StopAfter => "stop_after",
        Key::Step => "step",
        Key::Inputs => "inputs",
        Key::Pool => "pool",
        Key::Steps => "steps",
        Key::Claim => "claim",
        Key::Role => "role",
        Key::Round => "round",
        Key::Workers => "workers",
        Key::Advance => "advance",
    }
}
