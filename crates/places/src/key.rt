//! Keys of a contract's text.
ghost use Rattle.std.specs.Prelude.{◌≡◌};
ghost use Rattle.places.specs.Texts.{key_word};

/// One part of the way to a place in a contract's text.
#[derive(Clone, Copy)]
pub enum Key {
    /// What follows a Pay, a Let, an Assert or the action of a case, or the branch of an If whose observation is true.
    Then,
    /// The branch of an If whose observation is false.
    Else,
    /// What a When goes on with from its timeout on.
    TimeoutContinuation,
    /// The list of a When's cases.
    When,
    /// The action of a case.
    Case,
    /// A Close, whose form has no key: it is a word of its own.
    Close,
    /// The first key of a Pay.
    Pay,
    /// The first key of an If.
    If,
    /// The first key of a Let.
    Let,
    /// The first key of an Assert.
    Assert,
    /// The first key of a deposit.
    Deposits,
    /// The first key of a choice.
    ChooseBetween,
    /// The first key of a notification.
    NotifyIf,
    /// The index of a case in its list, from 0.
    Item(usize),
}

/// The word of a key. An index has none.
pub fn key_word(key: Key) -> &'static str
    ensures { result.now ≡ key_word key }
{
    match key {
        Key::Then => "then",
        Key::Else => "else",
        Key::TimeoutContinuation => "timeout_continuation",
        Key::When => "when",
        Key::Case => "case",
        Key::Close => "close",
        Key::Pay => "pay",
        Key::If => "if",
        Key::Let => "let",
        Key::Assert => "assert",
        Key::Deposits => "deposits",
        Key::ChooseBetween => "choose_between",
        Key::NotifyIf => "notify_if",
        Key::Item(_) => "",
    }
}
