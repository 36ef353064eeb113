//! What is told of a contract: what its cases take, until when it waits, and what came on the way.
use contract::{Bound, ChoiceId, Items, Party, Payment, SemFault, Token};
use places::Key;

/// A deposit into an account by a party, of an amount of a token in its smallest unit.
#[derive(Clone, Copy)]
pub struct Deposit<'a> {
    pub account: &'a Party,
    pub party: &'a Party,
    pub token: &'a Token,
    pub amount: i128,
}

/// What is told of the case at an index, from 0: what it takes, and why what follows is refused, if it is.
#[derive(Clone, Copy)]
pub enum CaseTold<'a> {
    /// A deposit.
    Deposit(usize, Deposit<'a>, Option<SemFault>),
    /// A choice of a number in one of the bounds.
    Choice(usize, &'a ChoiceId, &'a Items<Bound>),
    /// A notify.
    Notify(usize, Option<SemFault>),
    /// A deposit into the account of the first party by the second that isn't taken, since a number of its value leaves
    /// 128 bits.
    DepositLeaves(usize, &'a Party, &'a Party, &'a Token),
    /// A notify that isn't taken, since a number of its observation leaves 128 bits.
    NotifyLeaves(usize),
}

/// A warning of the reduction before the inputs.
#[derive(Drop)]
pub struct ToldWarning {
    /// The keys that lead to its place.
    pub place: Vec<Key>,
    /// The name of its kind.
    pub name: &'static str,
}

/// What is told of a contract.
#[derive(Clone, Copy)]
pub struct ToldHere<'a> {
    /// The keys that lead to the contract where the next inputs come.
    pub path: &'a [Key],
    /// What is told of its cases, in order.
    pub cases: &'a [CaseTold<'a>],
    /// How many more of them take an input than are told. Lines say so; JSON, which is of all cases, doesn't.
    pub more: usize,
    /// The last moment at which it waits, in POSIX milliseconds: none where it closes.
    pub until: Option<i128>,
    /// Whether a transaction without inputs is accepted.
    pub can_reduce: bool,
    /// What the reduction before the inputs pays.
    pub payments: &'a [Payment],
    /// What it warns of.
    pub warned: &'a [ToldWarning],
}
