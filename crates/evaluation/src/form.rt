//! What stands at a place of a contract.
use contract::{Bound, ChoiceId, Party, Payee, Text, Token};

/// The form of a contract, over handles of its parts: places of contracts, values and observations (Marlowe
/// specification version 3, "Contracts"). The cases of a When are asked for one by one.
#[derive(Drop)]
pub enum Form<'a, P, V, O> {
    /// Every account is paid out to its owner, and nothing is left.
    Close,
    /// The account of the party pays the payee of the token the amount that the value gives; then the place.
    Pay(&'a Party, &'a Payee, &'a Token, V, P),
    /// The first place where the observation is true, else the second.
    If(O, P, P),
    /// Waits for a case up to the timeout, in POSIX milliseconds; from then on the place.
    When(i64, P),
    /// The name is bound to the value; then the place.
    Let(&'a Text, V, P),
    /// Warns where the observation is false; then the place.
    Assert(O, P),
}

/// What a case waits for, over handles of values and observations (Marlowe specification version 3, "Actions
/// and inputs").
#[derive(Drop)]
pub enum Wait<'a, V, O> {
    /// A deposit into the account of the first party, by the second, of the token, of the amount that the
    /// value gives.
    Deposit(&'a Party, &'a Party, &'a Token, V),
    /// A choice of a number that lies in one of the bounds.
    Choice(&'a ChoiceId, &'a [Bound]),
    /// Word that the observation is true.
    Notify(O),
}

/// A case, over handles of its parts: what it waits for, and the place that follows.
#[derive(Drop)]
pub struct Waiting<'a, P, V, O> {
    pub action: Wait<'a, V, O>,
    pub then: P,
}
