//! Contracts (Marlowe specification version 3, "Contracts").
use crate::value::{Observation, Value};
use states::collections::{Boxed, Items, Text};
use states::names::{Bound, ChoiceId, Party, Payee, Token};

/// What a case of a When waits for (Marlowe specification version 3, "Actions and inputs").
#[derive(Drop, Hash)]
pub enum Action {
    /// A deposit into the account of the first party by the second, of an amount of a token in its
    /// smallest unit.
    Deposit(Party, Party, Token, Value),
    /// A choice of a number within one of the bounds.
    Choice(ChoiceId, Items<Bound>),
    /// A notification while the observation is true.
    Notify(Observation),
}

/// A case of a When: what it waits for, and the contract that is gone on with.
#[cycle(contract)]
#[derive(Drop, Hash)]
pub struct Case {
    pub action: Action,
    pub then: Contract,
}

/// A contract: what is to be done before it is over (Marlowe specification version 3, "Contracts").
#[cycle(contract)]
#[derive(Drop, Hash)]
pub enum Contract {
    /// All that the accounts hold is paid to their owners, and the contract is over.
    Close,
    /// Pays an amount of a token, in its smallest unit, from the account of a party to a payee.
    Pay(Party, Payee, Token, Value, Boxed<Contract>),
    /// Goes on with the first contract where the observation is true, else with the second.
    If(Observation, Boxed<Contract>, Boxed<Contract>),
    /// Waits for one of the cases until the timeout, in POSIX milliseconds, and from then on goes on with
    /// the contract.
    When(Items<Case>, i64, Boxed<Contract>),
    /// Binds a value to a name.
    Let(Text, Value, Boxed<Contract>),
    /// Warns where the observation is false.
    Assert(Observation, Boxed<Contract>),
}

#[derived]
impl Hash for Action {
    ghost use Rattle.std.specs.Hash.{same_Alike};
    ghost use Rattle.states.proofs.FromCollections.SameLaws.{same_by_decides};
    ghost use Rattle.contract.specs.contracts.tree.Action as it;

    ghost respects_eq = { (same_Alike _ (same_by_decides it.the_row.coded)).fed };
}

#[derived]
impl Hash for Case {
    ghost use Rattle.std.specs.Hash.{same_Alike};
    ghost use Rattle.states.proofs.FromCollections.SameLaws.{same_by_decides};
    ghost use Rattle.contract.specs.contracts.tree.Case as it;

    ghost respects_eq = { (same_Alike _ (same_by_decides it.the_row.coded)).fed };
}

#[derived]
impl Hash for Contract {
    ghost use Rattle.std.specs.Hash.{same_Alike};
    ghost use Rattle.states.proofs.FromCollections.SameLaws.{same_by_decides};
    ghost use Rattle.contract.specs.contracts.tree.Contract as it;

    ghost respects_eq = { (same_Alike _ (same_by_decides it.the_row.coded)).fed };
}
