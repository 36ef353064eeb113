//! Payees.
use crate::party::Party;
use collections::{Memory, TryClone};

/// Whom a payment goes to (Marlowe specification version 3, "Accounts"): an account of the contract, by
/// its owner, or a party outside of it.
#[derive(Debug, PartialEq, Eq, Hash, Drop)]
pub enum Payee {
    Account(Party),
    Party(Party),
}

impl TryClone for Payee {
    fn try_clone(&self) -> Result<Payee, Memory> {
        match self {
            Payee::Account(owner) => Ok(Payee::Account(owner.try_clone()?)),
            Payee::Party(party) => Ok(Payee::Party(party.try_clone()?)),
        }
    }
}
