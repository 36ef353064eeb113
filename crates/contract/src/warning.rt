//! Warnings.
use crate::together::three_copies;
use states::collections::{Memory, Text, TryClone};
use states::names::{Party, Payee, Token};

/// What is unusual about a transaction that succeeds (Marlowe specification version 3, "Compute
/// transaction"). Amounts are in a token's smallest unit.
#[derive(Debug, Drop, Hash)]
pub enum Warning {
    /// A deposit of 0 or less into the account of the first party by the second.
    NonPositiveDeposit(Party, Party, Token, i128),
    /// A Pay of 0 or less from the account of a party to a payee.
    NonPositivePay(Party, Payee, Token, i128),
    /// A Pay of more than the account of a party has: what was paid, then what was expected.
    PartialPay(Party, Payee, Token, i128, i128),
    /// A name was bound before: the old value, then the new.
    Shadowing(Text, i128, i128),
    /// The observation of an Assert is false.
    AssertionFailed,
}

impl TryClone for Warning {
    fn try_clone(&self) -> Result<Warning, Memory> {
        match self {
            Warning::NonPositiveDeposit(account, party, token, amount) => {
                let (account, party, token) = three_copies(account, party, token)?;
                Ok(Warning::NonPositiveDeposit(account, party, token, *amount))
            }
            Warning::NonPositivePay(account, payee, token, amount) => {
                let (account, payee, token) = three_copies(account, payee, token)?;
                Ok(Warning::NonPositivePay(account, payee, token, *amount))
            }
            Warning::PartialPay(account, payee, token, paid, expected) => {
                let (account, payee, token) = three_copies(account, payee, token)?;
                Ok(Warning::PartialPay(account, payee, token, *paid, *expected))
            }
            Warning::Shadowing(name, old, new) => {
                Ok(Warning::Shadowing(name.try_clone()?, *old, *new))
            }
            Warning::AssertionFailed => Ok(Warning::AssertionFailed),
        }
    }
}

#[derived]
impl Hash for Warning {
    ghost use Rattle.std.specs.Hash.{same_Alike};
    ghost use Rattle.states.proofs.FromCollections.SameLaws.{same_by_decides};
    ghost use Rattle.contract.specs.contracts.warning.Warning as it;

    ghost respects_eq = { (same_Alike _ (same_by_decides it.the_row.coded)).fed };
}
