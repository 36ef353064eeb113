//! Inputs.
use crate::together::three_copies;
use states::collections::{Memory, TryClone};
use states::names::{ChoiceId, Party, Token};

/// What a transaction brings to a contract that waits (Marlowe specification version 3, "Actions and
/// inputs").
#[derive(Debug, Drop, Hash)]
pub enum Input {
    /// A deposit into the account of the first party by the second, of an amount of a token in its
    /// smallest unit.
    Deposit(Party, Party, Token, i128),
    /// The number that is chosen.
    Choice(ChoiceId, i128),
    /// A notification.
    Notify,
}

impl TryClone for Input {
    fn try_clone(&self) -> Result<Input, Memory> {
        match self {
            Input::Deposit(account, party, token, amount) => {
                let (account, party, token) = three_copies(account, party, token)?;
                Ok(Input::Deposit(account, party, token, *amount))
            }
            Input::Choice(id, number) => Ok(Input::Choice(id.try_clone()?, *number)),
            Input::Notify => Ok(Input::Notify),
        }
    }
}

#[derived]
impl Hash for Input {
    ghost use Rattle.std.specs.Hash.{same_Alike};
    ghost use Rattle.states.proofs.FromCollections.SameLaws.{same_by_decides};
    ghost use Rattle.contract.specs.contracts.input.Input as it;

    ghost respects_eq = { (same_Alike _ (same_by_decides it.the_row.coded)).fed };
}
