//! Accounts.
use crate::party::Party;
use crate::token::Token;
use collections::{Memory, TryClone};

/// An account of a contract: its owner, and the token that it holds (Marlowe specification version 3,
/// "Accounts"). Accounts stand by owner, then by token.
#[derive(Debug, PartialEq, Eq, PartialOrd, Ord, Hash, Drop)]
pub struct Account {
    pub owner: Party,
    pub token: Token,
}

impl TryClone for Account {
    fn try_clone(&self) -> Result<Account, Memory> {
        let owner = self.owner.try_clone()?;
        let token = self.token.try_clone()?;
        Ok(Account { owner, token })
    }
}
