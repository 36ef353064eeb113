//! What is held.
ghost use Rattle.std.specs.Prelude.{◌≡◌};
ghost use Rattle.play_holdings.specs.Holders.{holding_cmp};

use crate::holder::{Holder, compare_holders};
use eutxo::{Memory, Token, TryClone, compare_tokens};
use std::cmp::Ordering;

/// An amount of a token, in the token's smallest unit, with its holder. Holdings stand by holder, then by token.
#[derive(Drop)]
pub struct Holding {
    pub holder: Holder,
    pub token: Token,
    pub amount: i128,
}

/// How two holdings stand, whatever their amounts.
pub(crate) fn compare_holdings(a: &Holding, b: &Holding) -> Ordering
    ensures { result ≡ holding_cmp a.now b.now }
{
    compare_holders(&a.holder, &b.holder).then(compare_tokens(&a.token, &b.token))
}

impl TryClone for Holding {
    fn try_clone(&self) -> Result<Holding, Memory> {
        let holder = self.holder.try_clone()?;
        let token = self.token.try_clone()?;
        Ok(Holding {
            holder,
            token,
            amount: self.amount,
        })
    }
}
