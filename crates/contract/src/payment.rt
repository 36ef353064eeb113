//! Payments.
use crate::together::three_copies;
use states::collections::{Memory, TryClone};
use states::names::{Party, Payee, Token};

/// A payment that a transaction makes (Marlowe specification version 3, "Compute transaction"): from
/// the account of `from` to the payee `to`, of an amount of a token, in its smallest unit.
#[derive(Debug, Drop, Hash)]
pub struct Payment {
    pub from: Party,
    pub to: Payee,
    pub token: Token,
    pub amount: i128,
}

impl TryClone for Payment {
    fn try_clone(&self) -> Result<Payment, Memory> {
        let (from, to, token) = three_copies(&self.from, &self.to, &self.token)?;
        Ok(Payment {
            from,
            to,
            token,
            amount: self.amount,
        })
    }
}

#[derived]
impl Hash for Payment {
    ghost use Rattle.std.specs.Hash.{same_Alike};
    ghost use Rattle.states.proofs.FromCollections.SameLaws.{same_by_decides};
    ghost use Rattle.contract.specs.contracts.payment.Payment as it;

    ghost respects_eq = { (same_Alike _ (same_by_decides it.the_row.coded)).fed };
}
