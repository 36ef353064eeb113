//! Transactions.
use crate::input::Input;
use crate::interval::Interval;
use states::collections::{Items, Memory, TryClone};

/// What is applied to a contract at once (Marlowe specification version 3, "Compute transaction"): the
/// interval in which it happens, and its inputs in order.
#[derive(Debug, PartialEq, Eq, Hash, Drop)]
pub struct Transaction {
    pub interval: Interval,
    pub inputs: Items<Input>,
}

impl TryClone for Transaction {
    fn try_clone(&self) -> Result<Transaction, Memory> {
        let inputs = self.inputs.try_clone()?;
        Ok(Transaction {
            interval: self.interval,
            inputs,
        })
    }
}
