//! Inputs of transactions on the ledger.
use crate::output_ref::OutputRef;
use crate::redeemer::Redeemer;
use contract::{Memory, Same, TryClone};

/// An input of a transaction on the ledger: the output that it spends, and what it hands to that output's lock.
#[derive(Debug, Drop)]
pub struct Spend {
    pub reference: OutputRef,
    pub redeemer: Redeemer,
}

impl TryClone for Spend {
    fn try_clone(&self) -> Result<Spend, Memory> {
        let redeemer = self.redeemer.try_clone()?;
        Ok(Spend {
            reference: self.reference,
            redeemer,
        })
    }
}

impl Same for Spend {
    fn same(&self, other: &Spend) -> bool {
        self.reference.same(&other.reference) && self.redeemer.same(&other.redeemer)
    }
}
