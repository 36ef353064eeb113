//! Outcomes.
use crate::payment::Payment;
use crate::together::{both, two_copies};
use crate::warning::Warning;
use states::State;
use states::collections::{Items, Memory, Same, TryClone};

/// What a transaction that succeeds leaves: warnings and payments in order, the new state, and the
/// place where the contract goes on.
#[derive(PartialEq, Eq, Hash, Drop)]
pub struct Outcome<P> {
    pub warnings: Items<Warning>,
    pub payments: Items<Payment>,
    pub state: State,
    pub place: P,
}

impl<P: Copy> TryClone for Outcome<P> {
    fn try_clone(&self) -> Result<Outcome<P>, Memory> {
        let state = self.state.try_clone()?;
        let (state, lists) = both(state, two_copies(&self.warnings, &self.payments))?;
        let (warnings, payments) = lists;
        Ok(Outcome {
            warnings,
            payments,
            state,
            place: self.place,
        })
    }
}

impl<P: Same> Same for Outcome<P> {
    fn same(&self, other: &Outcome<P>) -> bool {
        self.place.same(&other.place)
            && self.state.same(&other.state)
            && self.warnings.same(&other.warnings)
            && self.payments.same(&other.payments)
    }
}
