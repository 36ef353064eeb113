//! What is asked of a ledger.
use contract::{Bytes, Items, Memory, Same, Text, TryClone};
use roles::OutputRef;

/// The lock of payouts: the currency symbol and the role whose token opens them (Marlowe specification version 3,
/// "Participants, roles and public keys").
#[derive(Drop)]
pub struct PayoutLock {
    pub currency: Bytes,
    pub role: Text,
}

/// What somebody wants to see of a ledger.
#[derive(Drop)]
pub struct Ask {
    /// A thread, by its start output.
    pub thread: Option<OutputRef>,
    /// The addresses whose key outputs are asked for.
    pub keys: Items<Text>,
    /// The locks whose payouts are asked for.
    pub payouts: Items<PayoutLock>,
}

impl TryClone for PayoutLock {
    fn try_clone(&self) -> Result<PayoutLock, Memory> {
        let currency = self.currency.try_clone()?;
        let role = self.role.try_clone()?;
        Ok(PayoutLock { currency, role })
    }
}

impl Same for PayoutLock {
    fn same(&self, other: &PayoutLock) -> bool {
        self.currency.same(&other.currency) && self.role.same(&other.role)
    }
}

impl TryClone for Ask {
    fn try_clone(&self) -> Result<Ask, Memory> {
        let keys = self.keys.try_clone()?;
        let payouts = self.payouts.try_clone()?;
        Ok(Ask {
            thread: self.thread,
            keys,
            payouts,
        })
    }
}

impl Same for Ask {
    fn same(&self, other: &Ask) -> bool {
        self.thread == other.thread
            && self.keys.same(&other.keys)
            && self.payouts.same(&other.payouts)
    }
}
