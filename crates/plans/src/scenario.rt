//! Scenarios as they are read.
use crate::plan::Plan;
use bundle::Bundle;
use contract::{Bytes, Contract, Items, State, Text};

/// What an address has when the ledger begins: one output.
#[derive(Drop)]
pub struct Funds {
    pub address: Text,
    /// Above 0 of each token, in the token's smallest unit.
    pub amount: Bundle,
}

/// A contract of a scenario, with the currency of its role tokens.
pub struct NamedContract {
    pub name: Text,
    pub currency: Bytes,
    pub contract: Contract,
}

// Dropped once: the drop is written, not derived, so that no crate above proves it again.
impl Drop for NamedContract {
    fn drop(self) {
        let NamedContract {
            name: _,
            currency: _,
            contract,
        } = self;
        drop(contract);
    }
}

/// A thread of a scenario: a start of one of its contracts.
#[derive(Drop)]
pub struct NamedThread {
    pub name: Text,
    /// The place of its contract in the scenario's list, from 0.
    pub contract: usize,
    /// The address that starts it: its outputs fund the start, it signs, and the change goes to it.
    pub by: Text,
    /// The accounts and the minimum time with which it starts. Nothing is chosen or bound.
    pub state: State,
}

/// A whole play: how the ledger begins, what is set up, and what each party does then. Plans name threads and contracts
/// by their places in the scenario's lists, from 0.
pub struct Scenario {
    /// The ledger's first tick, in POSIX milliseconds.
    pub tick: i64,
    /// The outputs with which the ledger begins, in order.
    pub genesis: Items<Funds>,
    pub contracts: Items<NamedContract>,
    pub threads: Items<NamedThread>,
    /// At most 63.
    pub plans: Items<Plan<usize, usize>>,
}

// Dropped once: the drop is written, not derived, so that no crate above proves it again.
impl Drop for Scenario {
    fn drop(self) {
        let Scenario {
            tick: _,
            genesis: _,
            contracts: _,
            threads: _,
            plans: _,
        } = self;
    }
}
