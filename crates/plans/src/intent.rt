//! Intents.
use contract::{Input, Interval, Items, Text};

/// One thing that a party means to do, in a plan that names threads by a `T` and contracts by a `C`. Times are POSIX
/// milliseconds.
#[derive(Drop)]
pub enum Intent<T, C> {
    /// A step of a thread with these inputs, in a transaction with this interval.
    Step {
        thread: T,
        inputs: Items<Input>,
        interval: Interval,
        /// Whether the transaction is put into the pool, to be judged by a round, and not submitted.
        pooled: bool,
    },
    /// Steps of several threads in one transaction with this interval, each thread with its inputs: all or none.
    Steps {
        steps: Items<(T, Items<Input>)>,
        interval: Interval,
        /// As of a step.
        pooled: bool,
    },
    /// A claim of all payouts to a role of a contract's currency, in a transaction with this interval.
    Claim {
        contract: C,
        role: Text,
        interval: Interval,
    },
    /// A round over so many transactions of the pool, checked by so many workers.
    Round {
        count: u64,
        workers: usize,
    },
    /// An advance of the ledger's tick to this time.
    Advance(i64),
}
