//! Transactions that are refused.
use contract::SemFault;

/// The first transaction of a list that is refused.
#[derive(Clone, Copy)]
pub struct Refused {
    /// Its index, from 0.
    pub index: usize,
    /// Why it is refused.
    pub fault: SemFault,
}
