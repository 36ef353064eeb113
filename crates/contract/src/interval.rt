//! Intervals.

/// When a transaction may happen: from `from` to `to`, in POSIX milliseconds, both included (Marlowe
/// specification version 3, "State and environment").
#[derive(Clone, Copy, Debug, PartialEq, Eq, Hash)]
pub struct Interval {
    pub from: i64,
    pub to: i64,
}
