//! What is told of a contract.
use analysis_spec::Alarm;
use bound_runs::{ShownLoss, ShownRange};
use contract::{Items, Transaction};
use places::Key;

/// An alarm, the way to its place in the text, and a run that ends in it: none where that is not known. And how many others are told
/// with it, or none where it is told with another.
#[derive(Drop)]
pub struct ToldAlarm {
    pub alarm: Alarm,
    pub place: Vec<Key>,
    pub run: Option<Items<Transaction>>,
    pub head: Option<usize>,
}

/// All alarms, the ways to parts to which no run comes, what parties are paid, and from when on all can be taken out: the last timeout,
/// or none where it is at once; or nothing, where a number may leave 128 bits. And what parties can lose, or nothing there. Bounds have
/// the runs that reach them, where one is known.
#[derive(Drop)]
pub struct Told {
    pub alarms: Vec<ToldAlarm>,
    pub unreached: Items<Items<Key>>,
    pub ranges: Items<ShownRange>,
    pub out: Option<Option<i64>>,
    pub losses: Option<Items<ShownLoss>>,
}
