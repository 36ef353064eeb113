//! What is asked.
ghost use Rattle.std.specs.Prelude.{◌≡◌};
ghost use Rattle.marlowe_run.specs.Semantics.Transaction.{trimmed};
ghost use Rattle.marlowe_next.specs.Question.{interval_of};

use contract::{Interval, State};
use marlowe_run::Readable;

/// What is asked of a contract. Times are POSIX milliseconds.
#[derive(Clone, Copy, Debug)]
pub struct Asked {
    /// When the next transaction may happen at the earliest: without it, from the minimum time on.
    pub from: Option<i64>,
    /// When it may happen at the latest: without it, at the first moment alone.
    pub to: Option<i64>,
    /// How deep the contract may nest, and whether a number of the state may be a text of its digits.
    pub readable: Readable,
    /// Whether the answer is JSON for tools, instead of lines for people.
    pub json: bool,
}

/// The interval that is asked about, in a state.
pub(crate) fn interval_of(asked: Asked, state: &State) -> Interval
    ensures { result ≡ interval_of asked state.now.min_time }
{
    let from = asked.from.unwrap_or(state.min_time());
    let to = asked.to.unwrap_or(from);
    Interval { from, to }
}

/// The interval with its start moved up to the minimum time.
pub(crate) fn fixed(interval: Interval, state: &State) -> Interval
    ensures { result ≡ trimmed interval state.now }
{
    Interval {
        from: interval.from.max(state.min_time()),
        to: interval.to,
    }
}
