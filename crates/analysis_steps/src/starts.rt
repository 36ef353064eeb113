//! The start.
ghost use Rattle.std.specs.Prelude.{◌≡◌, true, IfOk};
ghost use Rattle.semantics.specs.Evaluation.Numbers.{fits};
ghost use Rattle.linear.specs.Linear.{number};
ghost use Rattle.analysis_values.specs.Entries.{EntriesFit};
ghost use Rattle.analysis_walk.specs.Limits.{Scope};
ghost use Rattle.analysis_walk.specs.Conclusions.{DescribesStart};
ghost use Rattle.analysis_values.specs.Known.{IsDescribed};

use crate::times::later;
use analysis_values::Known;
use contract::{Memory, State};
use linear::Linear;
use std::alloc::Global;
use symbols::Symbols;

// It does nothing: each number of these entries has 128 bits.
fn see<K>(entries: &[(K, i128)])
    ensures { EntriesFit entries.now }
{
    for entry in entries {
        let _number = entry.1;
    }
}

// The minimum time of a state.
fn time_of(alloc: Global, state: &State) -> Linear
    ensures value { result ≡ number state.now.min_time }
    ensures fits { fits state.now.min_time ≡ true }
{
    Linear::number(alloc, i128::from(state.min_time()))
}

/// What is known before the first transaction: the entries of the state, and an interval that starts at its minimum
/// time or after it.
pub fn start(alloc: Global, state: &State) -> Result<Known, Memory>
    ensures { IfOk result (λ k. (scope : Scope) → DescribesStart IsDescribed scope k state.now) }
{
    // touch: the numbers have 128 bits
    see(state.accounts());
    see(state.choices());
    see(state.bound_values());
    let from = time_of(alloc, state);
    let to = time_of(alloc, state);
    let symbols = Symbols::new(alloc);
    let known = Known::of_state(alloc, state, symbols, from, to)?;
    later(known)
}
