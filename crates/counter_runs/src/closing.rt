//! A run that closes a contract.
ghost use Rattle.std.specs.Prelude.{◌≡◌, true, IfOk};
ghost use Rattle.contract.specs.Tree.{contract_tree};
ghost use Rattle.semantics.specs.Closing.{IsSpent};
ghost use Rattle.counter_runs.specs.Closing.{CanClose};

use contract::{Contract, Interval, Items, Memory, SemFault, State, Transaction};
use semantics::{Plain, Steps};
use std::alloc::{AllocError, Global};

/// Whether a run closes a contract from a state: none where nothing is left, and else one transaction without inputs, once
/// all timeouts are reached that it comes to. It is played. No other run is looked for, so there may be one where this says no;
/// but then in that transaction a number leaves 128 bits.
pub fn can_close(alloc: Global, contract: &Contract, state: &State) -> Result<bool, Memory>
    ensures { IfOk result (λ yes. yes ≡ true → CanClose state.now (contract_tree contract.now)) }
{
    if is_spent(contract, state) {
        return Ok(true);
    }
    let time = last_timeout(contract).max(state.min_time());
    let last = Transaction {
        interval: Interval {
            from: time,
            to: time,
        },
        inputs: Items::new(alloc),
    };
    is_closed_by(alloc, contract, state, &last)
}

// Whether a transaction closes it.
#[tactic(auto, using(crate::proofs::ClosingLemmas::closed_by))]
fn is_closed_by(
    alloc: Global,
    contract: &Contract,
    state: &State,
    last: &Transaction,
) -> Result<bool, Memory>
    ensures { IfOk result (λ yes. yes ≡ true → CanClose state.now (contract_tree contract.now)) }
{
    let played = Plain::new().compute(
        alloc,
        &contract,
        state,
        last.interval,
        last.inputs.as_slice(),
    );
    match played {
        Ok(outcome) => Ok(is_spent(outcome.place, &outcome.state)),
        Err(SemFault::Memory) => Err(AllocError),
        Err(_) => Ok(false),
    }
}

fn is_spent(contract: &Contract, state: &State) -> bool
    ensures { result ≡ true → IsSpent state.now (contract_tree contract.now) }
{
    match contract {
        Contract::Close => state.accounts().is_empty(),
        _ => false,
    }
}

// The last timeout that a transaction without inputs comes to; without one the first moment.
fn last_timeout(contract: &Contract) -> i64 {
    match contract {
        Contract::Close => i64::MIN,
        Contract::Pay(_, _, _, _, then) => last_timeout(then.get()),
        Contract::Let(_, _, then) => last_timeout(then.get()),
        Contract::Assert(_, then) => last_timeout(then.get()),
        Contract::When(_, timeout, then) => last_timeout(then.get()).max(*timeout),
        Contract::If(_, then, otherwise) => {
            let one = last_timeout(then.get());
            one.max(last_timeout(otherwise.get()))
        }
    }
}
