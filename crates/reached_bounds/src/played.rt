//! Runs that are played again.
ghost use Rattle.std.specs.Prelude.{◌≡◌, ◌++◌, [], true, IfOk, IfSome, OnOk, Ok};
ghost use Rattle.contract.specs.Tree.{contract_tree};
ghost use Rattle.semantics.specs.Walk.{standing, answer_of};
ghost use Rattle.semantics.specs.Closing.{IsSpent};
ghost use Rattle.analysis_spec.specs.Runs.{walk_from};
ghost use Rattle.reached_bounds.specs.ReachedSupport.{IsPlayed};

use contract::{Contract, Items, Memory, Outcome, Payment, SemFault, State, Transaction, TryClone};
use semantics::{Plain, Steps};
use std::alloc::{AllocError, Global};

/// What came of a run, each of whose transactions was accepted.
#[derive(Drop)]
pub struct Played {
    /// All that it paid, in order.
    pub payments: Items<Payment>,
    /// Whether nothing is left in the contract.
    pub is_spent: bool,
}

/// Plays a run from a state, transaction by transaction; none where one is refused.
pub fn play(
    alloc: Global,
    contract: &Contract,
    state: &State,
    run: &[Transaction],
) -> Result<Option<Played>, Memory>
    ensures { IfOk result (λ o. IfSome o (IsPlayed (standing state.now (contract_tree contract.now)) [] run.now)) }
{
    let state = state.try_clone()?;
    play_on(alloc, contract, state, Items::new(alloc), run)
}

// .. where so much was paid before.
#[tactic(auto, using(crate::proofs::PlayedLemmas::none_played))]
fn play_on(
    alloc: Global,
    contract: &Contract,
    state: State,
    before: Items<Payment>,
    run: &[Transaction],
) -> Result<Option<Played>, Memory>
    ensures { IfOk result (λ o. IfSome o (IsPlayed (standing state (contract_tree contract.now)) before run.now)) }
{
    match run {
        [] => Ok(Some(Played {
            payments: before,
            is_spent: is_spent(contract, &state),
        })),
        [first, rest @ ..] => match outcome_of(alloc, contract, &state, first)? {
            Some(outcome) => {
                let Outcome {
                    warnings: _,
                    payments,
                    state,
                    place,
                } = outcome;
                let paid = joined(before, payments)?;
                play_on(alloc, place, state, paid, rest)
            }
            None => Ok(None),
        },
    }
}

// The outcome of a transaction, if it is accepted.
fn outcome_of<'c>(
    alloc: Global,
    contract: &'c Contract,
    state: &State,
    transaction: &Transaction,
) -> Result<Option<Outcome<&'c Contract>>, Memory>
    ensures answer { IfOk result (λ o. IfSome o (λ outcome.
        answer_of (walk_from (standing state.now (contract_tree contract.now)) transaction.now)
        ≡ Ok (standing outcome.state (contract_tree outcome.place.now)))) }
    ensures payments { IfOk result (λ o. IfSome o (λ outcome.
        outcome.payments ≡ (walk_from (standing state.now (contract_tree contract.now)) transaction.now).payments)) }
{
    let inputs = transaction.inputs.as_slice();
    let interval = transaction.interval;
    match Plain::new().compute(alloc, &contract, state, interval, inputs) {
        Ok(outcome) => Ok(Some(outcome)),
        Err(SemFault::Memory) => Err(AllocError),
        Err(_) => Ok(None),
    }
}

// Payments behind others.
fn joined(before: Items<Payment>, more: Items<Payment>) -> Result<Items<Payment>, Memory>
    ensures { IfOk result (λ all. all ≡ before ++ more) }
{
    let mut all = before;
    for payment in more.into_vec() {
        all.push(payment)?;
    }
    Ok(all)
}

fn is_spent(contract: &Contract, state: &State) -> bool
    ensures { result ≡ true → IsSpent state.now (contract_tree contract.now) }
{
    match contract {
        Contract::Close => state.accounts().is_empty(),
        _ => false,
    }
}
