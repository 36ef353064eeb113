//! Whether a run reaches a bound.
ghost use Rattle.std.specs.Prelude.{◌≡◌, true, Some, ◌-ℤ◌, IfOk, IfSome};
ghost use Rattle.std.specs.Option.{IsSomeAnd};
ghost use Rattle.contract.specs.Tree.{contract_tree};
ghost use Rattle.analysis_spec.specs.Runs.{paid_to};
ghost use Rattle.reached_bounds.specs.Reached.{Pays, PaysAndCloses, Loses};
ghost use Rattle.reached_bounds.specs.ReachedSupport.{brought_by_all};

use crate::played::{Played, play};
use crate::sums::{brought, paid};
use analysis_spec::PaidRange;
use contract::{Contract, Memory, State, Transaction};
use losses::Loss;
use std::alloc::Global;

/// Whether a run pays as much as a range has at most.
#[tactic(auto, using(crate::proofs::PlayedLemmas::most_so))]
pub fn reaches_most(
    alloc: Global,
    contract: &Contract,
    state: &State,
    range: &PaidRange,
    run: &[Transaction],
) -> Result<bool, Memory>
    ensures { IfOk result (λ yes. yes ≡ true → IsSomeAnd range.now.most (λ n.
        Pays range.now.party range.now.token n state.now (contract_tree contract.now) run.now)) }
{
    match play(alloc, contract, state, run)? {
        Some(it) => Ok(pays(&it, range, range.most)),
        None => Ok(false),
    }
}

/// Whether one that closes the contract pays as little as a range has at least.
#[tactic(auto, using(crate::proofs::PlayedLemmas::least_so))]
pub fn reaches_least(
    alloc: Global,
    contract: &Contract,
    state: &State,
    range: &PaidRange,
    run: &[Transaction],
) -> Result<bool, Memory>
    ensures { IfOk result (λ yes. yes ≡ true → IsSomeAnd range.now.least (λ n.
        PaysAndCloses range.now.party range.now.token n state.now (contract_tree contract.now) run.now)) }
{
    match play(alloc, contract, state, run)? {
        Some(it) => Ok(it.is_spent && pays(&it, range, range.least)),
        None => Ok(false),
    }
}

/// Whether a party loses as much by one that closes the contract as is told at most.
pub fn reaches_loss(
    alloc: Global,
    contract: &Contract,
    state: &State,
    loss: &Loss,
    run: &[Transaction],
) -> Result<bool, Memory>
    ensures { IfOk result (λ yes. yes ≡ true → IsSomeAnd loss.now.most (λ n.
        Loses loss.now.party loss.now.token n state.now (contract_tree contract.now) run.now)) }
{
    match play(alloc, contract, state, run)? {
        Some(it) => Ok(it.is_spent && loses(&it, loss, run)),
        None => Ok(false),
    }
}

/// Whether what was played pays just so much of a range's token to its party.
pub fn pays(it: &Played, range: &PaidRange, number: Option<i128>) -> bool
    ensures { result ≡ true → number ≡ Some (paid_to range.now.party range.now.token it.now.payments) }
{
    let sum = paid(&range.party, &range.token, it.payments.as_slice());
    are_equal(sum, number)
}

/// Whether a party loses as much by it as is told at most.
pub fn loses(it: &Played, loss: &Loss, run: &[Transaction]) -> bool
    ensures { result ≡ true → loss.now.most ≡ Some (brought_by_all loss.now.party loss.now.token run.now
        -ℤ paid_to loss.now.party loss.now.token it.now.payments) }
{
    let out = paid(&loss.party, &loss.token, it.payments.as_slice());
    let given = brought(&loss.party, &loss.token, run);
    are_equal(difference(given, out), loss.most)
}

// Whether two numbers are known, and equal.
fn are_equal(a: Option<i128>, b: Option<i128>) -> bool
    ensures { result ≡ true → IsSomeAnd a (λ n. b ≡ Some n) }
{
    match (a, b) {
        (Some(a), Some(b)) => a == b,
        _ => false,
    }
}

// The first less the second, where both are known and it has 128 bits.
fn difference(a: Option<i128>, b: Option<i128>) -> Option<i128>
    ensures { IfSome result (λ n. IsSomeAnd a (λ m. IsSomeAnd b (λ k. n ≡ m -ℤ k))) }
{
    match (a, b) {
        (Some(a), Some(b)) => a.checked_sub(b),
        _ => None,
    }
}
