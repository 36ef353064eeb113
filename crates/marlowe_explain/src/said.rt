//! Explanations as they are written.
ghost use Rattle.std.specs.Prelude.{◌≡◌, [], IfOk, option_map};
ghost use Rattle.contract.specs.Tree.{contract_tree};
ghost use Rattle.marlowe_next.specs.Semantics.Transaction.{trimmed};
ghost use Rattle.marlowe_next.specs.Semantics.Walk.{standing};
ghost use Rattle.marlowe_explain.specs.Explained.{Says, TellsIfRefused, TellsUnmatched, TellsUseless, behind};

use crate::faults::{ambiguous_told, invalid_told, past_told, sum_told, value_told};
use crate::paths::behind;
use crate::standing::{next_text, unmatched_told, useless_told};
use contract::{Contract, Input, Interval, Memory, State, Transaction};
use explain_transactions::{Explanation, explain};
use json_members::Spelling;
use marlowe_next::{Left, PathStep, beside_dropped};
use std::alloc::{AllocError, Global};

/// Why a transaction on a contract and a state is refused: what the first fault is and where, as lines for people or members for
/// tools. None where the transaction is accepted.
pub fn explained(
    alloc: Global,
    contract: &Contract,
    state: &State,
    transaction: &Transaction,
    spelling: Spelling,
) -> Result<Option<Vec<u8>>, Memory>
    ensures { IfOk result (λ found. TellsIfRefused spelling (contract_tree contract.now) []
        (standing state.now (contract_tree contract.now)) transaction.now (option_map (λ text. text.items) found)) }
{
    told(alloc, contract, &[], contract, state, transaction, spelling)
}

/// The same of a transaction that comes behind others: it is refused on what they leave of a whole contract. Places are those of the whole
/// contract.
pub fn explained_behind(
    alloc: Global,
    whole: &Contract,
    left: &Left<'_>,
    transaction: &Transaction,
    spelling: Spelling,
) -> Result<Option<Vec<u8>>, Memory>
    ensures { IfOk result (λ found. TellsIfRefused spelling (contract_tree whole.now) left.now.path
        (standing left.now.state (contract_tree left.now.contract.now)) transaction.now (option_map (λ text. text.items) found)) }
{
    let path = left.path.as_slice();
    told(
        alloc,
        whole,
        path,
        left.contract,
        &left.state,
        transaction,
        spelling,
    )
}

// Of the part of a contract at the end of a path.
fn told(
    alloc: Global,
    whole: &Contract,
    path: &[PathStep],
    contract: &Contract,
    state: &State,
    transaction: &Transaction,
    spelling: Spelling,
) -> Result<Option<Vec<u8>>, Memory>
    ensures { IfOk result (λ found. TellsIfRefused spelling (contract_tree whole.now) path.now
        (standing state.now (contract_tree contract.now)) transaction.now (option_map (λ text. text.items) found)) }
{
    let interval = transaction.interval;
    let inputs = transaction.inputs.as_slice();
    match explain(alloc, contract, state, interval, inputs) {
        Ok(Some(explanation)) => {
            let text = said_behind(
                alloc,
                whole,
                path,
                state,
                interval,
                inputs,
                explanation,
                spelling,
            )?;
            Ok(Some(text))
        }
        Ok(None) => Ok(None),
        Err(_) => Err(AllocError),
    }
}

// The text of an explanation of the part at the end of a path.
fn said_behind(
    alloc: Global,
    whole: &Contract,
    path: &[PathStep],
    state: &State,
    interval: Interval,
    inputs: &[Input],
    explanation: Explanation<'_>,
    spelling: Spelling,
) -> Result<Vec<u8>, Memory>
    ensures { IfOk result (λ text. Says spelling interval state.now (contract_tree whole.now) inputs.now
        (behind path.now explanation.entry) text.items) }
{
    let there = behind(alloc, path, explanation)?;
    let said = said(alloc, whole, state, interval, inputs, &there, spelling);
    beside_dropped(there, said)
}

// The interval with its start moved up to the minimum time.
fn fixed(interval: Interval, state: &State) -> Interval
    ensures { result ≡ trimmed interval state.now }
{
    Interval {
        from: interval.from.max(state.min_time()),
        to: interval.to,
    }
}

// The text of an explanation.
fn said(
    alloc: Global,
    contract: &Contract,
    state: &State,
    interval: Interval,
    inputs: &[Input],
    explanation: &Explanation<'_>,
    spelling: Spelling,
) -> Result<Vec<u8>, Memory>
    ensures { IfOk result (λ text. Says spelling interval state.now (contract_tree contract.now) inputs.now explanation.now text.items) }
{
    let fixed = fixed(interval, state);
    match explanation {
        Explanation::InvalidInterval => invalid_told(alloc, interval, spelling),
        Explanation::IntervalInPast(least) => past_told(alloc, interval, *least, spelling),
        Explanation::Ambiguous(place, timeout) => ambiguous_told(
            alloc,
            contract,
            place.as_slice(),
            *timeout,
            fixed,
            spelling,
        ),
        Explanation::ValueLeaves(place) => value_told(alloc, contract, place.as_slice(), spelling),
        Explanation::SumLeaves(place, owner, token) => sum_told(
            alloc,
            contract,
            place.as_slice(),
            owner,
            token,
            spelling,
        ),
        Explanation::NoMatch(index, left) => unmatched(
            alloc, contract, fixed, inputs, *index, left, spelling,
        ),
        Explanation::Useless(left) => useless(alloc, contract, fixed, left, spelling),
    }
}

// An input that no case takes.
fn unmatched(
    alloc: Global,
    contract: &Contract,
    fixed: Interval,
    inputs: &[Input],
    index: usize,
    left: &Left<'_>,
    spelling: Spelling,
) -> Result<Vec<u8>, Memory>
    ensures { IfOk result (λ text. TellsUnmatched spelling fixed (contract_tree contract.now) inputs.now index left.now text.items) }
{
    match inputs.get(index) {
        Some(input) => {
            let next = next_text(alloc, contract, left, fixed, spelling)?;
            unmatched_told(
                alloc,
                contract,
                index,
                input,
                left.path.as_slice(),
                &next,
                spelling,
            )
        }
        None => Err(AllocError),
    }
}

// Nothing to do.
fn useless(
    alloc: Global,
    contract: &Contract,
    fixed: Interval,
    left: &Left<'_>,
    spelling: Spelling,
) -> Result<Vec<u8>, Memory>
    ensures { IfOk result (λ text. TellsUseless spelling fixed (contract_tree contract.now) left.now text.items) }
{
    let next = next_text(alloc, contract, left, fixed, spelling)?;
    useless_told(alloc, contract, left.path.as_slice(), &next, spelling)
}
