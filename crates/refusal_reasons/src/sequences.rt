//! Transactions one after another.
ghost use Rattle.std.specs.Prelude.{◌≡◌, Some, IfOk, IfSome, slice_get};
ghost use Rattle.contract.specs.Tree.{contract_tree};
ghost use Rattle.marlowe_explain.specs.Semantics.Walk.{standing};
ghost use Rattle.refusal_reasons.specs.Reasons.{TellsIfRefused, TellsMany, TellsOver, TellsRead, TellsRefused, TellsTransaction, interval_of};

use crate::pieces::piece_told;
use crate::second_look::written_if;
use crate::source::{Over, Sources};
use contract::{Contract, Interval, Items, Memory, SemFault, State, Transaction};
use explanations::Spelling;
use marlowe_explain::{
    Left, ReadFault, after, beside_dropped, explained_behind, read_transactions,
};
use std::alloc::{AllocError, Global};

/// Why transactions of texts one after another are refused, or what may come behind them.
#[tactic(auto, using(crate::proofs::SequenceLemmas::these_told, crate::proofs::SequenceLemmas::these_unread))]
pub(crate) fn sequence_told(
    alloc: Global,
    whole: &Contract,
    start: &State,
    sources: Sources<'_>,
    over: Option<Over>,
    spelling: Spelling,
) -> Result<Vec<u8>, Memory>
    ensures { IfOk result (λ written.
        TellsMany spelling over (standing start.now (contract_tree whole.now)) sources.entry written.items) }
{
    match read_transactions(alloc, sources.texts) {
        Ok(transactions) => {
            let list = transactions.as_slice();
            let written = read_told(alloc, whole, start, list, over, spelling);
            beside_dropped(transactions, written)
        }
        Err(ReadFault::Memory) => Err(AllocError),
        Err(ReadFault::TooMany) => Ok(Vec::new(alloc)),
        Err(ReadFault::Text(number, _)) => piece_told(alloc, sources, number, spelling),
    }
}

/// Why the first of transactions one after another is refused, from where those before it lead; or what is asked about behind all of them,
/// if that is.
#[tactic(auto, using(crate::proofs::SequenceLemmas::over_told, crate::proofs::SequenceLemmas::read_refused))]
pub fn read_told(
    alloc: Global,
    whole: &Contract,
    start: &State,
    transactions: &[Transaction],
    over: Option<Over>,
    spelling: Spelling,
) -> Result<Vec<u8>, Memory>
    ensures { IfOk result (λ written.
        TellsRead spelling over (standing start.now (contract_tree whole.now)) transactions.now written.items) }
{
    match after(alloc, whole, start, transactions) {
        Ok(left) => {
            let written = over_told(alloc, whole, &left, over, spelling);
            beside_dropped(left, written)
        }
        Err(refused) => match refused.fault {
            SemFault::Memory => Err(AllocError),
            _ => refused_told(alloc, whole, start, transactions, refused.index, spelling),
        },
    }
}

// The transaction at an index, from where those before it lead.
#[tactic(auto, using(crate::proofs::SequenceLemmas::refused_told))]
fn refused_told(
    alloc: Global,
    whole: &Contract,
    start: &State,
    transactions: &[Transaction],
    index: usize,
    spelling: Spelling,
) -> Result<Vec<u8>, Memory>
    ensures { IfOk result (λ written.
        TellsRefused spelling (standing start.now (contract_tree whole.now)) transactions.now written.items) }
{
    let Some(transaction) = transaction_at(transactions, index) else {
        return Err(AllocError);
    };
    match after(alloc, whole, start, &transactions[..index]) {
        Ok(left) => {
            let written = left_told(alloc, whole, &left, transaction, spelling);
            beside_dropped(left, written)
        }
        Err(_) => Err(AllocError),
    }
}

fn transaction_at(transactions: &[Transaction], index: usize) -> Option<&Transaction>
    ensures { IfSome result (λ transaction. slice_get transactions.now index ≡ Some transaction.now) }
{
    if index < transactions.len() {
        Some(&transactions[index])
    } else {
        None
    }
}

// What may come over an interval, if one is asked about: a transaction without inputs.
fn over_told(
    alloc: Global,
    whole: &Contract,
    left: &Left<'_>,
    over: Option<Over>,
    spelling: Spelling,
) -> Result<Vec<u8>, Memory>
    ensures { IfOk result (λ written. TellsOver spelling (contract_tree whole.now) over written.items left.now.path
        (standing left.now.state (contract_tree left.now.contract.now))) }
{
    let Some(over) = over else {
        return Ok(Vec::new(alloc));
    };
    let transaction = Transaction {
        interval: interval_of(over, &left.state),
        inputs: Items::new(alloc),
    };
    let written = told_if_refused(alloc, whole, left, &transaction, spelling);
    beside_dropped(transaction, written)
}

fn interval_of(over: Over, state: &State) -> Interval
    ensures { result ≡ interval_of over state.now.min_time }
{
    let from = over.from.unwrap_or(state.min_time());
    let to = over.to.unwrap_or(from);
    Interval { from, to }
}

// Why a transaction is refused where others have led.
fn left_told(
    alloc: Global,
    whole: &Contract,
    left: &Left<'_>,
    transaction: &Transaction,
    spelling: Spelling,
) -> Result<Vec<u8>, Memory>
    ensures { IfOk result (λ written. TellsTransaction spelling (contract_tree whole.now) left.now.path
        (standing left.now.state (contract_tree left.now.contract.now)) transaction.now written.items) }
{
    match explained_behind(alloc, whole, left, transaction, spelling)? {
        Some(text) => Ok(text),
        None => Err(AllocError),
    }
}

// .. if it is.
#[tactic(auto, using(crate::proofs::ReadingLemmas::any_written))]
fn told_if_refused(
    alloc: Global,
    whole: &Contract,
    left: &Left<'_>,
    transaction: &Transaction,
    spelling: Spelling,
) -> Result<Vec<u8>, Memory>
    ensures { IfOk result (λ written. TellsIfRefused spelling (contract_tree whole.now) left.now.path
        (standing left.now.state (contract_tree left.now.contract.now)) transaction.now written.items) }
{
    let found = explained_behind(alloc, whole, left, transaction, spelling)?;
    Ok(written_if(alloc, found))
}
