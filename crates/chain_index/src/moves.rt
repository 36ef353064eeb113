//! Moves of contracts.
ghost use Rattle.std.specs.Prelude.{◌≡◌, ◌++◌, ◌∷◌, [], false, Some, OnOk, OnErr, IfOk};
ghost use Rattle.std.specs.Map.{keys_of};
ghost use Rattle.ledger_spec.specs.EutxoTypes.Ids.{id_of};
ghost use Rattle.ledger_spec.specs.LedgerLaws.Threads.{next_in};
ghost use Rattle.chain_index.specs.Contents.{is_among};
ghost use Rattle.chain_index.specs.Moves.{step_at, along, leads};

use indexmap::IndexMap;
use ledger_spec::{Items, Memory, OutputRef, Tx};
use std::alloc::{AllocError, Global};

/// What an accepted transaction did to a contract output that it spent.
#[derive(Clone, Copy)]
pub struct Move {
    /// The transaction's place among the accepted ones, counted from 0.
    pub number: u64,
    /// The thread's next output, where the thread goes on.
    pub next: Option<OutputRef>,
}

/// A step of a thread.
#[derive(Clone, Copy)]
pub struct StepPlace {
    /// The thread's output that the transaction spends.
    pub spends: OutputRef,
    /// The transaction's place among the accepted ones, counted from 0.
    pub number: u64,
}

/// The output in which a contract goes on in a transaction, whose id is lent: in the output at a place, where that is a
/// contract's.
pub(crate) fn next_in(tx: &Tx, id: &[u8; 32], place: Option<u64>) -> Option<OutputRef>
    requires { id.now ≡ id_of tx.now }
    ensures { result ≡ next_in tx.now place }
{
    match place {
        Some(index) => {
            if tx.contract_at(index).is_some() {
                Some(OutputRef::Made { id: *id, index })
            } else {
                None
            }
        }
        None => None,
    }
}

/// Adds a move under an output that had none. A refusal for memory changes nothing.
pub(crate) fn put_move(
    moves: &mut IndexMap<OutputRef, Move>,
    spends: OutputRef,
    step: Move,
) -> Result<(), Memory>
    requires { is_among (keys_of moves.old.entries) spends ≡ false }
    ensures ok { OnOk result (moves.new.entries ≡ moves.old.entries ++ (spends, step) ∷ []) }
    ensures err { OnErr result (moves.new.entries ≡ moves.old.entries) }
{
    match moves.insert(spends, step) {
        Ok(_) => Ok(()),
        Err(_) => Err(AllocError),
    }
}

// The step that spends an output, and where the thread stands then.
fn step_from(
    moves: &IndexMap<OutputRef, Move>,
    spends: OutputRef,
) -> Option<(StepPlace, Option<OutputRef>)>
    ensures { result ≡ step_at (Some spends) moves.now.entries }
{
    match moves.get(&spends) {
        Some(step) => {
            let number = step.number;
            Some((StepPlace { spends, number }, step.next))
        }
        None => None,
    }
}

// The step of the thread that stands at an output, and where it stands then.
fn step_at(
    moves: &IndexMap<OutputRef, Move>,
    at: Option<OutputRef>,
) -> Option<(StepPlace, Option<OutputRef>)>
    ensures { result ≡ step_at at moves.now.entries }
{
    match at {
        Some(spends) => step_from(moves, spends),
        None => None,
    }
}

/// The steps of the thread from an output, in order. Each costs one look-up.
pub(crate) fn steps_along(
    alloc: Global,
    moves: &IndexMap<OutputRef, Move>,
    start: OutputRef,
) -> Result<Items<StepPlace>, Memory>
    ensures { IfOk result (λ steps. steps ≡ along start moves.now.entries) }
{
    let mut steps = Items::new(alloc);
    let mut at = Some(start);
    for _ in 0..moves.len() {
        match step_at(moves, at) {
            Some((step, next)) => {
                steps.push(step)?;
                at = next;
            }
            None => return Ok(steps),
        }
    }
    Ok(steps)
}

/// Where the thread from an output ends. Each of its steps costs one look-up.
pub(crate) fn end_along(moves: &IndexMap<OutputRef, Move>, start: OutputRef) -> Option<OutputRef>
    ensures { result ≡ leads start moves.now.entries }
{
    let mut at = Some(start);
    for _ in 0..moves.len() {
        match step_at(moves, at) {
            Some((_, next)) => at = next,
            None => return at,
        }
    }
    at
}
