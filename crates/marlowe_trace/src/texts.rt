//! Transactions one after another, from text to text.
ghost use Rattle.std.specs.Prelude.{◌≡◌, true, IfOk, map, option_map};
ghost use Rattle.contract.specs.Collections.Answers.{AsideBy};
ghost use Rattle.contract.specs.Tree.{contract_tree};
ghost use Rattle.marlowe_run.specs.JsonWriteContracts.WrittenContract.{contract_fits};
ghost use Rattle.marlowe_trace.specs.Traced.{AllStatesReturn, CanBeWritten, StatesReturnFrom, trace_from, trace_text};

use crate::steps::traced;
use contract::Contract;
use json_read_transactions::read_transactions;
use marlowe_run::{
    Readable, RunFault, TraceFault, beside_dropped, read_contract_within, read_start,
    what_is_read_within_can_be_written,
};
use std::alloc::Global;

/// How transactions are traced.
#[derive(Clone, Copy, Debug)]
pub struct Asked {
    /// How deep the contract may nest, and whether a number of the state may be a text of its digits.
    pub readable: Readable,
    /// Whether the last outcome alone is printed.
    pub last: bool,
}

/// What is printed, and the first transaction that is refused.
#[derive(Drop)]
pub struct Traced {
    /// The line of each outcome, as `run` prints it, or of the last alone.
    pub text: Vec<u8>,
    /// The transaction that is refused, by its number. What comes behind it is not computed.
    pub refused: Option<TraceFault>,
}

/// Computes the transactions of texts one after another, each from where the one before it left contract and state (Marlowe
/// specification version 3, "Compute transaction"), up to the first that is refused, and prints the outcome of each, or only that
/// of the last, where none is refused. Each text has at most 1,048,576 bytes. Without a state the contract starts without entries,
/// at time 0. Contract, state and then all texts are read before anything is computed, and the first fault is told.
#[tactic(auto, unfolding(crate::specs::Traced::trace_text))]
pub fn trace(
    alloc: Global,
    contract: &[u8],
    state: Option<&[u8]>,
    transactions: &[Vec<u8>],
    asked: Asked,
) -> Result<Traced, TraceFault>
    ensures told { AsideBy (TraceFault.Run RunFault.Memory) (λ traced. (traced.text.items, traced.refused)) result
        (trace_text asked contract.now (option_map (λ text. text.now) state.entry) (map (λ text. text.items) transactions.now)) }
    ensures states { IfOk result (λ _. AllStatesReturn asked contract.now
        (option_map (λ text. text.now) state.entry) (map (λ text. text.items) transactions.now)) }
    ensures written { CanBeWritten result }
{
    what_is_read_within_can_be_written();
    match read_contract_within(alloc, contract, asked.readable.depth) {
        Ok(contract) => {
            let traced = trace_from(alloc, &contract, state, transactions, asked);
            beside_dropped(contract, traced)
        }
        Err(fault) => Err(TraceFault::Run(RunFault::of_contract(fault))),
    }
}

// The state and the transactions are read, and then the transactions are computed.
#[tactic(auto, unfolding(crate::specs::Traced::trace_from))]
fn trace_from(
    alloc: Global,
    contract: &Contract,
    state: Option<&[u8]>,
    transactions: &[Vec<u8>],
    asked: Asked,
) -> Result<Traced, TraceFault>
    requires { contract_fits (contract_tree contract.now) ≡ true }
    ensures told { AsideBy (TraceFault.Run RunFault.Memory) (λ traced. (traced.text.items, traced.refused)) result
        (trace_from asked (contract_tree contract.now)
        (option_map (λ text. text.now) state.entry) (map (λ text. text.items) transactions.now)) }
    ensures states { IfOk result (λ _. StatesReturnFrom asked (contract_tree contract.now)
        (option_map (λ text. text.now) state.entry) (map (λ text. text.items) transactions.now)) }
    ensures written { CanBeWritten result }
{
    let state = read_start(alloc, state, asked.readable.text_numbers).map_err(RunFault::of_state)?;
    let transactions = read_transactions(alloc, transactions)?;
    let traced = traced(alloc, contract, state, transactions.as_slice(), asked.last)?;
    Ok(traced)
}
