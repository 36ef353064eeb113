//! The first text that isn't read, or what is refused once all are read.
ghost use Rattle.std.specs.Prelude.{◌≡◌, [], Some, IfOk, MatchOption};
ghost use Rattle.contract.specs.Tree.{contract_tree};
ghost use Rattle.marlowe_explain.specs.Semantics.Walk.{standing};
ghost use Rattle.refusal_reasons.specs.Reasons.{Tells, TellsFrom, TellsIfRefused, TellsNext, TellsOfTable, TellsOne, TellsTable};

use crate::looks::{Look, flat_look, look_at};
use crate::readers::{Contracts, States, Transactions};
use crate::sequences::sequence_told;
use crate::source::{Behind, Source};
use contract::{Contract, Memory, State, Transaction};
use explanations::{How, Spelling};
use marlowe_explain::{Readable, beside_dropped};
use std::alloc::Global;

/// Why a command refuses that reads a contract and then a state, if one is given, and has this behind them; `readable` tells which texts
/// are read. It is written in lines or members. `Memory` where memory was refused; there are no bytes only where nothing is refused, or of
/// too many transactions.
#[tactic(auto, using(crate::proofs::ReadingLemmas::behind_read, crate::proofs::ReadingLemmas::unread_told))]
pub fn reasons(
    alloc: Global,
    contract: Source<'_>,
    state: Option<Source<'_>>,
    readable: Readable,
    behind: Behind<'_>,
    spelling: Spelling,
) -> Result<Vec<u8>, Memory>
    ensures { IfOk result (λ written. Tells contract.entry state.entry readable behind.entry spelling written.items) }
{
    let how = How {
        depth: readable.depth,
        spelling,
    };
    match look_at(alloc, contract, &Contracts, how)? {
        Look::Read(whole) => {
            let texts = readable.text_numbers;
            let written = from_state(alloc, &whole, state, texts, behind, spelling);
            beside_dropped(whole, written)
        }
        Look::Told(_, written) => written,
    }
}

// Then the state.
#[tactic(auto, using(crate::proofs::ReadingLemmas::behind_read, crate::proofs::ReadingLemmas::unread_told))]
fn from_state(
    alloc: Global,
    whole: &Contract,
    state: Option<Source<'_>>,
    texts: bool,
    behind: Behind<'_>,
    spelling: Spelling,
) -> Result<Vec<u8>, Memory>
    ensures { IfOk result (λ written.
        TellsFrom spelling state.entry texts behind.entry (contract_tree whole.now) written.items) }
{
    match state {
        Some(source) => from_given(alloc, whole, source, texts, behind, spelling),
        None => {
            let start = State::new(alloc, 0);
            let written = from_behind(alloc, whole, &start, behind, spelling);
            beside_dropped(start, written)
        }
    }
}

// .. one that is given.
#[tactic(auto, using(crate::proofs::ReadingLemmas::behind_read, crate::proofs::ReadingLemmas::unread_told))]
fn from_given(
    alloc: Global,
    whole: &Contract,
    state: Source<'_>,
    texts: bool,
    behind: Behind<'_>,
    spelling: Spelling,
) -> Result<Vec<u8>, Memory>
    ensures { IfOk result (λ written.
        TellsFrom spelling (Some state.entry) texts behind.entry (contract_tree whole.now) written.items) }
{
    match flat_look(alloc, state, &States { texts }, spelling)? {
        Look::Read(start) => {
            let written = from_behind(alloc, whole, &start, behind, spelling);
            beside_dropped(start, written)
        }
        Look::Told(_, written) => written,
    }
}

// Then what is behind them.
fn from_behind(
    alloc: Global,
    whole: &Contract,
    start: &State,
    behind: Behind<'_>,
    spelling: Spelling,
) -> Result<Vec<u8>, Memory>
    ensures { IfOk result (λ written.
        TellsNext spelling (standing start.now (contract_tree whole.now)) behind.entry written.items) }
{
    match behind {
        Behind::Nothing => Ok(Vec::new(alloc)),
        Behind::One(source) => from_one(alloc, whole, start, source, spelling),
        Behind::Many(sources) => sequence_told(alloc, whole, start, sources, None, spelling),
        Behind::Next(sources, over) => sequence_told(
            alloc,
            whole,
            start,
            sources,
            Some(over),
            spelling,
        ),
    }
}

// One transaction.
#[tactic(auto, using(crate::proofs::ReadingLemmas::behind_read, crate::proofs::ReadingLemmas::unread_told))]
fn from_one(
    alloc: Global,
    whole: &Contract,
    start: &State,
    source: Source<'_>,
    spelling: Spelling,
) -> Result<Vec<u8>, Memory>
    ensures { IfOk result (λ written.
        TellsOne spelling (standing start.now (contract_tree whole.now)) source.entry written.items) }
{
    match flat_look(alloc, source, &Transactions, spelling)? {
        Look::Read(transaction) => {
            let written = transaction_told(alloc, whole, start, &transaction, spelling);
            beside_dropped(transaction, written)
        }
        Look::Told(_, written) => written,
    }
}

/// Why a transaction is refused, if it is; else there are no bytes.
#[tactic(auto, using(crate::proofs::ReadingLemmas::any_written))]
pub fn transaction_told(
    alloc: Global,
    whole: &Contract,
    start: &State,
    transaction: &Transaction,
    spelling: Spelling,
) -> Result<Vec<u8>, Memory>
    ensures { IfOk result (λ written. TellsIfRefused spelling (contract_tree whole.now) []
        (standing start.now (contract_tree whole.now)) transaction.now written.items) }
{
    let found = marlowe_explain::explained(alloc, whole, start, transaction, spelling)?;
    Ok(written_if(alloc, found))
}

/// What is written, if something is.
pub(crate) fn written_if(alloc: Global, found: Option<Vec<u8>>) -> Vec<u8>
    ensures { MatchOption found (result.items ≡ []) (λ text. result.items ≡ text.items) }
{
    match found {
        Some(text) => text,
        None => Vec::new(alloc),
    }
}

/// Why `table` refuses a contract, which isn't read or has no table. Its lists and objects may nest so deep.
#[tactic(auto, using(crate::proofs::ReadingLemmas::behind_read, crate::proofs::ReadingLemmas::unread_told))]
pub fn table_reasons(
    alloc: Global,
    contract: Source<'_>,
    depth: usize,
    spelling: Spelling,
) -> Result<Vec<u8>, Memory>
    ensures { IfOk result (λ written. TellsOfTable contract.entry depth spelling written.items) }
{
    let how = How { depth, spelling };
    match look_at(alloc, contract, &Contracts, how)? {
        Look::Read(whole) => {
            let written = table_told(alloc, &whole, spelling);
            beside_dropped(whole, written)
        }
        Look::Told(_, written) => written,
    }
}

/// Why a contract has no table, if it has none; else there are no bytes.
#[tactic(auto, using(crate::proofs::ReadingLemmas::any_written))]
pub fn table_told(alloc: Global, whole: &Contract, spelling: Spelling) -> Result<Vec<u8>, Memory>
    ensures { IfOk result (λ written. TellsTable spelling (contract_tree whole.now) written.items) }
{
    let found = explain_tables::explained(alloc, whole, spelling)?;
    Ok(written_if(alloc, found))
}
