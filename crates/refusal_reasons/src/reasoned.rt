//! A run or a table whose refusal is explained at once, from what was read: no text is read twice.
ghost use Rattle.std.specs.Prelude.{◌≡◌, [], true, Some, Err, IfOk, MatchResult};
ghost use Rattle.contract.specs.Tree.{contract_tree};
ghost use Rattle.marlowe_explain.specs.Semantics.Walk.{standing};
ghost use Rattle.marlowe_explain.specs.JsonWriteContracts.WrittenContract.{contract_fits};
ghost use Rattle.marlowe_explain.specs.MarloweRun.Run.{run_from, run_within, transaction_text};
ghost use Rattle.marlowe_explain.specs.MarloweRun.Start.{state_reading};
ghost use Rattle.marlowe_explain.specs.MarloweRun.TableText.{printed_table, table_text_within};
ghost use Rattle.refusal_reasons.specs.Reasons.{Tells, TellsFrom, TellsIfRefused, TellsOfTable, TellsOne, TellsTable};
ghost use Rattle.refusal_reasons.specs.Reasoned.{IsReasoned, run_behind};
ghost use Rattle.refusal_reasons.specs.declared.source.Behind.TheVariants as behind;

use crate::looks::{Look, flat_look, look_at};
use crate::readers::{Contracts, States, Transactions};
use crate::second_look::{table_told, transaction_told};
use crate::source::Source;
use contract::{Contract, Memory, State, Transaction};
use explanations::{How, Spelling};
use marlowe_explain::{
    Readable, RunFault, TableFault, beside_dropped, outcome_text, printed_table,
    what_is_read_within_can_be_written,
};
use std::alloc::{AllocError, Global};

/// What a command answers, or why it refuses.
#[derive(Drop)]
pub enum Reasoned<F> {
    Answer(Vec<u8>),
    /// The fault, and what explains it: nothing for want of memory.
    Refused(F, Vec<u8>),
}

/// What `run_within` prints of a transaction, or why it is refused, with what `reasons` tells of that. Each text is read once.
pub fn run_reasoned(
    alloc: Global,
    contract: Source<'_>,
    state: Source<'_>,
    transaction: Source<'_>,
    readable: Readable,
    spelling: Spelling,
) -> Result<Reasoned<RunFault>, Memory>
    ensures { IfOk result (IsReasoned (run_within readable contract.entry.text.now state.entry.text.now transaction.entry.text.now)
        (λ written. Tells contract.entry (Some state.entry) readable (behind.One transaction.entry) spelling written)) }
{
    what_is_read_within_can_be_written();
    let how = How {
        depth: readable.depth,
        spelling,
    };
    match look_at(alloc, contract, &Contracts, how)? {
        Look::Read(whole) => {
            let texts = readable.text_numbers;
            let reasoned = from_state(alloc, &whole, state, transaction, texts, spelling);
            beside_dropped(whole, reasoned)
        }
        Look::Told(fault, written) => Ok(Reasoned::Refused(
            RunFault::of_contract(fault),
            if_written(alloc, written),
        )),
    }
}

// Then the state is read.
fn from_state(
    alloc: Global,
    whole: &Contract,
    state: Source<'_>,
    transaction: Source<'_>,
    texts: bool,
    spelling: Spelling,
) -> Result<Reasoned<RunFault>, Memory>
    requires { contract_fits (contract_tree whole.now) ≡ true }
    ensures { IfOk result (IsReasoned (run_from (state_reading texts) (contract_tree whole.now) state.entry.text.now transaction.entry.text.now)
        (λ written. TellsFrom spelling (Some state.entry) texts (behind.One transaction.entry) (contract_tree whole.now) written)) }
{
    match flat_look(alloc, state, &States { texts }, spelling)? {
        Look::Read(start) => {
            let reasoned = from_start(alloc, whole, &start, transaction, spelling);
            beside_dropped(start, reasoned)
        }
        Look::Told(fault, written) => Ok(Reasoned::Refused(
            RunFault::of_state(fault),
            if_written(alloc, written),
        )),
    }
}

// Then the transaction.
fn from_start(
    alloc: Global,
    whole: &Contract,
    start: &State,
    transaction: Source<'_>,
    spelling: Spelling,
) -> Result<Reasoned<RunFault>, Memory>
    requires { contract_fits (contract_tree whole.now) ≡ true }
    ensures { IfOk result (IsReasoned
        (run_behind (standing start.now (contract_tree whole.now)) transaction.entry.text.now)
        (λ written. TellsOne spelling (standing start.now (contract_tree whole.now)) transaction.entry written)) }
{
    match flat_look(alloc, transaction, &Transactions, spelling)? {
        Look::Read(transaction) => {
            let reasoned = run_on(alloc, whole, start, &transaction, spelling);
            beside_dropped(transaction, reasoned)
        }
        Look::Told(fault, written) => Ok(Reasoned::Refused(
            RunFault::of_transaction(fault),
            if_written(alloc, written),
        )),
    }
}

// What is printed of a transaction, or why it is refused.
fn run_on(
    alloc: Global,
    whole: &Contract,
    start: &State,
    transaction: &Transaction,
    spelling: Spelling,
) -> Result<Reasoned<RunFault>, Memory>
    requires { contract_fits (contract_tree whole.now) ≡ true }
    ensures { IfOk result (IsReasoned (transaction_text start.now (contract_tree whole.now) transaction.now)
        (λ written. TellsIfRefused spelling (contract_tree whole.now) [] (standing start.now (contract_tree whole.now)) transaction.now written)) }
{
    match outcome_text(alloc, whole, start, transaction) {
        Ok(text) => Ok(Reasoned::Answer(text)),
        Err(RunFault::Memory) => Err(AllocError),
        Err(fault) => Ok(run_refused(alloc, whole, start, transaction, fault, spelling)),
    }
}

// Why a transaction is refused by this fault.
fn run_refused(
    alloc: Global,
    whole: &Contract,
    start: &State,
    transaction: &Transaction,
    fault: RunFault,
    spelling: Spelling,
) -> Reasoned<RunFault>
    requires { transaction_text start.now (contract_tree whole.now) transaction.now ≡ Err fault }
    ensures { IsReasoned (transaction_text start.now (contract_tree whole.now) transaction.now)
        (λ written. TellsIfRefused spelling (contract_tree whole.now) [] (standing start.now (contract_tree whole.now)) transaction.now written) result }
{
    match transaction_told(alloc, whole, start, transaction, spelling) {
        Ok(told) => Reasoned::Refused(fault, told),
        Err(_) => Reasoned::Refused(fault, Vec::new(alloc)),
    }
}

// What was written, or nothing for want of memory.
fn if_written(alloc: Global, written: Result<Vec<u8>, Memory>) -> Vec<u8>
    ensures { MatchResult written (λ text. result.items ≡ text.items) (λ _. result.items ≡ []) }
{
    match written {
        Ok(text) => text,
        Err(_) => Vec::new(alloc),
    }
}

/// What `table_text_within` prints of a contract, or why it has no table, with what `table_reasons` tells of that. The text is read once.
pub fn table_reasoned(
    alloc: Global,
    contract: Source<'_>,
    depth: usize,
    spelling: Spelling,
) -> Result<Reasoned<TableFault>, Memory>
    ensures { IfOk result (IsReasoned (table_text_within depth contract.entry.text.now)
        (λ written. TellsOfTable contract.entry depth spelling written)) }
{
    let how = How { depth, spelling };
    match look_at(alloc, contract, &Contracts, how)? {
        Look::Read(whole) => {
            let reasoned = table_on(alloc, &whole, spelling);
            beside_dropped(whole, reasoned)
        }
        Look::Told(fault, written) => Ok(Reasoned::Refused(
            TableFault::of_contract(fault),
            if_written(alloc, written),
        )),
    }
}

fn table_on(
    alloc: Global,
    whole: &Contract,
    spelling: Spelling,
) -> Result<Reasoned<TableFault>, Memory>
    ensures { IfOk result (IsReasoned (printed_table (contract_tree whole.now))
        (λ written. TellsTable spelling (contract_tree whole.now) written)) }
{
    match printed_table(alloc, whole) {
        Ok(text) => Ok(Reasoned::Answer(text)),
        Err(TableFault::Memory) => Err(AllocError),
        Err(fault) => Ok(table_refused(alloc, whole, fault, spelling)),
    }
}

// Why a contract has no table, by this fault.
fn table_refused(
    alloc: Global,
    whole: &Contract,
    fault: TableFault,
    spelling: Spelling,
) -> Reasoned<TableFault>
    requires { printed_table (contract_tree whole.now) ≡ Err fault }
    ensures { IsReasoned (printed_table (contract_tree whole.now)) (λ written. TellsTable spelling (contract_tree whole.now) written) result }
{
    match table_told(alloc, whole, spelling) {
        Ok(told) => Reasoned::Refused(fault, told),
        Err(_) => Reasoned::Refused(fault, Vec::new(alloc)),
    }
}
