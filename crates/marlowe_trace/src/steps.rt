//! Transactions one after another, and the lines of their outcomes.
ghost use Rattle.std.specs.Prelude.{◌≡◌, ◌≢◌, ◌+◌, ◌<◌, ◌==◌, ◌||◌, not, ◌++◌, [], true, Ok, IfOk, MatchResult, if◌then◌else◌};
ghost use Rattle.contract.specs.Collections.Answers.{AsideBy};
ghost use Rattle.contract.specs.Tree.{contract_tree};
ghost use Rattle.marlowe_run.specs.JsonWriteContracts.WrittenContract.{contract_fits};
ghost use Rattle.marlowe_run.specs.JsonReadInputs.ReadsState.{state_with_texts};
ghost use Rattle.marlowe_run.specs.JsonWriteOutcomes.WrittenOutcome.{state_json};
ghost use Rattle.marlowe_run.specs.Semantics.Walk.{standing, answer_of};
ghost use Rattle.analysis_spec.specs.Runs.{walk_from};
ghost use Rattle.marlowe_trace.specs.Traced.{StatesReturn, line_of, told_of};

use crate::texts::Traced;
use contract::{Contract, Memory, SemFault, State, Transaction};
use marlowe_run::{
    Plain, Steps, TraceFault, outcome_line, parts_can_be_written, state_is_read_back,
};
use std::alloc::{AllocError, Global};

// Where a contract stands between two transactions.
#[derive(Drop)]
struct Place<'c> {
    state: State,
    contract: &'c Contract,
}

/// What is printed of transactions from where a contract stands: what `trace` prints once all is read, of each outcome or of the `last`
/// alone. JSON has all numbers of the contract, as of each that was read.
pub fn traced(
    alloc: Global,
    contract: &Contract,
    state: State,
    transactions: &[Transaction],
    last: bool,
) -> Result<Traced, Memory>
    requires { contract_fits (contract_tree contract.now) ≡ true }
    ensures told { IfOk result (λ traced. (traced.text.items, traced.refused)
        ≡ told_of last (standing state (contract_tree contract.now)) transactions.now) }
    ensures states { IfOk result (λ _. StatesReturn (standing state (contract_tree contract.now)) transactions.now) }
{
    let mut text = Vec::new(alloc);
    let mut place = Place { state, contract };
    for index in 0..transactions.len() {
        let is_printed = is_printed(last, index, transactions.len());
        match step(alloc, &mut text, place, &transactions[index], is_printed) {
            Ok(next) => place = next,
            Err(SemFault::Memory) => return Err(AllocError),
            Err(fault) => {
                let refused = Some(TraceFault::Refused(index as u64 + 1, fault));
                return Ok(Traced { text, refused });
            }
        }
    }
    Ok(Traced {
        text,
        refused: None,
    })
}

// Whether the outcome of the transaction at an index is printed, of so many: each is, or the last alone.
fn is_printed(last: bool, index: usize, count: usize) -> bool
    requires { index < count }
    ensures { result ≡ (not last || (index + 1 == count)) }
{
    !last || index + 1 == count
}

// One transaction: where it leaves the contract. The line of its outcome goes behind the text, if it is printed.
fn step<'c>(
    alloc: Global,
    text: &mut Vec<u8>,
    place: Place<'c>,
    transaction: &Transaction,
    is_printed: bool,
) -> Result<Place<'c>, SemFault>
    requires { contract_fits (contract_tree place.contract.now) ≡ true }
    ensures answer { AsideBy SemFault.Memory (λ next. standing next.state (contract_tree next.contract.now)) result
        (answer_of (walk_from (standing place.entry.state (contract_tree place.entry.contract.now)) transaction.now)) }
    ensures text { MatchResult result
        (λ _. text.new.items ≡ text.old.items ++ (if is_printed
        then line_of (walk_from (standing place.entry.state (contract_tree place.entry.contract.now)) transaction.now) else []))
        (λ fault. fault ≢ SemFault.Memory → text.new.items ≡ text.old.items) }
    ensures fits { IfOk result (λ next. contract_fits (contract_tree next.contract.now) ≡ true) }
    ensures returns { IfOk result (λ next. state_with_texts (state_json next.state) ≡ Ok next.state) }
{
    // touch: what remains can be written
    parts_can_be_written();
    let outcome = Plain::new().compute(
        alloc,
        &place.contract,
        &place.state,
        transaction.interval,
        transaction.inputs.as_slice(),
    )?;
    // touch: the state is read as it was
    state_is_read_back(&outcome.state);
    if is_printed {
        let line = outcome_line(alloc, &outcome)?;
        text.extend_from_slice(&line)?;
    }
    Ok(Place {
        state: outcome.state,
        contract: outcome.place,
    })
}
