//! What can be done next, from text to text.
ghost use Rattle.std.specs.Prelude.{◌≡◌, ◌≢◌, ◌+◌, ◌<◌, IfOk, Ok, Some};
ghost use Rattle.contract.specs.Collections.Answers.{AsideBy};
ghost use Rattle.contract.specs.Tree.{contract_tree};
ghost use Rattle.marlowe_run.specs.MarloweRefusals.TraceFaults.{refused_fault};
ghost use Rattle.marlowe_next.specs.Question.{answered, reached_at, reached_by, reached_from, reached_given, reached_with, text_given, texts_given};
ghost use Rattle.marlowe_next.specs.Answer.{IsAnswer, IsAnswerUpTo};
ghost use Rattle.marlowe_next.specs.AnswerSupport.{Answers, AnswersUpTo};

use crate::asked::{Asked, interval_of};
use crate::told_here::settled_text;
use contract::{Contract, SemFault, State, Transaction};
use json_read_transactions::read_transactions;
use marlowe_run::{RunFault, TraceFault, beside_dropped, read_contract_within, read_start};
use std::alloc::Global;
use trace::{Left, Refused, settle};

/// What can be done next with a contract from a state, after transactions, all as JSON texts of at most 1,048,576 bytes: lines
/// for people, or one line of JSON. It tells the inputs of which the next transaction may bring one, and whether what follows is
/// then refused; until when the contract waits; and what the reduction before the inputs pays and warns of. Without a state the
/// contract starts without entries, at time 0. Refused is a text that isn't read, of the contract, the state and then the transactions;
/// then the first transaction that is refused; and then the interval: `InvalidInterval`, `IntervalInPast`, `Ambiguous` or
/// `Leaves128`, where every transaction over it is refused so.
pub fn next(
    alloc: Global,
    contract: &[u8],
    state: Option<&[u8]>,
    after: &[Vec<u8>],
    asked: Asked,
) -> Result<Vec<u8>, TraceFault>
    ensures text { IfOk result (λ text. IsAnswer asked (reached_given asked contract.now state.entry after.now) text.items) }
    ensures answer { AsideBy (TraceFault.Run RunFault.Memory) (λ _. tt) result
        (answered asked (reached_given asked contract.now state.entry after.now)) }
{
    from_contract(alloc, contract, state, after, asked)
}

/// The same of a contract and a state once all is read: what `next` prints behind these transactions.
pub fn next_after(
    alloc: Global,
    whole: &Contract,
    start: &State,
    transactions: &[Transaction],
    asked: Asked,
) -> Result<Vec<u8>, TraceFault>
    ensures text { IfOk result (λ text.
        IsAnswer asked (reached_by (contract_tree whole.now) start.now transactions.now) text.items) }
    ensures answer { AsideBy (TraceFault.Run RunFault.Memory) (λ _. tt) result
        (answered asked (reached_by (contract_tree whole.now) start.now transactions.now)) }
{
    from_transactions(alloc, whole, start, transactions, asked)
}

/// The same of a part of a contract that is left at the end of a path: what `next` prints once transactions have led there. Only of the
/// inputs lines tell so many at most, the first, and then how many more there are. What follows the others isn't computed, so this takes
/// time for the cases and for what follows so many of them. The fault is that of the interval, or `Memory`.
pub fn next_there(
    alloc: Global,
    whole: &Contract,
    left: &Left<'_>,
    asked: Asked,
    most: usize,
) -> Result<Vec<u8>, TraceFault>
    ensures text { IfOk result (λ text. IsAnswerUpTo (Some most) asked (Ok (reached_at whole.now left.now)) text.items) }
    ensures answer { AsideBy (TraceFault.Run RunFault.Memory) (λ _. tt) result
        (answered asked (Ok (reached_at whole.now left.now))) }
{
    from_left(alloc, whole, left, asked, Some(most))
}

// The contract is read first.
fn from_contract(
    alloc: Global,
    contract: &[u8],
    state: Option<&[u8]>,
    after: &[Vec<u8>],
    asked: Asked,
) -> Result<Vec<u8>, TraceFault>
    ensures { Answers asked (reached_given asked contract.now state.entry after.now) result }
{
    match read_contract_within(alloc, contract, asked.readable.depth) {
        Ok(whole) => {
            let text = from_state(alloc, &whole, state, after, asked);
            beside_dropped(whole, text)
        }
        Err(fault) => Err(TraceFault::Run(RunFault::of_contract(fault))),
    }
}

// Then the state.
fn from_state(
    alloc: Global,
    whole: &Contract,
    state: Option<&[u8]>,
    after: &[Vec<u8>],
    asked: Asked,
) -> Result<Vec<u8>, TraceFault>
    ensures { Answers asked (reached_from asked (contract_tree whole.now) (text_given state.entry) (texts_given after.now)) result }
{
    match read_start(alloc, state, asked.readable.text_numbers) {
        Ok(start) => {
            let text = from_texts(alloc, whole, &start, after, asked);
            beside_dropped(start, text)
        }
        Err(fault) => Err(TraceFault::Run(RunFault::of_state(fault))),
    }
}

// Then the transactions.
fn from_texts(
    alloc: Global,
    whole: &Contract,
    start: &State,
    after: &[Vec<u8>],
    asked: Asked,
) -> Result<Vec<u8>, TraceFault>
    ensures { Answers asked (reached_with (contract_tree whole.now) start.now (texts_given after.now)) result }
{
    match read_transactions(alloc, after) {
        Ok(transactions) => {
            let text = from_transactions(alloc, whole, start, transactions.as_slice(), asked);
            beside_dropped(transactions, text)
        }
        Err(fault) => Err(TraceFault::from(fault)),
    }
}

// The answer behind transactions.
fn from_transactions(
    alloc: Global,
    whole: &Contract,
    start: &State,
    transactions: &[Transaction],
    asked: Asked,
) -> Result<Vec<u8>, TraceFault>
    ensures { Answers asked (reached_by (contract_tree whole.now) start.now transactions.now) result }
{
    let count = transactions.len();
    match trace::after(alloc, whole, start, transactions) {
        Ok(left) => {
            let text = from_left(alloc, whole, &left, asked, None);
            beside_dropped(left, text)
        }
        Err(refused) => Err(fault_of(refused, count)),
    }
}

// The first transaction that is refused, of so many, by its number from 1.
fn fault_of(refused: Refused, count: usize) -> TraceFault
    requires { refused.fault ≢ SemFault.Memory → refused.index < count }
    ensures { result ≡ refused_fault (refused.index + 1) refused.fault }
{
    match refused.fault {
        SemFault::Memory => TraceFault::Run(RunFault::Memory),
        fault => TraceFault::of_refused(refused.index as u64 + 1, fault),
    }
}

// The answer where transactions have led.
fn from_left(
    alloc: Global,
    whole: &Contract,
    left: &Left<'_>,
    asked: Asked,
    most: Option<usize>,
) -> Result<Vec<u8>, TraceFault>
    ensures { AnswersUpTo most asked (Ok (reached_at whole.now left.now)) result }
{
    let interval = interval_of(asked, &left.state);
    match settle(alloc, left.contract, &left.state, interval) {
        Ok(settled) => {
            let text = settled_text(alloc, whole, left, interval, &settled, asked.json, most);
            let text = beside_dropped(settled, text)?;
            Ok(text)
        }
        Err(fault) => Err(TraceFault::Run(RunFault::from(fault))),
    }
}
