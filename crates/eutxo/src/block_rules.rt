//! The rules of steps: the blocks of outputs that the contracts make which are spent, one behind another.
ghost use Rattle.std.specs.Prelude.{◌≡◌, ◌+◌, ◌<◌, ◌≤◌, length, Some, if◌then◌else◌, IfSome, IfOk, OnOk, option_map};
ghost use Rattle.std.specs.List.{list_any};
ghost use Rattle.eutxo_types.specs.declared.fault.TxFault.TheVariants.{StrayContract};
ghost use Rattle.eutxo.specs.Blocks.{size, answer_to, blocks_of, continues, places_in, fault_in, lowest_fault, is_place};
ghost use Rattle.eutxo.specs.BlocksSupport.{lower_of, stray_index, with_block, step_here, walked_over};
ghost use Rattle.eutxo.specs.Faults.{or_else};
ghost use Rattle.eutxo.specs.Found.{script_at};
ghost use Rattle.eutxo.specs.Local.{judged_as};
ghost use Rattle.eutxo.specs.Rules.{steps_of};

use crate::judged::{Judged, judged_as};
use crate::places::Places;
use crate::scripts::Scripts;
use crate::spent::Spent;
use crate::steps::{Step, step_at};
use crate::validator::{StepAnswer, Validator};
use contract::Memory;
use eutxo_types::{Output, Tx, TxFault};
use std::alloc::{AllocError, Global};

/// The blocks over which a walk has come so far.
#[derive(Drop)]
pub struct Walked {
    /// The place from which the next block stands.
    pub from: usize,
    /// Of their faults the one of the lowest number, of equal ones the first.
    pub lowest: Option<TxFault>,
    /// Where their contracts go on.
    pub places: Places,
}

// ---- one block

// What the script of a step answers, whose block stands from a place; one that isn't there makes nothing.
fn answer_by<V: Validator>(
    alloc: Global,
    scripts: &Scripts<V>,
    from: usize,
    step: &Step<'_>,
    tx: &Tx,
    spent: &[Spent<'_>],
) -> Result<StepAnswer, Memory>
    ensures { IfOk result (λ answer. answer ≡ answer_to V.judges (script_at scripts.now) tx.now spent.now from step.now) }
{
    match scripts.get(step.script) {
        Some(object) => object.step(alloc, step.script, step.datum, step.inputs, from, tx, spent),
        None => Ok(StepAnswer::Takes {
            fault: None,
            goes_on: false,
            payments: 0,
        }),
    }
}

// How many outputs a block has. `Memory` where they are more than can be counted.
fn size(answer: &StepAnswer) -> Result<usize, Memory>
    ensures { IfOk result (λ count. count ≡ size answer.now) }
{
    match answer {
        StepAnswer::Refused(_) => Ok(0),
        StepAnswer::Takes {
            goes_on,
            payments,
            ..
        } => {
            let continuing: usize = if *goes_on { 1 } else { 0 };
            match continuing.checked_add(*payments) {
                Some(count) => Ok(count),
                None => Err(AllocError),
            }
        }
    }
}

// The place behind a block. `Memory` where it is above every place that an output can have.
fn behind(from: usize, answer: &StepAnswer) -> Result<usize, Memory>
    ensures { IfOk result (λ place. place ≡ from + size answer.now) }
{
    let count = size(answer)?;
    match from.checked_add(count) {
        Some(place) => Ok(place),
        None => Err(AllocError),
    }
}

// The place of the output in which the contract of a block goes on.
fn continues(from: usize, answer: &StepAnswer) -> Option<u64>
    ensures { result ≡ continues from answer.now }
{
    match answer {
        StepAnswer::Refused(_) => None,
        StepAnswer::Takes { goes_on, .. } => { if *goes_on { Some(from as u64) } else { None } }
    }
}

fn fault_in(answer: StepAnswer) -> Option<TxFault>
    ensures { result ≡ fault_in answer }
{
    match answer {
        StepAnswer::Refused(fault) => Some(TxFault::Semantics(fault)),
        StepAnswer::Takes { fault, .. } => match fault {
            Some(fault) => Some(TxFault::from(fault)),
            None => None,
        },
    }
}

// ---- the walk

fn is_lower(fault: &TxFault, than: &Option<TxFault>) -> bool
    ensures { lower_of than.now (Some fault.now) ≡ (if result then Some fault.now else than.now) }
{
    match than {
        Some(other) => fault.number() < other.number(),
        None => true,
    }
}

// Keeps of two faults the one of the lower number, of equal ones the first.
fn keep_lower(lowest: &mut Option<TxFault>, fault: Option<TxFault>)
    ensures { lowest.new ≡ lower_of lowest.old fault }
{
    if let Some(fault) = fault {
        if is_lower(&fault, lowest) {
            *lowest = Some(fault);
        }
    }
}

// Walks over a block, of which the script answers this.
fn add(walked: &mut Walked, answer: StepAnswer) -> Result<(), Memory>
    requires { length walked.old.places < 8 }
    ensures { OnOk result (walked.new ≡ with_block walked.old answer) }
{
    let next = behind(walked.from, &answer)?;
    walked.places.push(continues(walked.from, &answer));
    keep_lower(&mut walked.lowest, fault_in(answer));
    walked.from = next;
    Ok(())
}

// Walks over the block of what is spent, where that is a contract and a datum is brought for it.
fn walk_over<V: Validator>(
    alloc: Global,
    scripts: &Scripts<V>,
    walked: &mut Walked,
    x: &Spent<'_>,
    tx: &Tx,
    spent: &[Spent<'_>],
) -> Result<(), Memory>
    requires { IfSome (step_here tx.now walked.old x.now) (λ step. length walked.old.places < 8) }
    ensures { OnOk result (walked.new ≡ walked_over V.judges (script_at scripts.now) tx.now spent.now walked.old x.now) }
{
    match step_at(x, tx.datums.as_slice(), walked.places.len()) {
        Some(step) => {
            let answer = answer_by(alloc, scripts, walked.from, &step, tx, spent)?;
            add(walked, answer)
        }
        None => Ok(()),
    }
}

/// Walks over the blocks of all contracts that are spent, of which there are at most 8. Answers `Memory` only where a
/// growth was refused, or where a block would end above every place that an output can have.
#[tactic(auto, using(crate::proofs::WalkLemmas::lowest_walk, crate::proofs::WalkLemmas::places_walk, crate::proofs::WalkLemmas::lowest_end, crate::proofs::WalkLemmas::places_end))]
pub fn walk<V: Validator>(
    alloc: Global,
    scripts: &Scripts<V>,
    tx: &Tx,
    spent: &[Spent<'_>],
) -> Result<Walked, Memory>
    requires { length (steps_of spent.now tx.now.datums) ≤ 8 }
    ensures lowest { IfOk result (λ walked. walked.lowest ≡ lowest_fault (blocks_of V.judges (script_at scripts.now) tx.now spent.now)) }
    ensures places { IfOk result (λ walked. walked.places ≡ places_in (blocks_of V.judges (script_at scripts.now) tx.now spent.now)) }
{
    let mut walked = Walked {
        from: 0,
        lowest: None,
        places: Places::none(),
    };
    for x in spent {
        walk_over(alloc, scripts, &mut walked, x, tx, spent)?;
    }
    Ok(walked)
}

// ---- the rules

fn is_place(index: u64, place: &Option<u64>) -> bool
    ensures { result ≡ is_place index place.now }
{
    match place {
        Some(place) => index == *place,
        None => false,
    }
}

fn is_among(index: u64, places: &[Option<u64>]) -> bool
    ensures { result ≡ list_any (is_place index) places.now }
{
    places.iter().any(|place| is_place(index, place))
}

// The lowest place of a contract lock that isn't among these.
#[tactic(auto, using(crate::proofs::FaultsLemmas::found_place, crate::proofs::FaultsLemmas::next_place))]
fn stray_index(places: &[Option<u64>], outputs: &[Output]) -> Option<usize>
    ensures { result ≡ stray_index places.now outputs.now }
{
    for (i, output) in outputs.iter().enumerate() {
        if output.lock.is_contract() && !is_among(i as u64, places) {
            return Some(i);
        }
    }
    None
}

fn stray_contract(places: &[Option<u64>], outputs: &[Output]) -> Option<TxFault>
    ensures { result ≡ option_map StrayContract (stray_index places.now outputs.now) }
{
    match stray_index(places, outputs) {
        Some(i) => Some(TxFault::StrayContract(i as u64)),
        None => None,
    }
}

/// The answer of rules 12 to 16, where contracts are spent: of the faults of 12 to 15 the one of the lowest number, of
/// equal ones that of the first contract; else a contract output in which no contract goes on.
pub fn block_fault(walked: Walked, outputs: &[Output]) -> Judged
    ensures { result ≡ judged_as (or_else walked.lowest (option_map StrayContract (stray_index walked.places outputs.now))) walked.places }
{
    let Walked { lowest, places, .. } = walked;
    match lowest {
        Some(fault) => Judged::refused(fault),
        None => {
            let stray = stray_contract(places.as_slice(), outputs);
            judged_as(stray, places)
        }
    }
}
