//! The rule of starts, and the choice between it and the rules of steps.
ghost use Rattle.std.specs.Prelude.{◌≡◌, ◌<◌, length, take, IfOk, None, option_map, slice_get};
ghost use Rattle.eutxo.specs.Found.{script_at};
ghost use Rattle.eutxo_types.specs.Parts.{contract_in, contract_count, made_datums, contract_at};
ghost use Rattle.eutxo.specs.Local.{rules_12_to_17};
ghost use Rattle.eutxo.specs.Rules.{too_many_contracts, starts_wrong, wrong_start_index, wrong_start};

use crate::block_rules::{block_fault, walk};
use crate::judged::{Judged, judged_as};
use crate::scripts::Scripts;
use crate::spent::Spent;
use crate::validator::Validator;
use contract::Memory;
use eutxo_types::{Bundle, Datum, Instance, Tx, TxFault, with_datum};
use std::alloc::Global;

fn starts_wrong<V: Validator>(
    alloc: Global,
    scripts: &Scripts<V>,
    amount: &Bundle,
    made: Option<Instance<'_>>,
) -> Result<bool, Memory>
    ensures { IfOk result (λ b. b ≡ starts_wrong V.judges (script_at scripts.now) amount.now made.entry) }
{
    match made {
        Some(c) => match scripts.get(c.script) {
            Some(object) => Ok(!object.start(alloc, c.datum, amount)?),
            None => Ok(false),
        },
        None => Ok(false),
    }
}

// The contract in the output at a place, before which so many outputs are contracts'.
#[tactic(auto, using(crate::proofs::DatumLemmas::made_here))]
fn made_at<'a>(tx: &'a Tx, datums: &'a [Datum], index: usize, count: usize) -> Option<Instance<'a>>
    requires index { index < length tx.now.outputs }
    requires datums { datums.now ≡ made_datums tx.now }
    requires count { count ≡ contract_count (take index tx.now.outputs) }
    ensures { result ≡ contract_at tx.now index }
{
    let output = &tx.outputs.as_slice()[index];
    with_datum(&output.lock, datums.get(count))
}

#[tactic(auto, using(crate::proofs::FaultsLemmas::found_place, crate::proofs::FaultsLemmas::next_place))]
fn wrong_start_index<V: Validator>(
    alloc: Global,
    scripts: &Scripts<V>,
    tx: &Tx,
) -> Result<Option<usize>, Memory>
    ensures { IfOk result (λ place. place ≡ wrong_start_index V.judges (script_at scripts.now) tx.now) }
{
    let datums = tx.made_datums();
    let mut count = 0;
    for (i, output) in tx.outputs.as_slice().iter().enumerate() {
        if starts_wrong(
            alloc,
            scripts,
            &output.amount,
            made_at(tx, datums, i, count),
        )? {
            return Ok(Some(i));
        }
        if output.lock.is_contract() {
            count += 1;
        }
    }
    Ok(None)
}

fn wrong_start<V: Validator>(
    alloc: Global,
    scripts: &Scripts<V>,
    tx: &Tx,
) -> Result<Option<TxFault>, Memory>
    ensures { IfOk result (λ fault. fault ≡ wrong_start V.judges (script_at scripts.now) tx.now) }
{
    match wrong_start_index(alloc, scripts, tx)? {
        Some(i) => Ok(Some(TxFault::WrongStart(i as u64))),
        None => Ok(None),
    }
}

/// The answer of the rules of steps, 12 to 16; where no contract is spent, that of the rule of starts, 17.
#[tactic(auto, using(crate::proofs::WalkLemmas::few_steps, crate::proofs::WalkLemmas::started, crate::proofs::WalkLemmas::stepped))]
pub fn step_fault<V: Validator>(
    alloc: Global,
    scripts: &Scripts<V>,
    tx: &Tx,
    spent: &[Spent<'_>],
) -> Result<Judged, Memory>
    requires { too_many_contracts spent.now ≡ None }
    ensures { IfOk result (λ judged. judged ≡ rules_12_to_17 V.judges (script_at scripts.now) tx.now spent.now) }
{
    let walked = walk(alloc, scripts, tx, spent)?;
    // no contract is spent: there are as many places as steps
    if walked.places.len() == 0 {
        let fault = wrong_start(alloc, scripts, tx)?;
        Ok(judged_as(fault, walked.places))
    } else {
        Ok(block_fault(walked, tx.outputs.as_slice()))
    }
}
