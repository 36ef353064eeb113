//! Transactions on the ledger.
ghost use Rattle.std.specs.Prelude.{◌≡◌, option_copied};
ghost use Rattle.eutxo_types.specs.Parts.{contract_in, step_count, contract_count, made_datums, with_datum, steps, contract_at};

use crate::lock::Lock;
use crate::output::Output;
use crate::spend::Spend;
use contract::{Interval, Items, Memory, Same, Text, TryClone};
use machine::Datum;
use std::marker::Model;

/// A transaction on the ledger (The Extended UTXO Model, "Extended UTXO model: EUTXO"): the outputs that it spends,
/// those that it makes, in order, the ticks at which it may happen, both ends included and in POSIX milliseconds,
/// the addresses that signed it, and the data of contracts: one for each contract output that it spends, in the order
/// of inputs, and then one for each that it makes, in the order of outputs. No signature is checked: the list is taken
/// as true.
pub struct Tx {
    pub inputs: Items<Spend>,
    pub outputs: Items<Output>,
    pub interval: Interval,
    pub signers: Items<Text>,
    pub datums: Items<Datum>,
}

/// A contract as a transaction makes it, lent: its script, and the datum that the transaction brings for it.
#[derive(Drop)]
pub struct Instance<'a> {
    pub script: &'a [u8; 32],
    pub datum: &'a Datum,
}

impl<'a> Model for Instance<'a> {
    ghost use Rattle.std.specs.Coded.{codes};
    ghost use Rattle.machine.specs.contracts.datum.Datum as datums;
    ghost use Rattle.eutxo_types.specs.Parts as parts;

    ghost Value = { parts.Instance };

    ghost coded = { Prim.hlevel (codes, datums.the_row.coded) };

    ghost view = { λ a. record { script = a.script.now; datum = a.datum.now } };
}

// Dropped once: the drop is written, not derived, so that no crate above proves it again.
impl Drop for Tx {
    fn drop(self) {
        let Tx {
            inputs: _,
            outputs: _,
            interval: _,
            signers: _,
            datums: _,
        } = self;
    }
}

/// How many of these inputs step a contract.
fn step_count(inputs: &[Spend]) -> usize
    ensures { result ≡ step_count inputs.now }
{
    let mut count = 0;
    for x in inputs {
        if x.redeemer.is_step() {
            count += 1;
        }
    }
    count
}

/// How many of these outputs are a contract's.
fn contract_count(outputs: &[Output]) -> usize
    ensures { result ≡ contract_count outputs.now }
{
    outputs.iter().filter(|o| o.lock.is_contract()).count()
}

/// The contract that stands under a lock at a datum. None under another lock, or without a datum.
pub fn with_datum<'a>(lock: &'a Lock, datum: Option<&'a Datum>) -> Option<Instance<'a>>
    ensures { result ≡ with_datum (contract_in lock.now) (option_copied datum.entry) }
{
    match (lock.contract(), datum) {
        (Some(lock), Some(datum)) => Some(Instance {
            script: lock.script,
            datum,
        }),
        _ => None,
    }
}

impl Tx {
    /// Whether one of its inputs steps a contract.
    pub fn steps(&self) -> bool
        ensures { result ≡ steps self.now }
    {
        self.inputs.as_slice().iter().any(|x| x.redeemer.is_step())
    }

    /// The data that it brings for the contracts that it makes, in the order of outputs: those behind one for each
    /// input that steps.
    pub fn made_datums(&self) -> &[Datum]
        ensures { result.now ≡ made_datums self.now }
    {
        let datums = self.datums.as_slice();
        let first = step_count(self.inputs.as_slice());
        if first > datums.len() {
            return &[];
        }
        &datums[first..]
    }

    /// The contract that it makes in the output at a place, counted from 0: its script, and the datum that it brings
    /// for it. None where there is no such output, or one under another lock, or no datum for it.
    pub fn contract_at(&self, index: u64) -> Option<Instance<'_>>
        ensures { result ≡ contract_at self.now index }
    {
        let outputs = self.outputs.as_slice();
        match outputs.get(index as usize) {
            Some(output) => {
                let datum = self
                    .made_datums()
                    .get(contract_count(&outputs[..index as usize]));
                with_datum(&output.lock, datum)
            }
            None => None,
        }
    }
}

impl TryClone for Tx {
    fn try_clone(&self) -> Result<Tx, Memory> {
        let inputs = self.inputs.try_clone()?;
        let outputs = self.outputs.try_clone()?;
        let signers = self.signers.try_clone()?;
        let datums = self.datums.try_clone()?;
        Ok(Tx {
            inputs,
            outputs,
            interval: self.interval,
            signers,
            datums,
        })
    }
}

impl Same for Tx {
    fn same(&self, other: &Tx) -> bool {
        self.inputs.same(&other.inputs)
            && self.outputs.same(&other.outputs)
            && self.interval == other.interval
            && self.signers.same(&other.signers)
            && self.datums.same(&other.datums)
    }
}
