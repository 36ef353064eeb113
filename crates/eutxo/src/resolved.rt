//! Resolutions of transactions.
ghost use Rattle.std.specs.Prelude.{◌≡◌, ◌↔◌, IsTrue, IfOk, option_copied};
ghost use Rattle.std.specs.List.{list_all};
ghost use Rattle.eutxo.specs.FoundSupport.{found_at};
ghost use Rattle.eutxo.specs.Found.{with_outputs, script_at, is_known, all_known, whole, AreEqual};

use crate::scripts::Scripts;
use crate::spent::Spent;
use contract::{Items, Memory, Same, TryClone};
use eutxo_types::{Lock, Output, Spend, Tx};
use std::alloc::Global;

/// A resolution: what is found of what a transaction names. It may lack an output or a script; then rules
/// 8 to 19 are not judged, since on a ledger rule 4 or 7 applies. There is one resolution for the same
/// outputs and scripts.
pub struct Resolved<V> {
    /// For each input, in order, the output that it spends, or `None` where it is missing.
    pub outputs: Items<Option<Output>>,
    /// The scripts that the transaction's outputs and those outputs name, as far as they were found.
    pub scripts: Scripts<V>,
}

// Dropped once: the drop is written, not derived, so that no crate above proves it again.
impl<V: Drop> Drop for Resolved<V> {
    fn drop(self) {
        let Resolved {
            outputs: _,
            scripts: _,
        } = self;
    }
}

impl<V> Resolved<V> {
    /// Whether another resolution has the same outputs, and equal scripts under the same ids. Then both
    /// decide every transaction alike (`equal_resolutions_decide_alike`).
    pub fn equals(&self, other: &Resolved<V>) -> bool
    where
        V: PartialEq,
        ensures { IsTrue result ↔ AreEqual V.eq self.now other.now }
    {
        same_outputs(self.outputs.as_slice(), other.outputs.as_slice())
            && self.scripts.equals(&other.scripts)
    }
}

/// A copy of what is there, if anything is. Answers `Memory` only where a growth was refused.
pub fn copy_option<T: TryClone>(value: Option<&T>) -> Result<Option<T>, Memory>
    ensures { IfOk result (λ copy. copy ≡ option_copied value.entry) }
{
    match value {
        Some(value) => Ok(Some(value.try_clone()?)),
        None => Ok(None),
    }
}

fn copies_of(alloc: Global, outputs: &[Option<Output>]) -> Result<Items<Option<Output>>, Memory>
    ensures { IfOk result (λ copies. copies ≡ outputs.now) }
{
    let mut copies = Vec::with_capacity(alloc, outputs.len())?;
    for output in outputs {
        copies.push(copy_option(output.as_ref())?)?;
    }
    Ok(Items::from_vec(copies))
}

impl<V: Drop> TryClone for Resolved<V> {
    fn try_clone(&self) -> Result<Resolved<V>, Memory> {
        let outputs = copies_of(self.scripts.allocator(), self.outputs.as_slice())?;
        let scripts = self.scripts.try_clone()?;
        Ok(Resolved { outputs, scripts })
    }
}

fn same_output(x: &Option<Output>, y: &Option<Output>) -> bool
    ensures { IsTrue result ↔ (x.now ≡ y.now) }
{
    match (x, y) {
        (Some(a), Some(b)) => a.same(b),
        (None, None) => true,
        (Some(_), None) => false,
        (None, Some(_)) => false,
    }
}

fn same_outputs(xs: &[Option<Output>], ys: &[Option<Output>]) -> bool
    ensures { IsTrue result ↔ (xs.now ≡ ys.now) }
{
    if xs.len() != ys.len() {
        return false;
    }
    for i in 0..xs.len() {
        if !same_output(&xs[i], &ys[i]) {
            return false;
        }
    }
    true
}

impl<V: Same> Same for Resolved<V> {
    fn same(&self, other: &Resolved<V>) -> bool {
        same_outputs(self.outputs.as_slice(), other.outputs.as_slice())
            && self.scripts.same(&other.scripts)
    }
}

fn is_known<V>(scripts: &Scripts<V>, lock: &Lock) -> bool
    ensures { result ≡ is_known (script_at scripts.now) lock.now }
{
    match lock {
        Lock::Key(_) => true,
        Lock::Payout { .. } => true,
        Lock::Contract { script, .. } => scripts.get(script).is_some(),
    }
}

fn made_known<V>(scripts: &Scripts<V>, made: &[Output]) -> bool
    ensures { result ≡ list_all (λ o. is_known (script_at scripts.now) o.lock) made.now }
{
    made.iter().all(|o| is_known(scripts, &o.lock))
}

fn spent_known<V>(scripts: &Scripts<V>, spent: &[Spent<'_>]) -> bool
    ensures { result ≡ list_all (λ x. is_known (script_at scripts.now) x.1.lock) spent.now }
{
    spent.iter().all(|x| is_known(scripts, &x.output().lock))
}

fn are_known<V>(scripts: &Scripts<V>, made: &[Output], spent: &[Spent<'_>]) -> bool
    ensures { result ≡ all_known (script_at scripts.now) made.now spent.now }
{
    made_known(scripts, made) && spent_known(scripts, spent)
}

fn output_at(outputs: &[Option<Output>], at: usize) -> Option<&Output>
    ensures { option_copied result ≡ found_at outputs.now at }
{
    match outputs.get(at) {
        Some(Some(output)) => Some(output),
        Some(None) => None,
        None => None,
    }
}

#[tactic(auto, using(crate::proofs::FoundLemmas::next_pair, crate::proofs::FoundLemmas::no_pair))]
fn with_outputs<'a>(
    alloc: Global,
    inputs: &'a [Spend],
    outputs: &'a [Option<Output>],
) -> Result<Option<Items<Spent<'a>>>, Memory>
    ensures { IfOk result (λ spent. spent ≡ with_outputs inputs.now outputs.now) }
{
    let mut spent = Vec::with_capacity(alloc, inputs.len())?;
    for (i, x) in inputs.iter().enumerate() {
        match output_at(outputs, i) {
            Some(output) => spent.push(Spent::new(x, output))?,
            None => return Ok(None),
        }
    }
    Ok(Some(Items::from_vec(spent)))
}

/// Each input with its output, where nothing that the transaction names is missing.
pub(crate) fn whole<'a, V>(
    alloc: Global,
    tx: &'a Tx,
    found: &'a Resolved<V>,
) -> Result<Option<Items<Spent<'a>>>, Memory>
    ensures { IfOk result (λ spent. spent ≡ whole tx.now found.now) }
{
    match with_outputs(alloc, tx.inputs.as_slice(), found.outputs.as_slice())? {
        Some(spent) => {
            if are_known(&found.scripts, tx.outputs.as_slice(), spent.as_slice()) {
                Ok(Some(spent))
            } else {
                Ok(None)
            }
        }
        None => Ok(None),
    }
}
