//! The judgement.
ghost use Rattle.std.specs.Prelude.{◌≡◌, None, IfOk, position, is_none};
ghost use Rattle.roles.specs.EutxoTypes.declared.fault.TxFault.TheVariants as TxFault;
ghost use Rattle.roles.specs.EutxoTypes.Ids.{id_of};
ghost use Rattle.roles.specs.Eutxo.Checks.{BeginWith};
ghost use Rattle.roles.specs.Eutxo.Found.{is_known};
ghost use Rattle.roles.specs.Eutxo.Local.{tx_fault, judged};
ghost use Rattle.roles.specs.Eutxo.Faults.{fault_at};
ghost use Rattle.roles.specs.Eutxo.Judgement.{outside_interval, is_unknown, unknown_script, outputs_found, judgement};
ghost use Rattle.ledger.specs.ResolveSupport.{moment_fault};

use crate::found::{outputs_found, with_scripts};
use crate::ledger::{Ledger, Resolves};
use contract::Memory;
use roles::{
    Checked, Judged, Lock, Output, Resolved, Tx, TxFault, Validator, judge_spent, kept_among,
    tx_fault,
};
use std::alloc::Global;

fn missing_index(outputs: &[Option<Output>]) -> Option<usize>
    ensures { result ≡ position is_none outputs.now }
{
    outputs.iter().position(|o| o.is_none())
}

// Rule 4, read off what was found of the inputs.
fn not_unspent(outputs: &[Option<Output>]) -> Option<TxFault>
    ensures { result ≡ fault_at TxFault.NotUnspent is_none outputs.now }
{
    match missing_index(outputs) {
        Some(i) => Some(TxFault::NotUnspent(i as u64)),
        None => None,
    }
}

fn outside_interval<V, L: Ledger<V>>(ledger: &L, tx: &Tx) -> Option<TxFault>
    ensures { result ≡ outside_interval (L.moment ledger.now) tx.now }
{
    let tick = ledger.tick();
    if tx.interval.from <= tick && tick <= tx.interval.to {
        None
    } else {
        Some(TxFault::OutsideInterval)
    }
}

fn is_known<V, L: Ledger<V>>(ledger: &L, lock: &Lock) -> bool
    ensures { result ≡ is_known (L.moment ledger.now).published lock.now }
{
    match lock {
        Lock::Key(_) => true,
        Lock::Payout { .. } => true,
        Lock::Contract { script, .. } => ledger.published_at(script).is_some(),
    }
}

fn unknown_index<V, L: Ledger<V>>(ledger: &L, outputs: &[Output]) -> Option<usize>
    ensures { result ≡ position (is_unknown (L.moment ledger.now).published) outputs.now }
{
    outputs.iter().position(|o| !is_known(ledger, &o.lock))
}

fn unknown_script<V, L: Ledger<V>>(ledger: &L, tx: &Tx) -> Option<TxFault>
    ensures { result ≡ unknown_script (L.moment ledger.now) tx.now }
{
    match unknown_index(ledger, tx.outputs.as_slice()) {
        Some(i) => Some(TxFault::UnknownScript(i as u64)),
        None => None,
    }
}

// The fault of the lowest of rules 4 to 7 that refuses, where these outputs were found of the inputs.
#[tactic(auto, using(crate::proofs::MomentLemmas::unspent_so))]
fn moment_fault<V, L: Ledger<V>>(
    ledger: &L,
    tx: &Tx,
    id: &[u8; 32],
    outputs: &[Option<Output>],
) -> Option<TxFault>
    requires id { id.now ≡ id_of tx.now }
    requires found { outputs.now ≡ outputs_found (L.moment ledger.now) tx.now }
    ensures { result ≡ moment_fault (L.moment ledger.now) tx.now }
{
    if let Some(fault) = not_unspent(outputs) {
        return Some(fault);
    }
    if ledger.is_used(id) {
        return Some(TxFault::IdInUse);
    }
    if let Some(fault) = outside_interval(ledger, tx) {
        return Some(fault);
    }
    unknown_script(ledger, tx)
}

// The local judgement on what was found, where rules 1 to 3 don't refuse: by the transaction's checks at hand, where one
// is of it, else by the rules after the resolution alone.
fn judge_found<V: Validator>(
    alloc: Global,
    tx: &Tx,
    found: &Resolved<V>,
    checks: &[Checked<V>],
) -> Result<Judged, Memory>
    requires fault { tx_fault tx.now ≡ None }
    requires checks { BeginWith tx.now checks.now }
    ensures { IfOk result (λ answer. answer ≡ judged V.judges tx.now found.now) }
{
    match kept_among(checks, tx, found)? {
        Some(kept) => Ok(kept),
        None => judge_spent(alloc, tx, found),
    }
}

/// The judgement of a transaction, whose id is lent, on a ledger: the fault of the first of all rules that refuses, if
/// one does, and else the places in which the contracts go on that it spends. `checks` are those that were made of it
/// before (`eutxo::checks_of`): where one has a resolution equal to what is found here, no script is asked again. They
/// change no answer. Answers `Memory` only where a growth was refused, or where a script counts more payments than
/// outputs can have places.
#[tactic(auto, using(crate::proofs::MomentLemmas::judged_first, crate::proofs::MomentLemmas::judged_last))]
pub fn judge<V: Validator + Drop, L: Ledger<V>>(
    alloc: Global,
    ledger: &L,
    tx: &Tx,
    id: &[u8; 32],
    checks: &[Checked<V>],
) -> Result<Judged, Memory>
    requires id { id.now ≡ id_of tx.now }
    requires checks { BeginWith tx.now checks.now }
    ensures { IfOk result (λ answer. answer ≡ judgement V.judges (L.moment ledger.now) tx.now) }
{
    if let Some(fault) = tx_fault(tx) {
        return Ok(Judged::refused(fault));
    }
    let outputs = outputs_found(alloc, ledger, tx.inputs.as_slice())?;
    if let Some(fault) = moment_fault(ledger, tx, id, outputs.as_slice()) {
        return Ok(Judged::refused(fault));
    }
    let found = with_scripts(alloc, ledger, tx, outputs)?;
    judge_found(alloc, tx, &found, checks)
}
