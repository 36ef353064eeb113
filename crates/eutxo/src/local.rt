//! The local judgement.
ghost use Rattle.std.specs.Prelude.{◌≡◌, ◌∷◌, [], None, Some, IfOk};
ghost use Rattle.eutxo.specs.Faults.{first_of};
ghost use Rattle.eutxo.specs.Found.{script_at, whole};
ghost use Rattle.eutxo.specs.Local.{rules_12_to_19, rules_8_to_19, rules_8_to_19_found, judged_as, judged};
ghost use Rattle.eutxo.specs.Rules.{too_many_contracts, not_preserved, wrong_datum};

use crate::datum_rule::wrong_datum;
use crate::judged::{Judged, judged_as};
use crate::laws::one_contract_is_judged_alone;
use crate::places::Places;
use crate::preserved::not_preserved;
use crate::resolved::{Resolved, whole};
use crate::scripts::Scripts;
use crate::spent::Spent;
use crate::spent_rules::{not_signed, role_missing, too_many_contracts, wrong_redeemer};
use crate::step_rules::step_fault;
use crate::tx_rules::tx_fault;
use crate::validator::Validator;
use contract::Memory;
use eutxo_types::{Tx, TxFault};
use std::alloc::Global;

// Rules 12 to 18, where 19 doesn't stand.
fn judge_steps<V: Validator>(
    alloc: Global,
    scripts: &Scripts<V>,
    tx: &Tx,
    spent: &[Spent<'_>],
) -> Result<Judged, Memory>
    requires few { too_many_contracts spent.now ≡ None }
    requires data { wrong_datum tx.now spent.now ≡ None }
    ensures { IfOk result (λ judged. judged ≡ rules_12_to_19 V.judges (script_at scripts.now) tx.now spent.now) }
{
    let judged = step_fault(alloc, scripts, tx, spent)?;
    if judged.fault.is_some() {
        return Ok(judged);
    }
    match not_preserved(alloc, spent, tx.outputs.as_slice())? {
        Some(fault) => Ok(Judged::refused(fault)),
        None => Ok(judged),
    }
}

// Rules 18 and 19, where 19 stands: 12 to 17 aren't judged.
fn judge_data(
    alloc: Global,
    wrong_datum: TxFault,
    tx: &Tx,
    spent: &[Spent<'_>],
) -> Result<Judged, Memory>
    ensures { IfOk result (λ judged. judged ≡ judged_as (first_of (not_preserved spent.now tx.now.outputs ∷ Some wrong_datum ∷ [])) []) }
{
    match not_preserved(alloc, spent, tx.outputs.as_slice())? {
        Some(sums) => Ok(Judged::refused(sums)),
        None => Ok(Judged::refused(wrong_datum)),
    }
}

// Rules 12 to 19.
fn judge_data_and_steps<V: Validator>(
    alloc: Global,
    scripts: &Scripts<V>,
    tx: &Tx,
    spent: &[Spent<'_>],
) -> Result<Judged, Memory>
    requires { too_many_contracts spent.now ≡ None }
    ensures { IfOk result (λ judged. judged ≡ rules_12_to_19 V.judges (script_at scripts.now) tx.now spent.now) }
{
    match wrong_datum(alloc, tx, spent)? {
        None => judge_steps(alloc, scripts, tx, spent),
        Some(fault) => judge_data(alloc, fault, tx, spent),
    }
}

// Rules 8 to 19.
fn judge_whole<V: Validator>(
    alloc: Global,
    scripts: &Scripts<V>,
    tx: &Tx,
    spent: &[Spent<'_>],
) -> Result<Judged, Memory>
    ensures { IfOk result (λ judged. judged ≡ rules_8_to_19 V.judges (script_at scripts.now) tx.now spent.now) }
{
    if let Some(fault) = not_signed(tx.signers.as_slice(), spent) {
        return Ok(Judged::refused(fault));
    }
    if let Some(fault) = too_many_contracts(spent) {
        return Ok(Judged::refused(fault));
    }
    if let Some(fault) = wrong_redeemer(spent) {
        return Ok(Judged::refused(fault));
    }
    if let Some(fault) = role_missing::<V>(spent) {
        return Ok(Judged::refused(fault));
    }
    judge_data_and_steps(alloc, scripts, tx, spent)
}

/// The answer of the rules after the resolution: the fault of the lowest of rules 8 to 19 that refuses, if one does,
/// and else where the contracts go on that are spent. Where the resolution lacks an output or a script, none of these
/// rules is judged, and nothing goes on. Rules 12 to 17 are judged only where 19 refuses nothing. Answers `Memory`
/// only where a growth was refused, or where a script counts more payments than outputs can have places.
pub fn judge_spent<V: Validator>(
    alloc: Global,
    tx: &Tx,
    found: &Resolved<V>,
) -> Result<Judged, Memory>
    ensures { IfOk result (λ answer. answer ≡ rules_8_to_19_found V.judges tx.now found.now) }
{
    // touch: one contract is judged as if there were no blocks
    one_contract_is_judged_alone::<V>();
    match whole(alloc, tx, found)? {
        Some(spent) => judge_whole(alloc, &found.scripts, tx, spent.as_slice()),
        None => Ok(judged_as(None, Places::none())),
    }
}

/// The local judgement: the fault of the lowest of rules 1 to 3 and, where nothing is missing in the resolution, 8 to
/// 19 that refuses, if one does, and else where the contracts go on that are spent. Rules 12 to 17 are judged only
/// where 19 refuses nothing. Answers `Memory` only where a growth was refused, or where a script counts more payments
/// than outputs can have places.
pub fn judge_local<V: Validator>(
    alloc: Global,
    tx: &Tx,
    found: &Resolved<V>,
) -> Result<Judged, Memory>
    ensures { IfOk result (λ answer. answer ≡ judged V.judges tx.now found.now) }
{
    if let Some(fault) = tx_fault(tx) {
        return Ok(Judged::refused(fault));
    }
    judge_spent(alloc, tx, found)
}
