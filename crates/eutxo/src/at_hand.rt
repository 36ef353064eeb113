//! Judgements by checks that were made before.
ghost use Rattle.std.specs.Prelude.{◌≡◌, All, IsOk, IfOk, IfSome, IfNone, None};
ghost use Rattle.eutxo_types.specs.declared.verdict.Verdict.TheVariants as verdicts;
ghost use Rattle.eutxo_types.specs.Ids.{id_of};
ghost use Rattle.eutxo.specs.Checks.{BeginWith, IsOf, IsAtHand};
ghost use Rattle.eutxo.specs.Local.{local, judged, verdict_of};

use crate::checked::{Checked, verdict_of};
use crate::judged::Judged;
use crate::laws::equal_resolutions_decide_alike;
use crate::local::judge_local;
use crate::resolved::Resolved;
use crate::validator::Validator;
use contract::{Memory, Same, TryClone};
use eutxo_types::{Tx, TxFault, Verdict, tx_id};
use std::alloc::Global;

// The first check of this transaction with an equal resolution.
fn at_hand<'a, V: Validator>(
    cache: &'a [Checked<V>],
    tx: &Tx,
    found: &Resolved<V>,
) -> Option<&'a Checked<V>>
    ensures some { IfSome result (λ c. IsOf V.eq tx.now found.now c.now) }
    ensures none { IfNone result (All (λ c. IsOf V.eq tx.now found.now c → ⊥) cache.now) }
{
    for checked in cache {
        if checked.is_of(tx, found) {
            return Some(checked);
        }
    }
    None
}

// The fault with which a verdict refuses. That of an acceptance takes no memory.
fn fault_of(verdict: &Verdict) -> Result<Option<TxFault>, Memory>
    ensures fault { IfOk result (λ fault. verdict.now ≡ verdict_of fault) }
    ensures ready { verdict.now ≡ verdicts.Accepted → IsOk result }
{
    match verdict {
        Verdict::Accepted => Ok(None),
        Verdict::Refused(fault) => Ok(Some(fault.try_clone()?)),
    }
}

// What a check keeps, which is the judgement of its transaction with any equal resolution.
#[tactic(auto, using(crate::proofs::ChecksLemmas::same_verdict))]
fn kept_by<V: Validator>(
    checked: &Checked<V>,
    tx: &Tx,
    found: &Resolved<V>,
) -> Result<Judged, Memory>
    requires { IsOf V.eq tx.now found.now checked.now }
    ensures judged { IfOk result (λ answer. answer ≡ judged V.judges tx.now found.now) }
    ensures ready { local V.judges tx.now found.now ≡ None → IsOk result }
{
    // touch: equal resolutions decide alike
    equal_resolutions_decide_alike::<V>();
    let fault = fault_of(checked.verdict())?;
    let places = checked.places().copy();
    Ok(Judged { fault, places })
}

// ---- the checks of one transaction, found once

/// Of checks that are lent, those from the first on that is of this transaction, whatever its resolution; where none is,
/// none. So the transaction is compared once: `id_at_hand` and `kept_among` take the first as known. It takes no memory.
pub fn checks_of<'a, V: Validator>(cache: &'a [Checked<V>], tx: &Tx) -> &'a [Checked<V>]
    ensures { BeginWith tx.now result.now }
{
    for (i, checked) in cache.iter().enumerate() {
        if checked.tx().same(tx) {
            return &cache[i..];
        }
    }
    &[]
}

/// The id of a transaction: the one that the first of its checks keeps, or where there is none, the SHA-256 of its
/// spelling. Answers `Memory` only in the second case, where the growth of the spelling is refused.
pub fn id_at_hand<V: Validator>(
    alloc: Global,
    tx: &Tx,
    checks: &[Checked<V>],
) -> Result<[u8; 32], Memory>
    requires { BeginWith tx.now checks.now }
    ensures { IfOk result (λ id. id ≡ id_of tx.now) }
{
    match checks.first() {
        Some(first) => Ok(*first.id()),
        None => tx_id(alloc, tx),
    }
}

// Of the checks of a transaction, the first with an equal resolution. Of the first of all the resolution alone is
// compared.
fn equal_among<'a, V: Validator>(
    checks: &'a [Checked<V>],
    tx: &Tx,
    found: &Resolved<V>,
) -> Option<&'a Checked<V>>
    requires { BeginWith tx.now checks.now }
    ensures some { IfSome result (λ c. IsOf V.eq tx.now found.now c.now) }
    ensures none { IfNone result (All (λ c. IsOf V.eq tx.now found.now c → ⊥) checks.now) }
{
    match checks {
        [first, rest @ ..] => {
            if first.found().equals(found) {
                Some(first)
            } else {
                at_hand(rest, tx, found)
            }
        }
        [] => None,
    }
}

/// What the checks of a transaction answer for a resolution: the local judgement, where the resolution of one is equal
/// to it; none, where none is. Each check is compared once. `Memory` says nothing of it: a growth was refused; where the
/// verdict is Accepted, no memory is taken.
pub fn kept_among<V: Validator>(
    checks: &[Checked<V>],
    tx: &Tx,
    found: &Resolved<V>,
) -> Result<Option<Judged>, Memory>
    requires { BeginWith tx.now checks.now }
    ensures judged { IfOk result (λ answer. IfSome answer (λ kept. kept ≡ judged V.judges tx.now found.now)) }
    ensures none { IfOk result (λ answer. IfNone answer (All (λ c. IsOf V.eq tx.now found.now c → ⊥) checks.now)) }
    ensures ready { local V.judges tx.now found.now ≡ None → IsOk result }
{
    match equal_among(checks, tx, found) {
        Some(checked) => Ok(Some(kept_by(checked, tx, found)?)),
        None => Ok(None),
    }
}

// ---- judgements by any checks

/// The local judgement. Where one of the checks that are lent is of this transaction with an equal resolution
/// (`Checked::is_of`), what it keeps is answered and no script is asked; where its verdict is Accepted, no memory is
/// taken. Else the transaction is judged. Which checks are at hand doesn't show in the answer. `Memory` says nothing of
/// it: a growth was refused.
pub fn rejudge<V: Validator>(
    alloc: Global,
    tx: &Tx,
    found: &Resolved<V>,
    cache: &[Checked<V>],
) -> Result<Judged, Memory>
    ensures judged { IfOk result (λ answer. answer ≡ judged V.judges tx.now found.now) }
    ensures ready { IsAtHand V.eq tx.now found.now cache.now → local V.judges tx.now found.now ≡ None → IsOk result }
{
    match at_hand(cache, tx, found) {
        Some(checked) => kept_by(checked, tx, found),
        None => judge_local(alloc, tx, found),
    }
}

/// The verdict of rules 1 to 3 and, where nothing is missing in the resolution, 8 to 19. Where one of the checks that
/// are lent is of this transaction with an equal resolution (`Checked::is_of`), its verdict is answered and no script
/// is asked; where that is Accepted, no memory is taken. Else the transaction is judged. Which checks are at hand
/// doesn't show in the verdict. `Memory` says nothing of it: a growth was refused.
pub fn recheck<V: Validator>(
    alloc: Global,
    tx: &Tx,
    found: &Resolved<V>,
    cache: &[Checked<V>],
) -> Result<Verdict, Memory>
    ensures verdict { IfOk result (λ v. v ≡ verdict_of (local V.judges tx.now found.now)) }
    ensures ready { IsAtHand V.eq tx.now found.now cache.now → local V.judges tx.now found.now ≡ None → IsOk result }
{
    let Judged { fault, .. } = rejudge(alloc, tx, found, cache)?;
    Ok(verdict_of(fault))
}
