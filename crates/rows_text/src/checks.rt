//! Checks at hand. What owns checks and resolutions is generic in their scripts, so that no proof walks through the drop of these.
use crate::carried::{put_in, put_words};
use crate::copied::put_same;
use crate::fault::{RowFault, called};
use crate::verdicts::verdict_line;
use contract::{Same, TryClone};
use roles::{Checked, Resolved, Tx, Validator, Verdict, check, recheck};
use std::alloc::{AllocError, Global};

/// Checks a transaction with what is found, and keeps the check at hand: the line for the verdict.
pub fn keep_check<V: Validator + Drop>(
    alloc: Global,
    checks: &mut Vec<Checked<V>>,
    tx: &Tx,
    found: Result<Resolved<V>, RowFault>,
) -> Result<String, RowFault> {
    put_in(checks, called(check(alloc, tx, found?)))?;
    match checks.last() {
        Some(kept) => Ok(verdict_line(alloc, kept.verdict())?),
        None => Err(RowFault::Failed),
    }
}

/// The verdict on a transaction and what is found, by the checks at hand: behind `at hand` where one is of this transaction with
/// an equal resolution, else `anew`.
pub fn recheck_line<V: Validator + Drop>(
    alloc: Global,
    checks: &[Checked<V>],
    tx: &Tx,
    found: Result<Resolved<V>, RowFault>,
) -> Result<String, RowFault> {
    let found = found?;
    let how = if is_at_hand(checks, tx, &found) {
        "at hand"
    } else {
        "anew"
    };
    let verdict = called(recheck(alloc, tx, &found, checks))?;
    Ok(told(alloc, how, &verdict)?)
}

fn told(alloc: Global, how: &str, verdict: &Verdict) -> Result<String, AllocError> {
    let line = verdict_line(alloc, verdict)?;
    format!(in alloc; "{how} {line}")
}

fn is_at_hand<V: Validator>(checks: &[Checked<V>], tx: &Tx, found: &Resolved<V>) -> bool {
    for checked in checks {
        if checked.is_of(tx, found) {
            return true;
        }
    }
    false
}

/// Of each check at hand, whether a copy is the same, and the copy's verdict.
pub fn check_copies<V: Validator + Same + Drop>(
    alloc: Global,
    checks: &[Checked<V>],
) -> Result<String, AllocError> {
    let mut lines = String::from_str(alloc, "checks")?;
    for checked in checks {
        put_check_copy(alloc, &mut lines, checked)?;
    }
    Ok(lines)
}

fn put_check_copy<V: Validator + Same + Drop>(
    alloc: Global,
    lines: &mut String,
    checked: &Checked<V>,
) -> Result<(), AllocError> {
    let copy = checked.try_clone()?;
    put_beside_copy(alloc, lines, checked, &copy)
}

fn put_beside_copy<V: Validator + Same>(
    alloc: Global,
    lines: &mut String,
    checked: &Checked<V>,
    copy: &Checked<V>,
) -> Result<(), AllocError> {
    put_same(lines, copy.same(checked))?;
    lines.push(' ')?;
    put_words(lines, verdict_line(alloc, copy.verdict()))
}
