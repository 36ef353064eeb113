//! The rule on sums.
ghost use Rattle.std.specs.Prelude.{◌≡◌, ◌<◌, ◌+◌, pos, IfOk, option_copied, length, drop};
ghost use Rattle.eutxo.specs.Differing.{first_differing};
ghost use Rattle.eutxo.specs.ChangesSupport.{goes_on, uneven};
ghost use Rattle.eutxo.specs.Rules.{not_preserved};

use crate::changes::{Change, changes_between};
use crate::spent::Spent;
use contract::names::{Token, compare_tokens};
use contract::{Memory, TryClone};
use eutxo_types::{Holds, Output, TxFault, WideSum};
use std::alloc::Global;

// Whether the change after this place is of the same token.
fn goes_on(changes: &[Change<'_>], at: usize, token: &Token) -> bool
    requires { at < length changes.now }
    ensures { result ≡ goes_on token.now (drop (at + 1) changes.now) }
{
    at + 1 < changes.len() && compare_tokens(token, changes[at + 1].token()).is_eq()
}

fn first_uneven<'a>(changes: &[Change<'a>]) -> Option<&'a Token>
    ensures { option_copied result ≡ uneven (pos 0) changes.now }
{
    let mut total = WideSum::zero();
    for at in 0..changes.len() {
        let change = &changes[at];
        total.add(change.amount());
        if !goes_on(changes, at, change.token()) {
            if !(total == WideSum::zero()) {
                return Some(change.token());
            }
            total = WideSum::zero();
        }
    }
    None
}

// The least token of which the sums over two lists differ: n log n steps in the entries of both.
#[tactic(auto, using(crate::proofs::DifferingLemmas::walk_decides))]
fn first_differing<'a, A: Holds, B: Holds>(
    alloc: Global,
    spent: &'a [A],
    made: &'a [B],
) -> Result<Option<&'a Token>, Memory>
    ensures { IfOk result (λ token. option_copied token ≡ first_differing A.held B.held spent.now made.now) }
{
    let changes = changes_between(alloc, spent, made)?;
    Ok(first_uneven(&changes))
}

/// The least token of which the sums over what is spent and over what is made differ. It takes n log n
/// steps in their entries.
pub(crate) fn not_preserved(
    alloc: Global,
    spent: &[Spent<'_>],
    made: &[Output],
) -> Result<Option<TxFault>, Memory>
    ensures { IfOk result (λ fault. fault ≡ not_preserved spent.now made.now) }
{
    match first_differing(alloc, spent, made)? {
        Some(token) => Ok(Some(TxFault::NotPreserved(token.try_clone()?))),
        None => Ok(None),
    }
}
