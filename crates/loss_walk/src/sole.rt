//! What the only party that brings something can lose.
//!
//! What it brings goes to it or to the others. So where one other is paid, what that one is paid at most is what it loses, and the
//! contract need not be gone through.
ghost use Rattle.std.specs.Prelude.{◌≡◌, ◌+ℤ◌, ◌≤ℤ◌, pos, false, Some, None, IfOk, IfSome};
ghost use Rattle.contract.specs.Tree.{contract_tree};
ghost use Rattle.analysis_spec.specs.Analysed.{PaysWithinRanges, PaysOthersNothing};
ghost use Rattle.losses.specs.Told.{LoseWithin, OthersLoseNothing};
ghost use Rattle.loss_walk.specs.Asked.{asks_beyond};
ghost use Rattle.loss_walk.specs.Others.{is_other, AddsRange, PaidSoFar};

use crate::asked::{asks_beyond, is_party, is_token, payer_of};
use crate::laws::nets_bound_losses;
use analysis_spec::PaidRange;
use contract::{Account, Contract, Items, Memory, State};
use losses::Loss;
use semantics::{accounts_stay_above_zero, money_is_kept, payments_are_natural};
use std::alloc::Global;

/// What parties can lose, where one party alone brings something, of one token, and one other is paid of it; or where nobody brings
/// anything. Else nothing is said. Where a deposit may not come (`all_come`), or the start has accounts, the walk says more.
pub(crate) fn sole_losses(
    alloc: Global,
    contract: &Contract,
    state: &State,
    ranges: &[PaidRange],
    all_come: bool,
) -> Result<Option<Items<Loss>>, Memory>
    requires within { PaysWithinRanges ranges.now state.now (contract_tree contract.now) }
    requires unpaid { PaysOthersNothing ranges.now state.now (contract_tree contract.now) }
    ensures losses { IfOk result (λ o. IfSome o (λ all. LoseWithin all state.now (contract_tree contract.now))) }
    ensures others { IfOk result (λ o. IfSome o (λ all. OthersLoseNothing all state.now (contract_tree contract.now))) }
{
    let sole = payer_of(contract)?;
    if asks_beyond(&sole, contract) {
        return Ok(None);
    }
    match sole {
        Some(account) => {
            if all_come && state.accounts().is_empty() {
                lost_by(alloc, contract, state, ranges, account)
            } else {
                Ok(None)
            }
        }
        None => Ok(Some(none_lost(alloc, contract, state))),
    }
}

// Nobody loses anything where nobody brings anything.
fn none_lost(alloc: Global, contract: &Contract, state: &State) -> Items<Loss>
    requires { asks_beyond None (contract_tree contract.now) ≡ false }
    ensures losses { LoseWithin result state.now (contract_tree contract.now) }
    ensures others { OthersLoseNothing result state.now (contract_tree contract.now) }
{
    nets_bound_losses();
    // touch: the accounts are above 0
    let _accounts = state.accounts();
    Items::new(alloc)
}

// The loss of the only one that brings something.
fn lost_by(
    alloc: Global,
    contract: &Contract,
    state: &State,
    ranges: &[PaidRange],
    account: Account,
) -> Result<Option<Items<Loss>>, Memory>
    requires within { PaysWithinRanges ranges.now state.now (contract_tree contract.now) }
    requires unpaid { PaysOthersNothing ranges.now state.now (contract_tree contract.now) }
    requires sole { asks_beyond (Some account) (contract_tree contract.now) ≡ false }
    ensures losses { IfOk result (λ o. IfSome o (λ all. LoseWithin all state.now (contract_tree contract.now))) }
    ensures others { IfOk result (λ o. IfSome o (λ all. OthersLoseNothing all state.now (contract_tree contract.now))) }
{
    nets_bound_losses();
    money_is_kept();
    payments_are_natural();
    accounts_stay_above_zero();
    // touch: the accounts are above 0
    let _accounts = state.accounts();
    let Some(most) = most_of_others(&account, ranges) else {
        return Ok(None);
    };
    let mut all = Items::new(alloc);
    all.push(Loss {
        party: account.owner,
        token: account.token,
        most: Some(most),
    })?;
    Ok(Some(all))
}

// What the others are paid at most, where that is known and no more than one of them is paid.
fn most_of_others(account: &Account, ranges: &[PaidRange]) -> Option<i128>
    ensures { IfSome result (PaidSoFar account.now ranges.now) }
{
    let mut most: i128 = 0;
    for range in ranges {
        match with_range(account, range, most) {
            Some(more) => most = more,
            None => return None,
        }
    }
    Some(most)
}

// .. with one more range.
fn with_range(account: &Account, range: &PaidRange, most: i128) -> Option<i128>
    requires { pos 0 ≤ℤ most }
    ensures { IfSome result (AddsRange account.now range.now most) }
{
    if !is_other(account, range) {
        return Some(most);
    }
    match range.most {
        Some(own) => if_one(most, own),
        None => None,
    }
}

// The sum of two, where no more than one is above 0.
fn if_one(most: i128, own: i128) -> Option<i128>
    requires { pos 0 ≤ℤ most }
    ensures { IfSome result (λ n. (pos 0 ≤ℤ n) × ((most +ℤ own) ≤ℤ n)) }
{
    if own <= 0 {
        Some(most)
    } else if most == 0 {
        Some(own)
    } else {
        None
    }
}

fn is_other(account: &Account, range: &PaidRange) -> bool
    ensures { result ≡ is_other account.now range.now }
{
    is_token(&account.token, &range.token) && !is_party(&account.owner, &range.party)
}
