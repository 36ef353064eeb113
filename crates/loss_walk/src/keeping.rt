//! What a party gets while it keeps up.
ghost use Rattle.std.specs.Prelude.{◌≡◌, true, pos, neg_ℤ, ◌≤ℤ◌, ◌⊎◌, Some, IfOk, IfSome, OnOk};
ghost use Rattle.std.specs.List.{AllByRecursion};
ghost use Rattle.contract.specs.Tree.{contract_tree};
ghost use Rattle.keeping_up.specs.Told.{KeepsWithin, OthersAreKept};
ghost use Rattle.loss_walk.specs.Floors.{IsUnder, IsOneOf, RowsHoldWhile, IsToldBy, TellsAllOf, TellsOwn};

use crate::asked::{is_party, is_token};
use crate::floor::{Floor, least_of, raised};
use crate::laws::nets_bound_kept;
use crate::question::Question;
use crate::quiet::Quiet;
use crate::walk::walk;
use analysis_spec::PaidRange;
use analysis_steps::start;
use contract::{Account, Contract, Entries, Items, Memory, Party, State, TryClone};
use keeping_up::Kept;
use semantics::{accounts_stay_above_zero, payments_are_natural};
use std::alloc::Global;

/// Of so many tokens it is found out how far above 0 a party stays. Each close is asked of them; so they are few.
pub const MOST_ASKED: usize = 16;

/// What a party gets of each token in whatever runs from a state in which it keeps up: in each that leaves nothing in the contract
/// it is paid at least `least`, and brings at most so much more as `most` says. Of a token that isn't named it is paid at least 0,
/// and loses nothing. The ranges tell which tokens the party may be paid: of the first `MOST_ASKED` of them `least` may be above 0,
/// and `most` below. Refused only for memory.
pub fn kept_up(
    alloc: Global,
    contract: &Contract,
    state: &State,
    ranges: &[PaidRange],
    party: &Party,
) -> Result<Items<Kept>, Memory>
    ensures kept { IfOk result (λ all. KeepsWithin party.now all state.now (contract_tree contract.now)) }
    ensures others { IfOk result (λ all. OthersAreKept party.now all state.now (contract_tree contract.now)) }
{
    payments_are_natural();
    accounts_stay_above_zero();
    // touch: the accounts are above 0
    let _accounts = state.accounts();
    let asked = asked_of(alloc, ranges, party)?;
    let paid = kept_rows(alloc, contract, state, party, &asked, false)?;
    let net = kept_rows(alloc, contract, state, party, &asked, true)?;
    let all = told(alloc, party, asked.as_slice(), &paid, &net)?;
    Ok(all)
}

// The accounts of the party of which each close is asked.
fn asked_of(alloc: Global, ranges: &[PaidRange], party: &Party) -> Result<Items<Account>, Memory> {
    let mut asked = Items::new(alloc);
    for range in ranges {
        ask(&mut asked, range, party)?;
    }
    Ok(asked)
}

fn ask(asked: &mut Items<Account>, range: &PaidRange, party: &Party) -> Result<(), Memory> {
    if asked.as_slice().len() >= MOST_ASKED || !is_party(&range.party, party) {
        return Ok(());
    }
    asked.push(Account {
        owner: party.try_clone()?,
        token: range.token.try_clone()?,
    })?;
    Ok(())
}

// Floors for what the party is paid, less what it brings where that is asked, while it keeps up.
fn kept_rows(
    alloc: Global,
    contract: &Contract,
    state: &State,
    party: &Party,
    asked: &Items<Account>,
    net: bool,
) -> Result<Entries<Account, Floor>, Memory>
    ensures { IfOk result (λ rows. RowsHoldWhile net party.now asked.now rows state.now (contract_tree contract.now)) }
{
    nets_bound_kept();
    let question = Question {
        keeper: Some(party.try_clone()?),
        net,
        asked: asked.try_clone()?,
    };
    let known = start(alloc, state)?;
    let mut rows = raised_rows(alloc, asked.as_slice())?;
    walk(
        alloc,
        &question,
        Quiet::from(state.min_time()),
        known,
        contract,
        &mut rows,
    )?;
    Ok(rows)
}

// A row that nothing has lowered yet for each of these.
fn raised_rows(alloc: Global, asked: &[Account]) -> Result<Entries<Account, Floor>, Memory> {
    let mut rows = Entries::new(alloc);
    for account in asked {
        rows.set(account, raised())?;
    }
    Ok(rows)
}

// What the rows of the party tell.
fn told(
    alloc: Global,
    party: &Party,
    asked: &[Account],
    paid: &Entries<Account, Floor>,
    net: &Entries<Account, Floor>,
) -> Result<Items<Kept>, Memory>
    ensures told { IfOk result (AllByRecursion (IsToldBy party.now asked.now paid.now net.now)) }
    ensures all { IfOk result (TellsAllOf party.now net.now) }
{
    let mut all = Items::new(alloc);
    for (account, _) in net.as_slice() {
        put_own(&mut all, party, asked, paid, net, account)?;
    }
    Ok(all)
}

// The row of an account is told, if it is of the party.
fn put_own(
    all: &mut Items<Kept>,
    party: &Party,
    asked: &[Account],
    paid: &Entries<Account, Floor>,
    net: &Entries<Account, Floor>,
    account: &Account,
) -> Result<(), Memory>
    ensures { OnOk result (TellsOwn party.now asked.now paid.now net.now account.now all.old all.new) }
{
    if !is_party(&account.owner, party) {
        return Ok(());
    }
    let least = least_for(asked, account, least_of(paid.get(account)));
    let floor = floor_for(asked, account, least_of(net.get(account)));
    let most = turned(floor);
    all.push(Kept {
        token: account.token.try_clone()?,
        least,
        most,
    })?;
    Ok(())
}

// What is paid at least, as it is told: the floor of a row, or 0 where that is less or isn't known.
fn least_for(asked: &[Account], account: &Account, least: Option<i128>) -> i128
    ensures { (result ≤ℤ pos 0) ⊎ (IsOneOf asked.now account.now × IsUnder least result) }
{
    match least {
        Some(least) => {
            let floor = at_most(asked, account, least);
            if floor > 0 { floor } else { 0 }
        }
        None => 0,
    }
}

// The floor of a row, as it is told.
fn floor_for(asked: &[Account], account: &Account, least: Option<i128>) -> Option<i128>
    ensures { IfSome result (λ n. ((n ≤ℤ pos 0) ⊎ IsOneOf asked.now account.now) × IsUnder least n) }
{
    match least {
        Some(least) => Some(at_most(asked, account, least)),
        None => None,
    }
}

// It is 0 where nothing has lowered it, as the contract is never closed; and where it may be no more.
fn at_most(asked: &[Account], account: &Account, least: i128) -> i128
    ensures wanted { (result ≤ℤ pos 0) ⊎ IsOneOf asked.now account.now }
    ensures under { result ≤ℤ least }
{
    if least <= 0 {
        least
    } else if least < i128::MAX && is_asked(asked, account) {
        least
    } else {
        0
    }
}

fn is_asked(asked: &[Account], account: &Account) -> bool
    ensures { result ≡ true → IsOneOf asked.now account.now }
{
    for other in asked {
        if is_party(&account.owner, &other.owner) && is_token(&account.token, &other.token) {
            return true;
        }
    }
    false
}

// The most that is lost, where no less is paid than this floor.
fn turned(floor: Option<i128>) -> Option<i128>
    ensures { IfSome result (λ n. floor ≡ Some (neg_ℤ n)) }
{
    match floor {
        Some(least) => least.checked_neg(),
        None => None,
    }
}
