//! Amounts that a step has to hold.
ghost use Rattle.std.specs.Prelude.{◌≡◌, ◌↔◌, IsTrue, IfOk, MatchResult, true, not, pos, ◌<ℤ◌, ◌-ℤ◌, int_lt, map, length, ◌∷◌, []};
ghost use Rattle.std.proofs.Math.Dec.{T};
ghost use Rattle.std.specs.List.{list_all};
ghost use Rattle.std.specs.Ordering.{int_eq};
ghost use Rattle.std.specs.FinMap.{is_sorted};
ghost use Rattle.contract.specs.Names.Orders.{token_cmp};
ghost use Rattle.contract.proofs.FromCollections.Places.{IsAt, IsGap};
ghost use Rattle.roles.specs.LeftSupport.{left_of, IsTaken};
ghost use Rattle.roles.specs.Sums.{sums_of};
ghost use Rattle.roles.specs.Steps.{only, same_amounts};

use contract::names::{Token, compare_tokens};
use contract::{Account, Entries, Memory, Same, State};
use eutxo::Bundle;
use std::alloc::Global;

// How much each entry has, in order.
fn numbers_of(alloc: Global, entries: &[(Token, i128)]) -> Result<Vec<i128>, Memory>
    ensures { IfOk result (λ numbers. numbers.items ≡ map (λ e. e.1) entries.now) }
{
    let mut numbers = Vec::with_capacity(alloc, entries.len())?;
    for entry in entries {
        numbers.push(entry.1)?;
    }
    Ok(numbers)
}

// Where a token is among entries in the order of their tokens, or where it would go.
fn place_of(entries: &[(Token, i128)], token: &Token) -> Result<usize, usize>
    requires { T (is_sorted token_cmp entries.now) }
    ensures { MatchResult result (IsAt token_cmp token.now entries.now) (IsGap token_cmp token.now entries.now) }
{
    entries.binary_search_by(|entry| compare_tokens(&entry.0, token))
}

// Takes what an account has out of what is left, where there is as much.
fn lessen(left: &mut i128, account: &(Account, i128)) -> bool
    requires { pos 0 <ℤ account.now.1 }
    ensures enough { result ≡ not (int_lt left.old account.now.1) }
    ensures taken { result ≡ true → left.new ≡ left.old -ℤ account.now.1 }
{
    if *left < account.1 {
        return false;
    }
    *left -= account.1;
    true
}

// Takes what an account has out of what is left of its token, where there is as much.
fn take(entries: &[(Token, i128)], left: &mut Vec<i128>, account: &(Account, i128)) -> bool
    requires sorted { T (is_sorted token_cmp entries.now) }
    requires each { length left.old.items ≡ length entries.now }
    requires positive { pos 0 <ℤ account.now.1 }
    ensures each { length left.new.items ≡ length entries.now }
    ensures enough { result ≡ not (int_lt (left_of entries.now left.old.items account.now.0.token) account.now.1) }
    ensures taken { result ≡ true → IsTaken entries.now left.old.items left.new.items account.now.0.token account.now.1 }
{
    match place_of(entries, &account.0.token) {
        Ok(at) => lessen(&mut left[at], account),
        Err(_) => false,
    }
}

fn are_zero(left: &[i128]) -> bool
    ensures { result ≡ list_all (λ n. int_eq n (pos 0)) left.now }
{
    left.iter().all(|n| *n == 0)
}

/// Whether an amount is exactly the sums of a state's accounts: each account is taken out of what is
/// left of its token, and in the end nothing is left. It takes memory for a number a token, and time in
/// the accounts, and logarithmically in the tokens.
pub fn is_sums(alloc: Global, amount: &Bundle, state: &State) -> Result<bool, Memory>
    ensures { IfOk result (λ answer. IsTrue answer ↔ (amount.now ≡ sums_of state.now)) }
{
    let entries = amount.entries();
    let mut left = numbers_of(alloc, entries)?;
    for account in state.accounts() {
        if !take(entries, &mut left, account) {
            return Ok(false);
        }
    }
    Ok(are_zero(left.as_slice()))
}

/// Just this much of one token, above 0.
pub fn only(alloc: Global, token: &Token, number: i128) -> Result<Bundle, Memory>
    requires { pos 0 <ℤ number }
    ensures { IfOk result (λ amount. amount ≡ only token.now number) }
{
    let mut entries = Entries::new(alloc);
    entries.set(token, number)?;
    Ok(Bundle::from_entries(entries))
}

/// Whether an amount is just this much of one token.
pub fn is_only(amount: &Bundle, token: &Token, number: i128) -> bool
    ensures { IsTrue result ↔ (amount.now ≡ only token.now number) }
{
    is_one(amount.entries(), token, number)
}

fn is_one(entries: &[(Token, i128)], token: &Token, number: i128) -> bool
    ensures { IsTrue result ↔ (entries.now ≡ (token.now, number) ∷ []) }
{
    match entries {
        [entry] => entry.0.same(token) && entry.1 == number,
        _ => false,
    }
}

/// Whether an amount is exactly the sums of a state's accounts. It takes memory for a number a token.
pub fn holds_sums(alloc: Global, amount: &Bundle, state: &State) -> Result<bool, Memory>
    ensures { IfOk result (λ answer. answer ≡ same_amounts amount.now (sums_of state.now)) }
{
    is_sums(alloc, amount, state)
}
