//! Amounts that move between accounts and parties.
ghost use Rattle.std.specs.Prelude.{◌≡◌, true, IfOk, OnOk};
ghost use Rattle.contract.specs.Names.declared.payee.Payee.TheVariants.{Account as ToAccount, Party as ToParty};
ghost use Rattle.semantics.specs.Reduction.{account_of};
ghost use Rattle.analysis_values.specs.Known.{held};
ghost use Rattle.analysis_steps.specs.Amounts.{HasAllDue};
ghost use Rattle.analysis_steps.specs.Moved.{Debits, Grows, PaysOut, Moves, Transfers};

use crate::amounts::{paid, rest, sum};
use analysis_values::Known;
use contract::{Memory, Party, Payee, Token};
use linear::Linear;

// The account of a party gives an amount.
fn debit(known: &mut Known, owner: &Party, token: &Token, amount: &Linear) -> Result<(), Memory>
    ensures { OnOk result (Debits known.old known.new owner.now token.now amount.now) }
{
    let before = known.held(owner, token)?;
    let left = rest(known, &before, amount)?;
    known.replace_account(owner, token, left)
}

// The account of a party, which held so much before, gets an amount; whether the sum is shown to fit 128 bits.
pub(crate) fn grow(
    known: &mut Known,
    owner: &Party,
    token: &Token,
    before: &Linear,
    amount: &Linear,
) -> Result<bool, Memory>
    requires { before.now ≡ held known.old.view.accounts (account_of owner.now token.now) }
    ensures { IfOk result (Grows known.old known.new owner.now token.now amount.now) }
{
    let total = sum(known, before, amount)?;
    let fits = known.stays(&total)?;
    known.replace_account(owner, token, total)?;
    Ok(fits)
}

// A party is paid an amount.
fn pay_out(known: &mut Known, party: &Party, token: &Token, amount: &Linear) -> Result<(), Memory>
    ensures { OnOk result (PaysOut known.old known.new party.now token.now amount.now) }
{
    let before = known.paid(party, token)?;
    let total = sum(known, &before, amount)?;
    known.replace_paid(party, token, total)
}

// An amount moves from one account to another, which is looked up once the first is reduced: they may be one. And
// whether the sum is shown to fit 128 bits.
fn to_account(
    known: &mut Known,
    payer: &Party,
    owner: &Party,
    token: &Token,
    amount: &Linear,
) -> Result<bool, Memory>
    ensures { IfOk result (λ fit. Moves known.old known.new payer.now (ToAccount owner.now) token.now amount.now fit) }
{
    debit(known, payer, token, amount)?;
    let held = known.held(owner, token)?;
    grow(known, owner, token, &held, amount)
}

// An amount moves from an account to a party.
fn to_party(
    known: &mut Known,
    from: &Party,
    party: &Party,
    token: &Token,
    amount: &Linear,
) -> Result<(), Memory>
    ensures { OnOk result (Moves known.old known.new from.now (ToParty party.now) token.now amount.now true) }
{
    debit(known, from, token, amount)?;
    pay_out(known, party, token, amount)
}

// An amount moves; whether the sum of an account is shown to fit 128 bits.
fn move_amount(
    known: &mut Known,
    from: &Party,
    to: &Payee,
    token: &Token,
    amount: &Linear,
) -> Result<bool, Memory>
    ensures { IfOk result (λ fit. Moves known.old known.new from.now to.now token.now amount.now fit) }
{
    match to {
        Payee::Account(owner) => to_account(known, from, owner, token, amount),
        Payee::Party(party) => {
            to_party(known, from, party, token, amount)?;
            Ok(true)
        }
    }
}

/// What is paid of an amount that is due moves: all of it, where that is shown, also of 0; whether the sum of an account is shown
/// to fit 128 bits.
pub(crate) fn transfer(
    known: &mut Known,
    from: &Party,
    to: &Payee,
    token: &Token,
    balance: &Linear,
    due: &Linear,
    whole: bool,
) -> Result<bool, Memory>
    requires balance { balance.now ≡ held known.old.view.accounts (account_of from.now token.now) }
    requires whole { whole ≡ true → HasAllDue known.old.symbols balance.now due.now }
    ensures { IfOk result (λ fit. Transfers known.old known.new from.now to.now token.now due.now fit) }
{
    let amount = paid(known, balance, due, whole)?;
    let fits = move_amount(known, from, to, token, &amount)?;
    Ok(fits)
}
