//! Floors of all parties and tokens, as far as a walk has come.
ghost use Rattle.std.specs.Prelude.{◌≡◌, ℤ, true, OnOk};
ghost use Rattle.loss_walk.specs.Floors.{Finds, FindsAll, Nothing, ClosesAbove, LowersAll, Lowers, IsUnder, least_of};

use crate::floor::{Floor, least_of, lowered, noted};
use analysis_steps::close_beside;
use analysis_values::Known;
use contract::{Account, Action, Entries, Memory, TryClone};

/// One more close: what each party was paid there, less what it brought. Of these accounts it is asked, also if nothing is known
/// of them.
pub(crate) fn put_close(
    rows: &mut Entries<Account, Floor>,
    known: &Known,
    asked: &[Account],
) -> Result<(), Memory>
    ensures { OnOk result (Finds asked.now (ClosesAbove known.now) rows.old rows.new) }
{
    let names = known.named()?;
    put_all(rows, known, names.as_slice())?;
    put_all(rows, known, asked)?;
    Ok(())
}

// .. of the owners of these accounts.
fn put_all(
    rows: &mut Entries<Account, Floor>,
    known: &Known,
    names: &[Account],
) -> Result<(), Memory>
    ensures { OnOk result (FindsAll (LowersAll known.now names.now) rows.old rows.new) }
{
    for account in names {
        put_one(rows, known, account)?;
    }
    Ok(())
}

fn put_one(
    rows: &mut Entries<Account, Floor>,
    known: &Known,
    account: &Account,
) -> Result<(), Memory>
    ensures { OnOk result (FindsAll (Lowers known.now account.now) rows.old rows.new) }
{
    let row = rows.get(account);
    let span = close_beside(known, account, least_of(row))?;
    if is_kept(row, span.least) {
        return Ok(());
    }
    rows.set(account, lowered(row, span.least))?;
    Ok(())
}

// Whether there is a row that stays as it is where so much was paid at least.
fn is_kept(row: Option<Floor>, least: Option<i128>) -> bool
    ensures { result ≡ true → (n : ℤ) → IsUnder (least_of row) n → IsUnder least n }
{
    match row {
        Some(floor) => is_under(floor.least, least),
        None => false,
    }
}

// Whether a floor is no higher than so much.
fn is_under(floor: Option<i128>, least: Option<i128>) -> bool
    ensures { result ≡ true → (n : ℤ) → IsUnder floor n → IsUnder least n }
{
    match (floor, least) {
        (None, _) => true,
        (Some(floor), Some(least)) => floor <= least,
        (Some(_), None) => false,
    }
}

/// Notes who brings something by an action, if it can come.
pub(crate) fn note(
    rows: &mut Entries<Account, Floor>,
    action: &Action,
    comes: bool,
) -> Result<(), Memory>
    ensures { OnOk result (FindsAll Nothing rows.old rows.new) }
{
    if !comes {
        return Ok(());
    }
    match action {
        Action::Deposit(_, payer, token, _) => {
            let account = Account {
                owner: payer.try_clone()?,
                token: token.try_clone()?,
            };
            note_one(rows, &account)
        }
        _ => Ok(()),
    }
}

fn note_one(rows: &mut Entries<Account, Floor>, account: &Account) -> Result<(), Memory>
    ensures { OnOk result (FindsAll Nothing rows.old rows.new) }
{
    let row = rows.get(account);
    rows.set(account, noted(row))?;
    Ok(())
}
