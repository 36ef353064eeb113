//! What stands inside a line.
ghost use Rattle.std.specs.Prelude.{◌≡◌, ◌++◌, IfOk, codes, string_bytes};
ghost use Rattle.next_lines.specs.Lines.{money_text, bound_text, payment_text, warns_text, deposit_text, leaving_line, more_line, payment_line, refused_text};
ghost use Rattle.next_lines.specs.Seen.{seen_deposit};

use crate::pieces::Piece;
use crate::told::Deposit;
use contract::{Bound, Memory, Party, Payment, SemFault, Token};
use json_write_contracts::term_text;
use marlowe_refusals::sem_fault_name;
use places::token_text;
use std::alloc::Global;

/// An amount of a token.
pub(crate) fn money_text(alloc: Global, amount: i128, token: &Token) -> Result<String, Memory>
    ensures { IfOk result (λ text. string_bytes text ≡ money_text amount token.now) }
{
    let token = token_text(alloc, token)?;
    format!(in alloc; "{amount} {token}")
}

impl Piece for Bound {
    ghost text = { bound_text };

    fn text(&self, alloc: Global) -> Result<String, Memory> {
        let Bound { from, to } = *self;
        if from == to {
            format!(in alloc; "{from}")
        } else {
            format!(in alloc; "{from} to {to}")
        }
    }
}

impl Piece for Payment {
    ghost text = { payment_text };

    fn text(&self, alloc: Global) -> Result<String, Memory> {
        let money = money_text(alloc, self.amount, &self.token)?;
        let from = term_text(alloc, &self.from)?;
        let to = term_text(alloc, &self.to)?;
        format!(in alloc; "{money} from {from} to {to}")
    }
}

/// A deposit.
pub(crate) fn deposit_text(alloc: Global, deposit: &Deposit<'_>) -> Result<String, Memory>
    ensures { IfOk result (λ text. string_bytes text ≡ seen_deposit deposit_text deposit.now) }
{
    let money = money_text(alloc, deposit.amount, deposit.token)?;
    let party = term_text(alloc, deposit.party)?;
    let account = term_text(alloc, deposit.account)?;
    let warns = warns_text(deposit.amount);
    format!(in alloc; "deposit {money} by {party} into {account}{warns}")
}

// That a deposit of 0 or less warns.
fn warns_text(amount: i128) -> &'static str
    ensures { result.now ≡ warns_text amount }
{
    if amount <= 0 {
        ", warns NonPositiveDeposit"
    } else {
        ""
    }
}

/// The line of a deposit of which a number leaves 128 bits.
pub(crate) fn leaving_line(
    alloc: Global,
    account: &Party,
    party: &Party,
    token: &Token,
) -> Result<String, Memory>
    ensures { IfOk result (λ text. string_bytes text ≡ leaving_line account.now party.now token.now) }
{
    let party = term_text(alloc, party)?;
    let account = term_text(alloc, account)?;
    let token = token_text(alloc, token)?;
    format!(in alloc; "deposit by {party} into {account} of {token}: Leaves128\n")
}

/// The line that says how many more cases take an input; none where there are no more.
pub(crate) fn more_line(alloc: Global, more: usize) -> Result<String, Memory>
    ensures { IfOk result (λ text. string_bytes text ≡ more_line more) }
{
    if more == 0 {
        Ok(String::new(alloc))
    } else {
        format!(in alloc; ".. and {more} more: marlowe next lists all\n")
    }
}

/// The line of a payment of the reduction before the inputs.
pub(crate) fn payment_line(alloc: Global, payment: &Payment) -> Result<String, Memory>
    ensures { IfOk result (λ text. string_bytes text ≡ payment_line payment.now) }
{
    let text = payment.text(alloc)?;
    format!(in alloc; "pays on the way {text}\n")
}

/// That what follows is refused, if it is.
pub(crate) fn refused_text(alloc: Global, refused: Option<SemFault>) -> Result<String, Memory>
    ensures { IfOk result (λ text. string_bytes text ≡ refused_text refused) }
{
    match refused {
        Some(fault) => fault_text(alloc, sem_fault_name(fault)),
        None => Ok(String::new(alloc)),
    }
}

fn fault_text(alloc: Global, name: &str) -> Result<String, Memory>
    ensures { IfOk result (λ text. string_bytes text ≡ codes ", refused " ++ name.now) }
{
    format!(in alloc; ", refused {name}")
}
